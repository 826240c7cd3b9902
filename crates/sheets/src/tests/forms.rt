// Lines that are read and lines that are refused, with the byte of the fault.
use super::given::each_gives;
use std::test::Fail;

// A sheet on board K, and its text.
const LINES: [(&[u8], &str); 52] = [
    // the empty sheet has no line, a lone line feed is one
    (b"", ""),
    (b"\n", "F 1 11 0\n"),
    (b"\n\n", "F 1 11 0\nF 2 11 1\n"),
    // the last line needs no line feed
    (b"M 1", "M\n"),
    (b"M 1\n", "M\n"),
    (b"M 1\nM 2", "M\nM\n"),
    // the letter is a word of one byte, a capital
    (b"X 1\n", "F 1 11 0\n"),
    (b"r 0 7\n", "F 1 11 0\n"),
    (b"RR 0 7\n", "F 1 11 0\n"),
    (b" R 0 7\n", "F 1 11 0\n"),
    (b" \n", "F 1 11 0\n"),
    (b"\tR 0 7\n", "F 1 11 0\n"),
    (b"R\t0 7\n", "F 1 11 0\n"),
    (b"7\n", "F 1 11 0\n"),
    // a missing word is told at the line's end
    (b"R\n", "F 1 11 1\n"),
    (b"R 0\n", "F 1 11 3\n"),
    (b"R 0", "F 1 11 3\n"),
    (b"W 3\n", "F 1 11 3\n"),
    (b"M\n", "F 1 11 1\n"),
    (b"A\n", "F 1 11 1\n"),
    (b"A", "F 1 11 1\n"),
    // a word too many is told at its place
    (b"R 0 7 1\n", "F 1 11 6\n"),
    (b"R  0 7\n", "F 1 11 5\n"),
    (b"W 3 1 \n", "F 1 11 6\n"),
    (b"M 1 2\n", "F 1 11 4\n"),
    (b"A 5 \n", "F 1 11 4\n"),
    (b"A 5  9\n", "F 1 11 4\n"),
    // the letter comes before the count, and the count before the numbers
    (b"X x\n", "F 1 11 0\n"),
    (b"R x\n", "F 1 11 3\n"),
    (b"R x y z\n", "F 1 11 6\n"),
    // numbers: decimal, one digit or more, from left to right
    (b"R x y\n", "F 1 12 2\n"),
    (b"R 0 y\n", "F 1 12 4\n"),
    (b"R 0 \n", "F 1 12 4\n"),
    (b"R  7\n", "F 1 12 2\n"),
    (b"M \n", "F 1 12 2\n"),
    (b"M +1\n", "F 1 12 2\n"),
    (b"M -1\n", "F 1 12 2\n"),
    (b"M 1_0\n", "F 1 12 2\n"),
    (b"M 0x1\n", "F 1 12 2\n"),
    // every byte value but a space and a line feed is part of a word
    (b"M 1\r\n", "F 1 12 2\n"),
    (b"A 5\r\nM 1\n", "F 1 12 2\nM\n"),
    (b"M\t1\n", "F 1 11 0\n"),
    (b"M 1\t\n", "F 1 12 2\n"),
    (b"M \x00\n", "F 1 12 2\n"),
    (b"\x00\n", "F 1 11 0\n"),
    (b"M \xff\n", "F 1 12 2\n"),
    (b"\x80 1\n", "F 1 11 0\n"),
    (b"M /\n", "F 1 12 2\n"),
    (b"M :\n", "F 1 12 2\n"),
    // a byte counts from the sheet's start, a line from 1
    (b"M 1\nX\nM 2\nM 70000\n", "M\nF 2 11 4\nM\nF 4 12 12\n"),
    // a refused line changes nothing, and reading goes on
    (
        b"R 9 1\nR 0 7\nX\nA 1\n",
        "F 1 6 9\nP\nF 3 11 12\nS 0 1 T 255 0\n",
    ),
    (b"M 1\nM 65536\nR 0 1\n", "M\nF 2 12 6\nF 3 7 0\n"),
];

#[test]
fn lines(rt: HostRuntime) -> Result<(), Fail> {
    each_gives(&rt, &LINES)
}

// Numbers at both ends of their widths, with leading zeros.
const WIDTHS: [(&[u8], &str); 14] = [
    (b"M 0\n", "M\n"),
    (b"M 65535\n", "M\n"),
    (b"M 65536\n", "F 1 12 2\n"),
    (b"M 0000000000000000000000065535\n", "M\n"),
    (
        b"M 99999999999999999999999999999999999999999\n",
        "F 1 12 2\n",
    ),
    (b"W 65535 0\n", "W 3 1\n"),
    (b"W 65536 0\n", "F 1 12 2\n"),
    (b"W 0 4294967295\n", "W 0 0\n"),
    (b"W 0 4294967296\n", "F 1 12 4\n"),
    (b"R 4294967295 0\n", "F 1 6 4294967295\n"),
    (b"R 4294967296 0\n", "F 1 12 2\n"),
    (b"R 00 4294967295\n", "P\n"),
    (b"A 4294967295\n", "F 1 9 4000000000\n"),
    (b"A 4294967296\n", "F 1 12 2\n"),
];

#[test]
fn widths(rt: HostRuntime) -> Result<(), Fail> {
    each_gives(&rt, &WIDTHS)
}
