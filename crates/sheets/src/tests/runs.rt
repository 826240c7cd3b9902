// What raising, strobing, masking and running print.
use super::given::{each_gives, gives};
use std::test::Fail;

// A sheet on board K, and its text.
const RUNS: [(&[u8], &str); 8] = [
    // one event, permitted in a foreign slot
    (
        b"R 0 7\nA 20\n",
        "P\nS 0 3 T 255 0\nS 3 3 X 0 0\nS 6 3 I 0 0\nS 9 1 X 0 0\nS 10 1 X 0 1\nS 11 5 A 1 1\nS 16 4 A 0 0\nD 7 0 0 9\n",
    ),
    // two at once: the second is queued, and finished at 27
    (
        b"R 0 7\nR 0 8\nA 30\n",
        "P\nQ\nS 0 6 T 255 0\nS 6 3 X 0 0\nS 9 1 I 0 0\nS 10 2 I 0 1\nS 12 2 X 0 1\nS 14 2 B 1 1\nS 16 10 A 0 0\nS 26 1 B 1 1\nS 27 3 A 1 1\nD 7 0 0 12\nD 8 0 0 27\n",
    ),
    // in its own slot it is queued, and finished at 15
    (
        b"A 10\nR 0 5\nA 6\n",
        "S 0 10 A 0 0\nQ\nS 10 2 T 255 1\nS 12 3 B 1 1\nS 15 1 A 1 1\nD 5 0 10 15\n",
    ),
    // both lines at once; a closed line; a word of lines that the board lacks
    (b"W 3 1\nA 4\n", "W 3 1\nS 0 4 T 255 0\n"),
    (b"M 1\nW 3 1\nM 2\nW 3 2\nM 0\n", "M\nW 2 0\nM\nW 1 1\nM\n"),
    (b"W 65532 9\n", "W 0 0\n"),
    // no ticks print nothing, and spans do not join across two lines
    (b"A 0\nA 1\nA 0\nA 1\n", "S 0 1 A 0 0\nS 1 1 A 0 0\n"),
    // a refused A runs nothing
    (
        b"A 10\nA 3999999991\nA 1\n",
        "S 0 10 A 0 0\nF 2 9 3999999990\nS 10 1 A 1 1\n",
    ),
];

#[test]
fn runs(rt: HostRuntime) -> Result<(), Fail> {
    each_gives(&rt, &RUNS)
}

// The 33rd event of a partition is refused, and the 32 before it are kept.
#[test]
fn a_full_queue(rt: HostRuntime) -> Result<(), Fail> {
    let mut sheet = Vec::new(rt.alloc());
    let mut text = String::from_str(rt.alloc(), "P\n")?;
    sheet.extend_from_slice(b"R 0 1\n")?;
    for _ in 0..31 {
        sheet.extend_from_slice(b"R 0 1\n")?;
        text.push_str("Q\n")?;
    }
    sheet.extend_from_slice(b"R 0 1\n")?;
    text.push_str("F 33 8 1\n")?;
    gives(&rt, sheet.as_slice(), text.as_str())
}
