// Long advances: more than 64 spans in one, the clock's end, and a sheet that is cut.
use super::given::{gives, played};
use board::Board;
use distance::Distance;
use std::test::Fail;

// A thousand idle ticks are 125 spans, one for each slot.
#[test]
fn more_spans_than_places(rt: HostRuntime) -> Result<(), Fail> {
    let mut text = String::new(rt.alloc());
    for first in (0..992u32).step_by(16) {
        let later = first + 10;
        let slots = format!(in rt.alloc(); "S {first} 10 A 0 0\nS {later} 6 A 1 1\n")?;
        text.push_str(slots.as_str())?;
    }
    text.push_str("S 992 8 A 0 0\n")?;
    gives(&rt, b"A 1000\n", text.as_str())
}

// With one owner of all slots the whole clock is one span.
#[test]
fn the_end_of_the_clock(rt: HostRuntime) -> Result<(), Fail> {
    let sheet = b"A 4000000001\nA 3999999999\nA 2\nA 1\nA 0\nA 1\nR 0 1\n";
    let text =
        "F 1 9 4000000000\nS 0 3999999999 A 0 0\nF 3 9 1\nS 3999999999 1 A 0 0\nF 6 9 0\nF 7 6 0\n";
    let told = played(&rt, Board::new(), Distance::new(), sheet)?;
    assert_eq!(rt; told.as_str(), text);
    Ok(())
}

// A sheet that is cut inside a number is played as it is cut.
#[test]
fn a_sheet_that_is_cut(rt: HostRuntime) -> Result<(), Fail> {
    let sheet = b"M 1\nA 12345";
    gives(&rt, &sheet[0..7], "M\nS 0 1 A 0 0\n")?;
    gives(&rt, &sheet[0..6], "M\nF 2 12 6\n")?;
    gives(&rt, &sheet[0..5], "M\nF 2 11 5\n")?;
    gives(&rt, &sheet[0..4], "M\n")
}
