// Which part of a pair a line falls to.
ghost use Rattle.std.specs.Prelude.{◌≡◌};
ghost use Rattle.monitor.specs.Part.{part_of};

// No monitor and no curve has more lines.
pub const MOST_LINES: u32 = 16;

// The part of a pair that has a line; the second knows it by a number of its own.
#[derive(Clone, Copy, PartialEq, Eq, Debug)]
pub enum Part {
    First,
    Second(u32),
}

// The part that has a line, where the first part has so many lines; neither has a line past line 15. The calls of a pair match on it,
// each to ask a call of its own of the part: one function for them would take two closures, and be no plainer.
pub fn part_of(first: u32, line: u32) -> Option<Part>
    ensures { result ≡ part_of first line }
{
    if line < first {
        Some(Part::First)
    } else if line < MOST_LINES {
        Some(Part::Second(line - first))
    } else {
        None
    }
}
