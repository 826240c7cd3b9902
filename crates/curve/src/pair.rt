// Two curves as one, in the monitors' Pair: the lines of the first, then those of the second.
ghost use Rattle.curve.specs.Pair.{pair_lines, pair_most};
ghost use Rattle.curve.specs.Laws.{pair_laws};

use crate::curve::Curve;
use monitor::{MOST_LINES, Pair, Part, part_of};

impl<A: Curve, B: Curve> Curve for Pair<A, B> {
    ghost lines = { λ c. pair_lines (A.Curve.lines c.first) (B.Curve.lines c.second) };

    ghost most = { λ c. pair_most (A.Curve.lines c.first) (A.Curve.most c.first) (B.Curve.most c.second) };

    ghost lawful = { λ c. pair_laws (A.Curve.lawful c.first) (B.Curve.lawful c.second) };

    fn lines(&self) -> u32 {
        (self.first.lines() + self.second.lines()).min(MOST_LINES)
    }

    fn most(&self, line: u32, window: u64) -> u64 {
        match part_of(self.first.lines(), line) {
            Some(Part::First) => self.first.most(line, window),
            Some(Part::Second(place)) => self.second.most(place, window),
            None => 0,
        }
    }
}
