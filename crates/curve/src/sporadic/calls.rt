// Making and setting a sporadic curve, and what it answers.
ghost use Rattle.std.specs.Prelude.{◌≡◌, Some, MatchResult};
ghost use Rattle.model.specs.Calls.{Replaced};
ghost use Rattle.curve.specs.Single.{single};
ghost use Rattle.curve.specs.Sporadic.{sporadic_of, spaced, sporadic_new, sporadic_fault, sporadic_most};
ghost use Rattle.curve.specs.Laws.{sporadic_laws};

use super::Sporadic;
use crate::curve::Curve;
use model::Refusal;
use windows::{LONGEST, in_range, lengths};

impl Sporadic {
    pub fn new() -> Sporadic
        ensures { sporadic_of result ≡ sporadic_new }
    {
        Sporadic::of(LONGEST).unwrap()
    }

    // The curve of a distance that is in range.
    pub fn of(distance: u32) -> Result<Sporadic, Refusal>
        ensures { MatchResult result (λ c. sporadic_of c ≡ spaced distance) (λ e. sporadic_fault (spaced distance) ≡ Some e) }
    {
        if !in_range(1, LONGEST, distance) {
            return Err(Refusal::Setting(0));
        }
        Ok(Sporadic { distance })
    }

    // Replaces the distance.
    // Every kind has a `set` over its own `of`: what they share is this one step.
    pub fn set(&mut self, distance: u32) -> Result<(), Refusal>
        ensures { Replaced sporadic_of (sporadic_fault (spaced distance)) (spaced distance) self.old result self.new }
    {
        *self = Sporadic::of(distance)?;
        Ok(())
    }
}

// Each curve of one line says so itself. A trait of rules with its law, and one impl by it, would be longer than what the two share,
// a number and a test of the line; a wrapper would change its type.
impl Curve for Sporadic {
    ghost lines = { λ c. 1 };

    ghost most = { λ c. single (sporadic_most (sporadic_of c)) };

    ghost lawful = { λ c. sporadic_laws (sporadic_of c) c.some };

    fn lines(&self) -> u32 {
        1
    }

    fn most(&self, line: u32, window: u64) -> u64 {
        if line != 0 {
            return 0;
        }
        lengths(window, self.distance)
    }
}
