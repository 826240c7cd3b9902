// Making and setting a jitter curve, and what it answers.
ghost use Rattle.std.specs.Prelude.{◌≡◌, Some, MatchResult};
ghost use Rattle.model.specs.Calls.{Replaced};
ghost use Rattle.curve.specs.Single.{single};
ghost use Rattle.curve.specs.Jitter.{jitter_of, periodic, jitter_new, jitter_fault, jitter_most};
ghost use Rattle.curve.specs.Laws.{jitter_laws};

use super::Jitter;
use crate::curve::Curve;
use model::Refusal;
use windows::{LONGEST, cut, in_range};

impl Jitter {
    pub fn new() -> Jitter
        ensures { jitter_of result ≡ jitter_new }
    {
        Jitter::of(LONGEST, 0).unwrap()
    }

    // The curve of a period and a jitter that are in range.
    pub fn of(period: u32, jitter: u32) -> Result<Jitter, Refusal>
        ensures { MatchResult result (λ c. jitter_of c ≡ periodic period jitter) (λ e. jitter_fault (periodic period jitter) ≡ Some e) }
    {
        if !in_range(1, LONGEST, period) {
            return Err(Refusal::Setting(0));
        }
        if jitter > LONGEST {
            return Err(Refusal::Setting(1));
        }
        Ok(Jitter { period, jitter })
    }

    // Replaces the period and the jitter.
    // Every kind has a `set` over its own `of`: what they share is this one step.
    pub fn set(&mut self, period: u32, jitter: u32) -> Result<(), Refusal>
        ensures { Replaced jitter_of (jitter_fault (periodic period jitter)) (periodic period jitter) self.old result self.new }
    {
        *self = Jitter::of(period, jitter)?;
        Ok(())
    }
}

// Each curve of one line says so itself. A trait of rules with its law, and one impl by it, would be longer than what the two share,
// a number and a test of the line; a wrapper would change its type.
impl Curve for Jitter {
    ghost lines = { λ c. 1 };

    ghost most = { λ c. single (jitter_most (jitter_of c)) };

    ghost lawful = { λ c. jitter_laws (jitter_of c) c.some c.jitter_few };

    fn lines(&self) -> u32 {
        1
    }

    fn most(&self, line: u32, window: u64) -> u64 {
        if line != 0 || window == 0 {
            return 0;
        }
        // rounded up as in `lengths`, by a sum and one division
        let period = u64::from(self.period);
        (cut(window) + u64::from(self.jitter) + (period - 1)) / period
    }
}
