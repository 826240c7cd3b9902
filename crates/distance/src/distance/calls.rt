// Setting a distance, and what it answers as a monitor.
ghost use Rattle.std.specs.Prelude.{◌≡◌, true, MatchResult, if◌then◌else◌};
ghost use Rattle.model.specs.Calls.{Replaced};
ghost use Rattle.model.specs.Monitor.{Asked};
ghost use Rattle.monitor.specs.Meanings.{meaning};
ghost use Rattle.distance.specs.Distance.{distance_ready, distance_ceiling, distance_left, distance_after, distance_fault, distance_new};
ghost use Rattle.distance.specs.View.{distance_state};
ghost use Rattle.distance.specs.Distances.{distance_laws};

use super::Distance;
use crate::after::is_after;
use model::Refusal;
use monitor::Monitor;
use windows::{END, LONGEST, in_range, lengths};

impl Distance {
    pub fn new() -> Distance
        ensures { distance_state result ≡ distance_new 1000000000 }
    {
        Distance::of(LONGEST).unwrap()
    }

    // A new one that keeps this distance, if that is in range.
    pub fn of(distance: u32) -> Result<Self, Refusal>
        ensures { MatchResult result
            (λ m. distance_state m ≡ distance_new distance) (λ e. distance_fault distance ≡ Some e) }
    {
        if !in_range(1, LONGEST, distance) {
            return Err(Refusal::Setting(0));
        }
        Ok(Distance {
            distance,
            latest: None,
        })
    }

    // Replaces the distance and forgets the permits.
    // Every kind has a `set` over its own `of`: what they share is this one step.
    pub fn set(&mut self, distance: u32) -> Result<(), Refusal>
        ensures { Replaced distance_state (distance_fault distance) (distance_new distance) self.old result self.new }
    {
        *self = Self::of(distance)?;
        Ok(())
    }
}

// Each kind of one line says so itself. One impl by a trait of rules would ask nearly as many members of each kind (the rule, the
// ceiling, what is left, what a permit makes of it, their laws) to spare it a number and three tests; a wrapper would change its
// type.
impl Monitor for Distance {
    ghost lines = { λ m. 1 };

    ghost ready = { λ m. distance_ready (distance_state m) };

    ghost ceiling = { λ m. distance_ceiling (distance_state m) };

    ghost left = { λ m. distance_left (distance_state m) };

    ghost spent = { λ m k t n. distance_state n ≡ distance_after (distance_state m) t };

    ghost lawful = { λ m. distance_laws (distance_state m) m.some };

    fn lines(&self) -> u32 {
        1
    }

    fn ready(&self, line: u32, at: u32) -> bool {
        line == 0 && at <= END && is_after(self.latest, self.distance, at)
    }

    fn ceiling(&self, line: u32, window: u64) -> u64 {
        if line != 0 {
            return 0;
        }
        lengths(window, self.distance)
    }

    fn ask(&mut self, line: u32, at: u32) -> bool
        ensures asked { Asked (meaning ⟦<Distance as Monitor>⟧) self.old line at result self.new }
        ensures after { distance_state self.new
            ≡ (if result then distance_after (distance_state self.old) at else distance_state self.old) }
        ensures once { result ≡ true → distance_state self.new ≡ distance_after (distance_state self.old) at }
    {
        if !self.ready(line, at) {
            return false;
        }
        self.latest = Some(at);
        true
    }
}
