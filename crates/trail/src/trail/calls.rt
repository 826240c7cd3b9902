// Setting a trail, and what it answers as a monitor.
ghost use Rattle.std.specs.Prelude.{◌≡◌, true, [], ◌∷◌, MatchResult, if◌then◌else◌};
ghost use Rattle.model.specs.Calls.{Replaced};
ghost use Rattle.model.specs.Monitor.{Asked};
ghost use Rattle.monitor.specs.Meanings.{meaning};
ghost use Rattle.trail.specs.Trail.{trail_ready, trail_ceiling, trail_left, trail_after, trail_fault, trail_new};
ghost use Rattle.trail.specs.View.{trail_state};
ghost use Rattle.trail.specs.Trails.{trail_kept, trail_laws};

use super::checks::check_distances;
use super::{MOST, Trail};
use arrayvec::ArrayVec;
use distance::is_after;
use model::Refusal;
use monitor::Monitor;
use windows::{END, LONGEST, lengths};

impl Trail {
    pub fn new() -> Trail
        ensures { trail_state result ≡ trail_new (1000000000 ∷ []) }
    {
        Trail::of(&[LONGEST]).unwrap()
    }

    // A new one that keeps these distances, if they are in range.
    pub fn of(distances: &[u32]) -> Result<Self, Refusal>
        ensures { MatchResult result
            (λ m. trail_state m ≡ trail_new distances.now) (λ e. trail_fault distances.now ≡ Some e) }
    {
        let distances = ArrayVec::try_from(distances).map_err(|_| Refusal::Setting(0))?;
        check_distances(&distances)?;
        Ok(Trail {
            distances,
            permits: [None; MOST],
        })
    }

    // Replaces the distances and forgets the permits.
    // Every kind has a `set` over its own `of`: what they share is this one step.
    pub fn set(&mut self, distances: &[u32]) -> Result<(), Refusal>
        ensures { Replaced trail_state (trail_fault distances.now) (trail_new distances.now) self.old result self.new }
    {
        *self = Self::of(distances)?;
        Ok(())
    }
}

// Each kind of one line says so itself. One impl by a trait of rules would ask nearly as many members of each kind (the rule, the
// ceiling, what is left, what a permit makes of it, their laws) to spare it a number and three tests; a wrapper would change its
// type.
impl Monitor for Trail {
    ghost lines = { λ m. 1 };

    ghost ready = { λ m. trail_ready (trail_state m) };

    ghost ceiling = { λ m. trail_ceiling (trail_state m) };

    ghost left = { λ m. trail_left (trail_state m) };

    ghost spent = { λ m k t n. trail_state n ≡ trail_after (trail_state m) t };

    ghost lawful = { λ m. trail_laws (trail_state m) (trail_kept (trail_state m).distances m.in_range) };

    fn lines(&self) -> u32 {
        1
    }

    fn ready(&self, line: u32, at: u32) -> bool {
        line == 0
            && at <= END
            && self
                .distances
                .iter()
                .zip(&self.permits)
                .all(|(distance, permit)| is_after(*permit, *distance, at))
    }

    fn ceiling(&self, line: u32, window: u64) -> u64 {
        if line != 0 {
            return 0;
        }
        self.distances
            .iter()
            .enumerate()
            .map(|(i, distance)| (i as u64 + 1) * lengths(window, *distance))
            .min()
            .unwrap_or(0)
    }

    fn ask(&mut self, line: u32, at: u32) -> bool
        ensures asked { Asked (meaning ⟦<Trail as Monitor>⟧) self.old line at result self.new }
        ensures after { trail_state self.new
            ≡ (if result then trail_after (trail_state self.old) at else trail_state self.old) }
        ensures once { result ≡ true → trail_state self.new ≡ trail_after (trail_state self.old) at }
    {
        if !self.ready(line, at) {
            return false;
        }
        self.permits.rotate_right(1);
        self.permits[0] = Some(at);
        true
    }
}
