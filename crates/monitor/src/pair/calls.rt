// Making a pair, and what it answers as a monitor.
ghost use Rattle.std.specs.Prelude.{◌≡◌, true};
ghost use Rattle.model.specs.Monitor.{Asked};
ghost use Rattle.monitor.specs.Pair.{pair_lines, pair_ready, pair_ceiling, pair_left, pair_spent, PartAsked};
ghost use Rattle.monitor.specs.Joining.{joined_laws};
ghost use Rattle.monitor.specs.Meanings.{meaning};

use super::Pair;
use crate::monitor::Monitor;
use crate::part::{MOST_LINES, Part, part_of};

impl<A, B> Pair<A, B> {
    pub fn new(first: A, second: B) -> Pair<A, B>
        ensures { result ≡ record { first = first; second = second } }
    {
        Pair { first, second }
    }
}

impl<A: Monitor, B: Monitor> Monitor for Pair<A, B> {
    ghost lines = { pair_lines A.Monitor.lines B.Monitor.lines };

    ghost ready = { pair_ready A.Monitor.lines A.Monitor.ready B.Monitor.ready };

    ghost ceiling = { pair_ceiling A.Monitor.lines A.Monitor.ceiling B.Monitor.ceiling };

    ghost left = { pair_left A.Monitor.lines A.Monitor.left B.Monitor.left };

    ghost spent = { pair_spent A.Monitor.lines A.Monitor.spent B.Monitor.spent };

    ghost lawful = { λ m. joined_laws (A.Monitor.lawful m.first) (B.Monitor.lawful m.second) };

    fn lines(&self) -> u32 {
        (self.first.lines() + self.second.lines()).min(MOST_LINES)
    }

    fn ready(&self, line: u32, at: u32) -> bool {
        match part_of(self.first.lines(), line) {
            Some(Part::First) => self.first.ready(line, at),
            Some(Part::Second(place)) => self.second.ready(place, at),
            None => false,
        }
    }

    fn ceiling(&self, line: u32, window: u64) -> u64 {
        match part_of(self.first.lines(), line) {
            Some(Part::First) => self.first.ceiling(line, window),
            Some(Part::Second(place)) => self.second.ceiling(place, window),
            None => 0,
        }
    }

    fn ask(&mut self, line: u32, at: u32) -> bool
        ensures asked { Asked (meaning ⟦<Pair<A, B> as Monitor>⟧) self.old line at result self.new }
        ensures once { result ≡ true → pair_spent A.Monitor.lines A.Monitor.spent B.Monitor.spent self.old line at self.new }
        ensures part { PartAsked (meaning A.Monitor) (meaning B.Monitor) self.old line at result self.new }
    {
        match part_of(self.first.lines(), line) {
            Some(Part::First) => self.first.ask(line, at),
            Some(Part::Second(place)) => self.second.ask(place, at),
            None => false,
        }
    }
}
