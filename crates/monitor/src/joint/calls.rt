// Making a joint, and what it answers as a monitor.
ghost use Rattle.std.specs.Prelude.{◌≡◌, true};
ghost use Rattle.model.specs.Monitor.{Asked};
ghost use Rattle.monitor.specs.Joint.{joint_lines, joint_ready, joint_ceiling, joint_left, joint_spent, BothAsked};
ghost use Rattle.monitor.specs.Joining.{limited_laws};
ghost use Rattle.monitor.specs.Meanings.{meaning};

use super::Joint;
use crate::monitor::Monitor;

impl<A, B> Joint<A, B> {
    pub fn new(first: A, second: B) -> Joint<A, B>
        ensures { result ≡ record { first = first; second = second } }
    {
        Joint { first, second }
    }
}

impl<A: Monitor, B: Monitor> Monitor for Joint<A, B> {
    ghost lines = { joint_lines A.Monitor.lines };

    ghost ready = { joint_ready A.Monitor.ready B.Monitor.ready };

    ghost ceiling = { joint_ceiling A.Monitor.ceiling B.Monitor.ceiling };

    ghost left = { joint_left A.Monitor.left B.Monitor.left };

    ghost spent = { joint_spent A.Monitor.spent B.Monitor.spent };

    ghost lawful = { λ m. limited_laws (A.Monitor.lawful m.first) (B.Monitor.lawful m.second) };

    fn lines(&self) -> u32 {
        self.first.lines()
    }

    fn ready(&self, line: u32, at: u32) -> bool {
        self.first.ready(line, at) && self.second.ready(0, at)
    }

    fn ceiling(&self, line: u32, window: u64) -> u64 {
        self.first
            .ceiling(line, window)
            .min(self.second.ceiling(0, window))
    }

    fn ask(&mut self, line: u32, at: u32) -> bool
        ensures asked { Asked (meaning ⟦<Joint<A, B> as Monitor>⟧) self.old line at result self.new }
        ensures once { result ≡ true → joint_spent A.Monitor.spent B.Monitor.spent self.old line at self.new }
        ensures both { BothAsked (meaning A.Monitor) (meaning B.Monitor) self.old line at result self.new }
    {
        self.second.ready(0, at) && self.first.ask(line, at) && self.second.ask(0, at)
    }
}
