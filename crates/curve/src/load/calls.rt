// What lines and the slots of others take from a partition in a window, and the sum.
ghost use Rattle.std.specs.Prelude.{◌≡◌, ◌+◌, ◌*◌, ◌<◌, ◌≤◌, length};
ghost use Rattle.model.specs.Limits.{end, largest};
ghost use Rattle.model.specs.Board.{cycle, line_at};
ghost use Rattle.model.specs.Demand.{away_most, share, grants, demand};
ghost use Rattle.board.specs.Held.{held};

use super::Load;
use crate::curve::Curve;
use model::Line;
use monitor::Monitor;
use windows::lengths;

// A cost taken so many times. No cost of a line is above 13,000 ticks.
fn times(count: u64, cost: u32) -> u64
    requires counted { count ≤ largest }
    requires cheap { cost ≤ 13000 }
    ensures value { result ≡ count * cost }
    ensures few { result ≤ largest * 13000 }
{
    count * u64::from(cost)
}

impl<M: Monitor, C: Curve> Load<'_, M, C> {
    // What the events of a line in a window, some of them granted, cost the partition.
    fn share(&self, k: u32, line: &Line, window: u64) -> u64
        requires known { k < length (held self.now.board.now).lines }
        requires read { line.now ≡ line_at (held self.now.board.now) k }
        ensures value { result ≡ share (held self.now.board.now) self.now.partition k (C.Curve.most self.now.curve.now k window) (grants (held self.now.board.now) (M.Monitor.ceiling self.now.monitor.now) (C.Curve.most self.now.curve.now) k window) }
        ensures few { result ≤ largest * 39000 }
    {
        let events = self.curve.most(k, window);
        let grants = events.min(self.monitor.ceiling(k, window));
        let overheads = self.board.overheads();
        let grant = overheads.grant();
        let handler = u32::from(line.handler);
        let handled = if u32::from(line.owner) == self.partition {
            times(events, handler) + times(grants, grant)
        } else {
            times(grants, handler + grant)
        };
        times(events, u32::from(line.top) + u32::from(overheads.check)) + handled
    }

    // The ticks of a window that the slots of others can take, whole cycles counted: hardly more than the window.
    fn away(&self, window: u64) -> u64
        requires { window ≤ end }
        ensures value { result ≡ away_most (held self.now.board.now) self.now.partition window }
        ensures few { result ≤ window + cycle (held self.now.board.now) }
    {
        lengths(window, self.board.cycle()) * u64::from(self.others)
    }

    // The demand in a window.
    pub(crate) fn demand(&self, window: u64) -> u64
        requires { window ≤ end }
        ensures { result ≡ demand (held self.now.board.now) (M.Monitor.ceiling self.now.monitor.now) (C.Curve.most self.now.curve.now) self.now.partition window }
    {
        let mut total = 0;
        for (k, line) in self.board.lines().iter().enumerate() {
            total += self.share(k as u32, line, window);
        }
        total + self.away(window)
    }
}
