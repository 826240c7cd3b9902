// Running ticks into a caller's buffers, stretch by stretch.
ghost use Rattle.std.specs.Prelude.{◌≡◌, ◌+◌, ◌-◌, ◌<◌, ◌≤◌, length, Err};
ghost use Rattle.model.specs.declared.refusal.Refusal.TheVariants.{PastEnd};
ghost use Rattle.model.specs.Limits.{end};
ghost use Rattle.scheduler.specs.Ticking.{Going, Most, RunBy};
ghost use Rattle.scheduler.specs.View.{board_of, state_of};

use super::super::Tables;
use crate::slots::slot_now;
use crate::strip::Strip;
use model::{Finished, Ran, Refusal, Slot, Span};
use windows::END;

impl Tables {
    // Runs as many of the ticks as their output fits, and never fewer.
    fn run(&mut self, ticks: u32, spans: &mut [Span], finished: &mut [Finished]) -> Ran
        requires { self.old.instant + ticks ≤ 4000000000 }
        ensures going { Going (board_of self.old) (state_of self.old) ticks spans.old finished.old result (state_of self.new) spans.new finished.new }
        ensures most { Most (board_of self.old) (state_of self.old) ticks (length spans.old) (length finished.old) result.ticks }
        ensures board { self.new.board ≡ self.old.board }
    {
        let mut tape = Strip::new(spans);
        let mut done = Strip::new(finished);
        let mut run = 0;
        // nothing is left of a slot before the first: a count of 0, for which a slot is asked anyway
        let mut slot = Slot::default();
        // stretch by stretch, and no index
        while run < ticks {
            slot = slot_now(&self.board, self.instant, slot);
            let row = self.row(slot.owner);
            let first = self.instant;
            if !tape.has_place(Span::new(first, 0, row)) {
                break;
            }
            let limit = slot.ticks.min(ticks - run);
            let (burst, ended) = self.burst(slot.owner, limit, !done.is_full());
            if burst == 0 {
                break;
            }
            tape.put(Span::new(first, burst, row));
            done.note(ended);
            run += burst;
            slot.ticks -= burst;
        }
        Ran {
            ticks: run,
            spans: tape.len(),
            finished: done.len(),
        }
    }

    // Runs up to `ticks` ticks, or refuses where they pass the clock's end.
    pub fn advance(
        &mut self,
        ticks: u32,
        spans: &mut [Span],
        finished: &mut [Finished],
    ) -> Result<Ran, Refusal>
        ensures ran { ticks ≤ end - self.old.instant → RunBy (board_of self.old) (state_of self.old) ticks spans.old finished.old result (state_of self.new) spans.new finished.new }
        ensures past { end - self.old.instant < ticks → (result ≡ Err (PastEnd (end - self.old.instant))) × (self.new ≡ self.old) × (spans.new ≡ spans.old) × (finished.new ≡ finished.old) }
        ensures board { self.new.board ≡ self.old.board }
    {
        let left = END - self.instant;
        if ticks > left {
            return Err(Refusal::PastEnd(left));
        }
        Ok(self.run(ticks, spans, finished))
    }
}
