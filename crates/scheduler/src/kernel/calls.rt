// Making a core, raising events on it, running its ticks, and asking where it stands.
ghost use Rattle.std.specs.Prelude.{◌≡◌, ◌<◌, true, length, is_err, Ok};
ghost use Rattle.model.specs.declared.run.Answer.TheVariants.{Permitted as says_permitted};
ghost use Rattle.model.specs.Core.{new_core, Raised, Taken, Advanced};
ghost use Rattle.model.specs.Laws.{Laws};
ghost use Rattle.board.specs.Held.{held};
ghost use Rattle.model.specs.Board.{line_at};
ghost use Rattle.scheduler.specs.Seen.{core_of, Asking};
ghost use Rattle.monitor.specs.Meanings.{meaning};

use super::Core;
use crate::mask::Mask;
use crate::tables::Tables;
use board::Board;
use model::{Answer, Finished, Ran, Refusal, Span};
use monitor::Monitor;

impl<M: Monitor> Core<M> {
    // A new core: at instant 0, nothing owed, no grant, empty queues. Over every run from it the three laws hold.
    pub fn new(board: Board, monitor: M) -> Core<M>
        ensures fresh { core_of result ≡ new_core (held board) monitor }
        ensures laws { Laws (meaning M.Monitor) (held board) monitor }
    {
        Core {
            monitor,
            tables: Tables::new(board),
        }
    }

    // Raises an event of a line, unless the board lacks the line, the mask closes it or its partition's queue is full. Mask, line
    // and tag are what the caller has, each from a place of its own.
    pub fn raise(&mut self, mask: &Mask, line: u32, tag: u32) -> Result<Answer, Refusal>
        ensures raised { Raised (meaning M.Monitor) (core_of self.old) mask.now.word line tag result (core_of self.new) }
        ensures refused { is_err result ≡ true → self.new ≡ self.old }
        ensures once { result ≡ Ok says_permitted → M.Monitor.spent self.old.monitor line (core_of self.old).state.instant self.new.monitor }
    {
        self.tables.check(mask, line)?;
        Ok(self.accept(line, tag))
    }

    // Asks the monitor about a line, in a foreign slot while no grant is open.
    fn permit(&mut self, line: u32) -> bool
        requires { line < length (core_of self.old).board.lines }
        ensures asking { Asking (meaning M.Monitor) (core_of self.old) line result self.new.monitor }
        ensures once { result ≡ true → M.Monitor.spent self.old.monitor line (core_of self.old).state.instant self.new.monitor }
        ensures same { self.new.tables ≡ self.old.tables }
    {
        if !self.tables.asks(line) {
            return false;
        }
        let at = self.tables.instant();
        self.monitor.ask(line, at)
    }

    // Takes an event that no check refuses.
    fn accept(&mut self, line: u32, tag: u32) -> Answer
        requires known { line < length (core_of self.old).board.lines }
        requires room { length ((core_of self.old).state.queue (line_at (core_of self.old).board line).owner) < 32 }
        ensures once { result ≡ says_permitted → M.Monitor.spent self.old.monitor line (core_of self.old).state.instant self.new.monitor }
        ensures taken { Taken (meaning M.Monitor) (core_of self.old) line tag (Ok result) (core_of self.new) }
    {
        let permitted = self.permit(line);
        self.tables.take(line, tag, permitted);
        if permitted {
            Answer::Permitted
        } else {
            Answer::Queued
        }
    }

    // Runs up to `ticks` ticks, and writes their spans and finished events to the front of the buffers. It stops just before
    // the first tick that needs a place that they lack. The buffers are the caller's own two, in fixed memory; how many places of
    // each were written is part of the answer.
    pub fn advance(
        &mut self,
        ticks: u32,
        spans: &mut [Span],
        finished: &mut [Finished],
    ) -> Result<Ran, Refusal>
        ensures advanced { Advanced (core_of self.old) ticks spans.old finished.old result (core_of self.new) spans.new finished.new }
        ensures refused { is_err result ≡ true → self.new ≡ self.old }
    {
        self.tables.advance(ticks, spans, finished)
    }

    pub fn instant(&self) -> u32
        ensures { result ≡ (core_of self.now).state.instant }
    {
        self.tables.instant()
    }

    // The ticks of top handling still owed.
    pub fn owed(&self) -> u32
        ensures { result ≡ (core_of self.now).state.owed }
    {
        self.tables.owed()
    }

    // How many events a partition's queue holds; none for a partition that the board lacks.
    pub fn waiting(&self, partition: u8) -> usize
        ensures { result ≡ length ((core_of self.now).state.queue partition) }
    {
        self.tables.waiting(partition)
    }
}
