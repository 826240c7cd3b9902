// Taking an event into the tables: why one cannot be taken, whether the monitor is to be asked, and what it changes.
ghost use Rattle.std.specs.Prelude.{◌≡◌, ◌+◌, ◌<◌, ◌≤◌, not, length, if◌then◌else◌, Some};
ghost use Rattle.model.specs.Calls.{answer};
ghost use Rattle.model.specs.Core.{raise_fault, asks, raised_state, fresh_grant};
ghost use Rattle.model.specs.Tick.{fresh};
ghost use Rattle.model.specs.Board.{line_at, serves};
ghost use Rattle.parts.specs.Grants.{opened};
ghost use Rattle.scheduler.specs.View.{board_of, state_of};

use super::Tables;
use crate::mask::Mask;
use board::Board;
use model::{Event, Line, Refusal};
use parts::{CAPACITY, Grant, Queues};

impl Tables {
    // At instant 0, with nothing owed, no grant and empty queues.
    pub fn new(board: Board) -> Tables
        ensures state { state_of result ≡ fresh }
        ensures board { result.board ≡ board }
    {
        Tables {
            board,
            instant: 0,
            owed: 0,
            grant: Grant::closed(),
            queues: Queues::new(),
        }
    }

    pub fn instant(&self) -> u32
        ensures { result ≡ (state_of self.now).instant }
    {
        self.instant
    }

    pub fn owed(&self) -> u32
        ensures { result ≡ (state_of self.now).owed }
    {
        self.owed
    }

    // How many events wait for a partition; none for one that no board has.
    pub fn waiting(&self, partition: u8) -> usize
        ensures { result ≡ length ((state_of self.now).queue partition) }
    {
        self.queues.len(partition)
    }

    // The line of a number that the board has.
    fn wired(&self, line: u32) -> Line
        requires { line < length (board_of self.now).lines }
        ensures { result ≡ line_at (board_of self.now) line }
    {
        self.board.lines()[line as usize]
    }

    // Why an event of a line cannot be taken under a mask, if it cannot.
    pub fn check(&self, mask: &Mask, line: u32) -> Result<(), Refusal>
        ensures { result ≡ answer (raise_fault (board_of self.now) (state_of self.now) mask.now.word line) }
    {
        let lines = self.board.lines();
        let wired = lines.get(line as usize).ok_or(Refusal::NoSuch(line))?;
        if mask.closes(line) {
            return Err(Refusal::Masked(line));
        }
        if self.queues.len(wired.owner) >= CAPACITY {
            return Err(Refusal::QueueFull(u32::from(wired.owner)));
        }
        Ok(())
    }

    // Whether the slot is another partition's than the line's.
    fn in_foreign_slot(&self, owner: u8) -> bool
        ensures { result ≡ not (serves (board_of self.now) owner self.now.instant) }
    {
        self.board.owner_at(self.instant) != owner
    }

    // Whether the monitor is to be asked about a line that the board has.
    pub(crate) fn asks(&self, line: u32) -> bool
        requires { line < length (board_of self.now).lines }
        ensures { result ≡ asks (board_of self.now) (state_of self.now) line }
    {
        !self.grant.is_open() && self.in_foreign_slot(self.wired(line).owner)
    }

    // What an event adds to the work owed: its top cost, and the check's in a foreign slot.
    fn top_work(&self, wired: Line) -> u32
        requires { wired.top ≤ 1000 }
        ensures work { result ≡ wired.top + (if not (serves (board_of self.now) wired.owner self.now.instant) then (board_of self.now).overheads.check else 0) }
        ensures few { result ≤ 2000 }
    {
        let top = u32::from(wired.top);
        if self.in_foreign_slot(wired.owner) {
            return top + u32::from(self.board.overheads().check);
        }
        top
    }

    // The grant after an event of a line was taken: a permit opens one.
    fn next_grant(&self, line: u8, wired: Line, permitted: bool) -> Grant
        requires known { line < length (board_of self.now).lines }
        requires read { wired ≡ line_at (board_of self.now) line }
        ensures { opened result ≡ (if permitted then Some (fresh_grant (board_of self.now) line) else opened self.now.grant) }
    {
        if !permitted {
            return self.grant;
        }
        let overheads = self.board.overheads();
        let lead = overheads.reschedule + overheads.switch;
        Grant::new(line, lead, wired.handler, overheads.switch)
    }

    // Queues an event of a line that can be taken, and opens its grant if it is permitted.
    pub(crate) fn take(&mut self, line: u32, tag: u32, permitted: bool)
        requires known { line < length (board_of self.old).lines }
        requires room { length ((state_of self.old).queue (line_at (board_of self.old) line).owner) < 32 }
        ensures state { state_of self.new ≡ raised_state (board_of self.old) (state_of self.old) line tag permitted }
        ensures board { self.new.board ≡ self.old.board }
    {
        let wired = self.wired(line);
        let work = self.top_work(wired);
        let event = Event {
            tag,
            line: line as u8,
            raised: self.instant,
            left: wired.handler,
        };
        self.grant = self.next_grant(line as u8, wired, permitted);
        let pushed = self.queues.push(wired.owner, event);
        prove!(pushed);
        self.owed += work;
    }
}
