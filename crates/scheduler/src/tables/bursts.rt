// Ticks run at once: the row that the next tick has, and the longest stretch of it that one rule gives.
ghost use Rattle.std.specs.Prelude.{◌≡◌, ◌+◌, ◌<◌, ◌≤◌};
ghost use Rattle.model.specs.Board.{owner_at, line_at};
ghost use Rattle.model.specs.Tick.{tick};
ghost use Rattle.scheduler.specs.Stretches.{Stretch};
ghost use Rattle.scheduler.specs.Slots.{Stays};
ghost use Rattle.scheduler.specs.View.{board_of, state_of};
ghost use Rattle.scheduler.specs.Works.{Works};
ghost use Rattle.parts.specs.Grants.{opened, stepped};
ghost use Rattle.parts.specs.Waiting.{queue_of};

use super::Tables;
use model::{Finished, Kind, Row};
use parts::Phase;

mod running;

impl Tables {
    // What the next tick is spent on, and for whom, in a slot of `owner`; 255 is nobody, as a tape has it.
    fn row(&self, owner: u8) -> Row
        ensures { owner_at (board_of self.now) self.now.instant ≡ owner → (tick (board_of self.now) (state_of self.now)).row ≡ result }
    {
        let line = self.grant.line();
        let (kind, who) = match self.grant.phase() {
            _ if self.owed > 0 => (Kind::Top, 255),
            Phase::Lead { .. } | Phase::Trail { .. } => (Kind::Switch, line),
            Phase::Work { .. } => (Kind::Interposed, line),
            Phase::Closed if self.queues.len(owner) > 0 => (Kind::Bottom, owner),
            Phase::Closed => (Kind::Application, owner),
        };
        Row { kind, who, owner }
    }

    // Ticks of a grant's switch.
    fn switch(&mut self, ticks: u32) -> u32
        requires clock { self.old.instant + ticks ≤ 4000000000 }
        ensures count { result ≡ ticks }
        ensures moved { state_of self.new ≡ record { instant = self.old.instant + ticks; owed = self.old.owed; granted = stepped ticks self.old.grant; queue = queue_of self.old.queues } }
        ensures board { self.new.board ≡ self.old.board }
    {
        self.grant.step(ticks);
        self.instant += ticks;
        ticks
    }

    // The partition of the grant's line; 0 where the board lacks it, as the model's owner of such a line.
    fn granted_partition(&self) -> u8
        ensures { result ≡ (line_at (board_of self.now) self.now.grant.line).owner }
    {
        self.board
            .lines()
            .get(usize::from(self.grant.line()))
            .map_or(0, |line| line.owner)
    }

    // Ticks of the head event of a partition; where none waits, ticks with nothing served. The answer is a pair, as of `work` and
    // `burst`: the queue's with an Event that is told as a Finished.
    fn serve(&mut self, partition: u8, ticks: u32, room: bool) -> (u32, Option<Finished>)
        requires nothing { self.old.owed ≡ 0 }
        requires clock { self.old.instant + ticks ≤ 4000000000 }
        ensures works { Works self.old partition ticks room result.0 result.1 (opened self.old.grant) self.new }
        ensures grant { self.new.grant ≡ self.old.grant }
    {
        let (served, ended) = self.queues.serve(partition, ticks, room);
        self.instant += served;
        let at = self.instant;
        let finished = ended.map(|event| Finished {
            tag: event.tag,
            line: event.line,
            raised: event.raised,
            at,
        });
        (served, finished)
    }

    // Ticks of a grant's work: of the head event of its line's partition.
    fn work(&mut self, ticks: u32, room: bool) -> (u32, Option<Finished>)
        requires nothing { self.old.owed ≡ 0 }
        requires clock { self.old.instant + ticks ≤ 4000000000 }
        ensures { Works self.old (line_at (board_of self.old) self.old.grant.line).owner ticks room result.0 result.1 (stepped result.0 self.old.grant) self.new }
    {
        let partition = self.granted_partition();
        let (served, ended) = self.serve(partition, ticks, room);
        self.grant.step(served);
        (served, ended)
    }

    // The longest stretch of ticks that one rule gives in a slot of `owner`, up to `limit`, with the event that it ended. How far it
    // may go and whether an event may end come from two places, the slot and the caller's buffer, so they are two arguments.
    fn burst(&mut self, owner: u8, limit: u32, room: bool) -> (u32, Option<Finished>)
        requires lasts { Stays (board_of self.old) self.old.instant owner limit }
        requires clock { self.old.instant + limit ≤ 4000000000 }
        ensures stretch { Stretch (board_of self.old) (state_of self.old) limit room result.0 result.1 (state_of self.new) }
        ensures board { self.new.board ≡ self.old.board }
    {
        if self.owed > 0 {
            let ticks = self.owed.min(limit);
            self.owed -= ticks;
            self.instant += ticks;
            return (ticks, None);
        }
        match self.grant.phase() {
            Phase::Lead { left, .. } | Phase::Trail { left } => (
                self.switch(u32::from(left).min(limit)),
                None,
            ),
            Phase::Work { left, .. } => self.work(u32::from(left).min(limit), room),
            Phase::Closed => self.serve(owner, limit, room),
        }
    }
}
