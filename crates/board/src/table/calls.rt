// Filling a board, and the questions that it answers.
ghost use Rattle.std.specs.Prelude.{◌≡◌, ◌%◌, ◌==◌, false, [], ◌∷◌, length, if◌then◌else◌, is_some, Some, Ok, Err, MatchResult, nat_lt};
ghost use Rattle.std.specs.List.{list_all};
ghost use Rattle.model.specs.declared.refusal.Refusal.TheVariants.{NoSuch};
ghost use Rattle.model.specs.Board.{layout, fault, cycle, owner_at, own, full_cost};
ghost use Rattle.model.specs.Calls.{Replaced};
ghost use Rattle.board.specs.Held.{held, given};
ghost use Rattle.board.specs.Slots.{InSlot, slot_from};

use super::{Board, owned_in, slot_in, sum_of};
use crate::checks::check;
use crate::layout::Layout;
use arrayvec::ArrayVec;
use model::{Line, Overheads, Refusal, Slot};

impl Board {
    // One partition, one slot of one tick, no lines, no overheads.
    pub fn new() -> Board
        ensures { held result ≡ layout 1 (record { owner = 0; ticks = 1 } ∷ []) [] (record { check = 0; reschedule = 0; switch = 0 }) }
    {
        let layout = Layout {
            partitions: 1,
            slots: &[Slot::new(0, 1)],
            lines: &[],
            overheads: Overheads::default(),
        };
        Board::of(layout).unwrap()
    }

    // The board of these numbers, or the first check that fails.
    pub fn of(layout: Layout) -> Result<Board, Refusal>
        ensures { MatchResult result (λ b. held b ≡ given layout.entry) (λ e. fault (given layout.entry) ≡ Some e) }
    {
        check(layout)?;
        Ok(Board::checked(layout))
    }

    // The board of numbers that no check refuses.
    fn checked(layout: Layout) -> Board
        requires { is_some (fault (given layout)) ≡ false }
        ensures { held result ≡ given layout.entry }
    {
        Board {
            partitions: layout.partitions,
            slots: ArrayVec::try_from(layout.slots).unwrap(),
            lines: ArrayVec::try_from(layout.lines).unwrap(),
            overheads: layout.overheads,
            cycle: sum_of(layout.slots),
        }
    }

    // Replaces the whole board, or refuses with the first check that fails and leaves it as it was. It checks before a board is made,
    // as `of` does: over `of` a refusal would clear the place of one, and a board would be moved once more.
    pub fn fill(&mut self, layout: Layout) -> Result<(), Refusal>
        ensures { Replaced held (fault (given layout.entry)) (given layout.entry) self.old result self.new }
    {
        check(layout)?;
        *self = Board::checked(layout);
        Ok(())
    }

    // What it was made of.
    pub fn layout(&self) -> Layout<'_>
        ensures { given result ≡ held self.now }
    {
        Layout {
            partitions: self.partitions,
            slots: &self.slots,
            lines: &self.lines,
            overheads: self.overheads,
        }
    }

    pub fn partitions(&self) -> u8
        ensures { result ≡ (held self.now).partitions }
    {
        self.partitions
    }

    pub fn slots(&self) -> &[Slot]
        ensures { result.now ≡ (held self.now).slots }
    {
        &self.slots
    }

    pub fn lines(&self) -> &[Line]
        ensures { result.now ≡ (held self.now).lines }
    {
        &self.lines
    }

    pub fn overheads(&self) -> Overheads
        ensures { result ≡ (held self.now).overheads }
    {
        self.overheads
    }

    // The slots' lengths together: after so many ticks they begin anew.
    pub fn cycle(&self) -> u32
        ensures { result ≡ cycle (held self.now) }
    {
        self.cycle
    }

    // The owner at an instant, and the ticks that are left of its slot from there.
    pub fn slot_at(&self, at: u32) -> Slot
        ensures value { result ≡ slot_from (held self.now).slots (at % cycle (held self.now)) }
        ensures in_slot { InSlot (held self.now).slots (at % cycle (held self.now)) result.owner result.ticks }
    {
        slot_in(&self.slots, at % self.cycle)
    }

    // The owner of the slot at an instant.
    pub fn owner_at(&self, at: u32) -> u8
        ensures { result ≡ owner_at (held self.now) at }
    {
        self.slot_at(at).owner
    }

    // Whether one partition owns every slot.
    pub fn is_owned_by(&self, owner: u8) -> bool
        ensures { result ≡ list_all (λ s. s.owner == owner) (held self.now).slots }
    {
        self.slots.iter().all(|slot| slot.owner == owner)
    }

    // The ticks of each cycle that belong to a partition.
    pub fn own(&self, partition: u32) -> Result<u32, Refusal>
        ensures { result ≡ (if nat_lt partition (held self.now).partitions then Ok (own (held self.now) partition) else Err (NoSuch partition)) }
    {
        if partition >= u32::from(self.partitions) {
            return Err(Refusal::NoSuch(partition));
        }
        Ok(owned_in(partition, &self.slots))
    }

    // All that a grant of a line takes: its handler, rescheduling, a switch there and back.
    pub fn full_cost(&self, line: u32) -> Result<u32, Refusal>
        ensures { result ≡ (if nat_lt line (length (held self.now).lines) then Ok (full_cost (held self.now) line) else Err (NoSuch line)) }
    {
        let granted = self.lines.get(line as usize).ok_or(Refusal::NoSuch(line))?;
        Ok(u32::from(granted.handler) + self.overheads.grant())
    }
}
