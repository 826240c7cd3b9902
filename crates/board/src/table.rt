// The board's tables, what every board that exists keeps, and walks over a list of slots.
ghost use Rattle.std.specs.Prelude.{◌≡◌, ◌^◌, ◌<◌, false, is_some, sum_by};
ghost use Rattle.model.specs.Board.{layout, cycle_of, owned_in, fault};
ghost use Rattle.board.specs.Slots.{slot_from};

use crate::checks::{MOST_LINES, MOST_SLOTS};
use arrayvec::ArrayVec;
use model::{Line, Overheads, Slot};

mod calls;

#[derive(Drop)]
pub struct Board {
    partitions: u8,
    slots: ArrayVec<Slot, MOST_SLOTS>,
    lines: ArrayVec<Line, MOST_LINES>,
    overheads: Overheads,
    cycle: u32,
    ghost in_range: { is_some (fault (layout partitions slots.items lines.items overheads)) ≡ false },
    ghost summed: { cycle ≡ cycle_of slots.items },
}

// The slots' lengths together.
fn sum_of(slots: &[Slot]) -> u32
    requires { sum_by (λ s. s.ticks) slots.now < 2 ^ 32 }
    ensures { result ≡ sum_by (λ s. s.ticks) slots.now }
{
    slots.iter().map(|slot| slot.ticks).sum()
}

// The slot of a place within the cycle, with the ticks that are left of it from there.
fn slot_in(slots: &[Slot], place: u32) -> Slot
    requires { place < cycle_of slots.now }
    ensures { result ≡ slot_from slots.now place }
{
    let mut rest = place;
    for slot in slots {
        if rest < slot.ticks {
            return Slot::new(slot.owner, slot.ticks - rest);
        }
        rest -= slot.ticks;
    }
    unreachable!()
}

// The lengths of one partition's slots together.
fn owned_in(partition: u32, slots: &[Slot]) -> u32
    requires { owned_in partition slots.now < 2 ^ 32 }
    ensures { result ≡ owned_in partition slots.now }
{
    let mut sum = 0;
    // a `for`: a chain of filter, map and sum takes half as long again
    for slot in slots {
        if u32::from(slot.owner) == partition {
            sum += slot.ticks;
        }
    }
    sum
}
