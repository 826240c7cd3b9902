// The slot at an instant: its owner, and for how many ticks from there it stays the owner's.
ghost use Rattle.board.specs.Held.{held};
ghost use Rattle.scheduler.specs.Slots.{Stays, StaysOn};

use board::Board;
use model::Slot;

// The slot at hand while any of it is left, and then the one at the instant: to its end, or for ever where there is no other owner.
// For ever is the greatest number of ticks: a burst takes the least of what a slot, its rule and its caller leave, and an Option
// would be one test more in each.
pub fn slot_now(board: &Board, at: u32, slot: Slot) -> Slot
    ensures { StaysOn (held board.now) at slot.owner slot.ticks → Stays (held board.now) at result.owner result.ticks }
{
    if slot.ticks > 0 {
        return slot;
    }
    let next = board.slot_at(at);
    if board.is_owned_by(next.owner) {
        return Slot {
            ticks: u32::MAX,
            ..next
        };
    }
    next
}
