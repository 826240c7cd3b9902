// The checks of a board's numbers, in their order. Each answers the first place that fails.
ghost use Rattle.std.specs.Prelude.{◌≡◌, ℕ, ◌≤◌, Bool, length, nat_le};
ghost use Rattle.model.specs.declared.refusal.Refusal.{Refusal};
ghost use Rattle.model.specs.declared.refusal.Refusal.TheVariants.{SlotRange, LineRange, OverheadRange};
ghost use Rattle.model.specs.Board.{fault, count_fault, first_fault, overhead_fault, unless, slot_fits, line_fits};
ghost use Rattle.model.specs.Calls.{answer};
ghost use Rattle.board.specs.Held.{given};

use crate::layout::Layout;
use model::{Counted, Line, Overhead, Overheads, Refusal, Slot};

// How many of each a board can have. The tables of queues and the monitors have these numbers too, each in a type of its own: one
// constant would be cast at most of its places.
const MOST_PARTITIONS: u8 = 8;

pub const MOST_SLOTS: usize = 16;

pub const MOST_LINES: usize = 16;

// The first check that fails of a whole board: counts, slots, lines, overheads.
pub fn check(layout: Layout) -> Result<(), Refusal>
    ensures { result ≡ answer (fault (given layout.entry)) }
{
    check_counts(layout.partitions, layout.slots.len(), layout.lines.len())?;
    check_each(layout.partitions, layout.slots)?;
    check_each(layout.partitions, layout.lines)?;
    check_overheads(layout.overheads)
}

fn check_counts(partitions: u8, slots: usize, lines: usize) -> Result<(), Refusal>
    ensures { result ≡ answer (count_fault partitions slots lines) }
{
    if !(1..=MOST_PARTITIONS).contains(&partitions) {
        return Err(Refusal::Count(Counted::Partitions));
    }
    if !(1..=MOST_SLOTS).contains(&slots) {
        return Err(Refusal::Count(Counted::Slots));
    }
    if lines > MOST_LINES {
        return Err(Refusal::Count(Counted::Lines));
    }
    Ok(())
}

// What a board lists: which items fit a board of so many partitions, and what refuses the one at a place.
trait Listed {
    ghost fits: { ℕ → Self → Bool };

    ghost named: { ℕ → Refusal };

    fn fits(&self, partitions: u8) -> bool
        ensures { result ≡ fits partitions self.now };

    fn refusal(place: u32) -> Refusal
        ensures { result ≡ named place };
}

impl Listed for Slot {
    ghost fits = { slot_fits };

    ghost named = { SlotRange };

    fn fits(&self, partitions: u8) -> bool {
        self.owner < partitions && (1..=1_000_000).contains(&self.ticks)
    }

    fn refusal(place: u32) -> Refusal {
        Refusal::SlotRange(place)
    }
}

impl Listed for Line {
    ghost fits = { line_fits };

    ghost named = { LineRange };

    fn fits(&self, partitions: u8) -> bool {
        self.owner < partitions
            && (1..=1000).contains(&self.top)
            && (1..=10_000).contains(&self.handler)
    }

    fn refusal(place: u32) -> Refusal {
        Refusal::LineRange(place)
    }
}

// The refusal of the first item that does not fit, if any. It is the place that is the error here, which no method of Option says.
fn check_each<T: Listed>(partitions: u8, items: &[T]) -> Result<(), Refusal>
    requires { length items.now ≤ 16 }
    ensures { result ≡ answer (first_fault (T.fits partitions) T.named 0 items.now) }
{
    match items.iter().position(|item| !item.fits(partitions)) {
        Some(i) => Err(T::refusal(i as u32)),
        None => Ok(()),
    }
}

fn check_overheads(overheads: Overheads) -> Result<(), Refusal>
    ensures { result ≡ answer (overhead_fault overheads) }
{
    check_overhead(Overhead::Check, overheads.check)?;
    check_overhead(Overhead::Reschedule, overheads.reschedule)?;
    check_overhead(Overhead::Switch, overheads.switch)
}

fn check_overhead(overhead: Overhead, ticks: u16) -> Result<(), Refusal>
    ensures { result ≡ answer (unless (nat_le ticks 1000) (OverheadRange overhead)) }
{
    if ticks > 1000 {
        return Err(Refusal::OverheadRange(overhead));
    }
    Ok(())
}
