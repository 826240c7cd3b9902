// The queues by partition: one that no board can have holds nothing and takes nothing.
ghost use Rattle.std.specs.Prelude.{◌≡◌, ℕ, ◌+◌, ◌≤◌, false, ◌&&◌, [], ◌∷◌, ◌++◌, length, if◌then◌else◌, nat_lt};
ghost use Rattle.model.specs.Tick.{put};
ghost use Rattle.parts.specs.Service.{serve};
ghost use Rattle.parts.specs.Waiting.{queue_of, held_in};

use super::{PARTITIONS, Queues, has_queue, sum_of};
use crate::queue::Queue;
use model::Event;

impl Queues {
    pub fn new() -> Queues
        ensures empty { (p : ℕ) → queue_of result p ≡ [] }
        ensures none { held_in result ≡ 0 }
    {
        Queues {
            all: [Queue::new(); PARTITIONS],
        }
    }

    pub fn len(&self, partition: u8) -> usize
        ensures { result ≡ length (queue_of self.now partition) }
    {
        self.all
            .get(usize::from(partition))
            .map_or(0, |queue| queue.len())
    }

    // The events of all queues together.
    pub fn held(&self) -> usize
        ensures sum { result ≡ held_in self.now }
        ensures bound { result ≤ 256 }
    {
        sum_of(&self.all)
    }

    // Puts an event behind the others of a partition's queue, if there is room; the answer is its queue's.
    pub fn push(&mut self, partition: u8, event: Event) -> bool
        ensures answer { result ≡ (nat_lt partition 8 && nat_lt (length (queue_of self.old partition)) 32) }
        ensures after { (p : ℕ) → queue_of self.new p ≡ (if result then put (queue_of self.old) partition (queue_of self.old partition ++ event ∷ []) p else queue_of self.old p) }
        ensures held { held_in self.new ≡ held_in self.old + (if result then 1 else 0) }
        ensures full { result ≡ false → self.new ≡ self.old }
        ensures bound { held_in self.new ≤ 256 }
    {
        if !has_queue(&self.all, partition) {
            return false;
        }
        self.all[usize::from(partition)].push(event)
    }

    // Up to `ticks` ticks of the handler of a partition's head event, as of its queue; a pair, as there.
    pub fn serve(&mut self, partition: u8, ticks: u32, room: bool) -> (u32, Option<Event>)
        ensures outcome { record { ticks = result.0; ended = result.1; rest = queue_of self.new partition } ≡ serve ticks room (queue_of self.old partition) }
        ensures others { (p : ℕ) → queue_of self.new p ≡ put (queue_of self.old) partition (queue_of self.new partition) p }
        ensures held { held_in self.new ≤ held_in self.old }
    {
        if !has_queue(&self.all, partition) {
            return (ticks, None);
        }
        self.all[usize::from(partition)].serve(ticks, room)
    }
}
