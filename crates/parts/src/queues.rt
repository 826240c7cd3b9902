// A queue of events for each partition.
ghost use Rattle.std.specs.Prelude.{◌≡◌, ◌≤◌, length, nat_lt};
ghost use Rattle.parts.specs.Pending.{held_by};

use crate::queue::Queue;

mod calls;

// The most partitions that a board has, as the length of a table.
const PARTITIONS: usize = 8;

#[derive(Clone, Copy, Debug)]
pub struct Queues {
    all: [Queue; PARTITIONS],
}

// Whether a partition is one of those that have a queue. Events are put and served behind this test: through `get_mut` the check
// follows no write into a table.
fn has_queue(all: &[Queue], partition: u8) -> bool
    ensures { result ≡ nat_lt partition (length all.now) }
{
    usize::from(partition) < all.len()
}

// The events of some queues together.
fn sum_of(all: &[Queue]) -> usize
    requires { length all.now ≤ 8 }
    ensures { result ≡ held_by all.now }
{
    all.iter().map(|queue| queue.len()).sum()
}
