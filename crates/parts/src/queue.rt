// A queue of events in a table of its own.
ghost use Rattle.std.specs.Prelude.{◌≡◌, ◌≤◌, length};

use model::Event;

mod calls;

// The most events that a queue holds.
pub const CAPACITY: usize = 32;

// Oldest event first; what stands past the count is not part of the queue. It is a table with a count and no vector of the library:
// a queue is Copy, which such a vector is not.
#[derive(Clone, Copy, Debug)]
pub struct Queue {
    events: [Event; CAPACITY],
    len: usize,
    ghost few: { len ≤ 32 },
    ghost whole: { length events ≡ 32 },
}
