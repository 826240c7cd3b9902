// Joining a queue, and running the handler of its head event.
ghost use Rattle.std.specs.Prelude.{◌≡◌, false, [], ◌∷◌, ◌++◌, length, if◌then◌else◌, nat_lt};
ghost use Rattle.parts.specs.Service.{serve};
ghost use Rattle.parts.specs.Pending.{pending};

use super::{CAPACITY, Queue};
use model::Event;

impl Queue {
    pub fn new() -> Queue
        ensures { pending result ≡ [] }
    {
        Queue {
            events: [Event::default(); CAPACITY],
            len: 0,
        }
    }

    pub fn len(&self) -> usize
        ensures { result ≡ length (pending self.now) }
    {
        self.len
    }

    // Puts an event behind the others, if there is room. Whether it was put has one reason, so the answer is no Result.
    pub fn push(&mut self, event: Event) -> bool
        ensures answer { result ≡ nat_lt (length (pending self.old)) 32 }
        ensures after { pending self.new ≡ (if result then pending self.old ++ event ∷ [] else pending self.old) }
        ensures full { result ≡ false → self.new ≡ self.old }
    {
        if self.len == CAPACITY {
            return false;
        }
        self.events[self.len] = event;
        self.len += 1;
        true
    }

    // Up to `ticks` ticks of the head event's handler. Where it ends, its event leaves; with no room
    // for that event, the tick that would end it is not run. The answer is a pair, as of the calls above: a type for both would be a
    // generic one, since it is an Event that ends here and a Finished there.
    pub fn serve(&mut self, ticks: u32, room: bool) -> (u32, Option<Event>)
        ensures { record { ticks = result.0; ended = result.1; rest = pending self.new } ≡ serve ticks room (pending self.old) }
    {
        if self.len == 0 {
            return (ticks, None);
        }
        let head = self.events[0];
        let end = u32::from(head.left.max(1));
        if room && ticks >= end {
            self.events.copy_within(1..self.len, 0);
            self.len -= 1;
            return (end, Some(head));
        }
        let run = ticks.min(end - 1);
        self.events[0].left -= run as u16;
        (run, None)
    }
}
