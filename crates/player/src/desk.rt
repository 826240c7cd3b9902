// What lines are played on: a core, the mask, and the ticks of the latest A that are still to run. They are a count, to which
// a remainder is written at each turn: an Option of a NonZero would say the same with one conversion more.
ghost use Rattle.std.specs.Prelude.{◌^◌, ◌<◌};

use monitor::Monitor;
use scheduler::{Core, Mask};

mod calls;

#[derive(Drop)]
pub struct Desk<M: Monitor> {
    core: Core<M>,
    mask: Mask,
    owing: u32,
    ghost word: { owing < 2 ^ 32 },
}
