// What changes as a core runs, beside its board: the instant, the work owed, the grant and the queues.
ghost use Rattle.std.specs.Prelude.{◌*◌, ◌≤◌};
ghost use Rattle.parts.specs.Waiting.{held_in};

use board::Board;
use parts::{Grant, Queues};

mod bursts;
mod taking;

// While work is owed no event leaves, and each brought at most 2000 ticks of it. Five calls that change the tables promise that the
// board stays: handed to them beside the tables, it would be one argument more in eight calls, which is no plainer. Those that run
// ticks ask that these end by the clock's end, which ties an argument to the instant, so that no type of either can say it.
#[derive(Drop)]
pub struct Tables {
    board: Board,
    instant: u32,
    owed: u32,
    grant: Grant,
    queues: Queues,
    ghost clock: { instant ≤ 4000000000 },
    ghost small: { owed ≤ 2000 * held_in queues },
    ghost few: { held_in queues ≤ 256 },
}
