// The response-time bound of a partition: the least window that holds its own demand.
ghost use Rattle.std.specs.Prelude.{◌≡◌};
ghost use Rattle.board.specs.Held.{held};
ghost use Rattle.curve.specs.Bounds.{BoundFound, BoundFoundOnce};

use crate::curve::Curve;
use crate::load::Load;
use board::Board;
use model::Refusal;
use monitor::Monitor;
use windows::END;

// The bound of a partition, by trying each window that the last one's demand asks for.
pub fn bound<M: Monitor, C: Curve>(
    board: &Board,
    monitor: &M,
    curve: &C,
    partition: u32,
) -> Result<u32, Refusal>
    ensures { BoundFound (held board.now) (M.Monitor.ceiling monitor.now) (C.Curve.most curve.now) partition result }
{
    let load = Load {
        board,
        monitor,
        curve,
        partition,
        others: board.cycle() - board.own(partition)?,
    };
    let mut window = 1;
    while window <= u64::from(END) {
        let needed = load.demand(window);
        if needed <= window {
            return Ok(window as u32);
        }
        window = needed;
    }
    Err(Refusal::NoBound(partition))
}

// A partition has one bound, or none, and never both: a theorem, on the contract of a function, so that it cannot stay unproved.
pub fn bound_has_one_answer() -> u8
    ensures value { result ≡ 0 }
    ensures stands { BoundFoundOnce }
{
    0
}
