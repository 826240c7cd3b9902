// Board K, the example board: two partitions, two slots, two lines, with a monitor and an arrival curve for each line.
#![tactic(auto)]

ghost use Rattle.std.specs.Prelude.{◌≡◌};
ghost use Rattle.board.specs.Held.{held};
ghost use Rattle.curve.specs.Sporadic.{sporadic_of, spaced};
ghost use Rattle.distance.specs.Distance.{distance_new};
ghost use Rattle.distance.specs.View.{distance_state};
ghost use Rattle.example.specs.BoardK.{board_k};

use board::{Board, Layout};
use curve::Sporadic;
use distance::Distance;
use model::{Line, Overheads, Slot};
use monitor::Pair;

pub fn board_k() -> Board
    ensures { held result ≡ board_k }
{
    let layout = Layout {
        partitions: 2,
        slots: &[Slot::new(0, 10), Slot::new(1, 6)],
        lines: &[Line::new(1, 2, 3), Line::new(0, 1, 4)],
        overheads: Overheads::new(1, 1, 2),
    };
    Board::of(layout).unwrap()
}

// The monitors of its two lines.
pub fn monitors_k() -> Pair<Distance, Distance>
    ensures first { distance_state result.first ≡ distance_new 100 }
    ensures second { distance_state result.second ≡ distance_new 200 }
{
    Pair::new(Distance::of(100).unwrap(), Distance::of(200).unwrap())
}

// The arrival curves of its two lines.
pub fn curves_k() -> Pair<Sporadic, Sporadic>
    ensures first { sporadic_of result.first ≡ spaced 100 }
    ensures second { sporadic_of result.second ≡ spaced 200 }
{
    Pair::new(Sporadic::of(100).unwrap(), Sporadic::of(200).unwrap())
}
