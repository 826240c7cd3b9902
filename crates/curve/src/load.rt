// The demand on one partition of a board.
ghost use Rattle.std.specs.Prelude.{◌≡◌, ◌-◌};
ghost use Rattle.model.specs.Board.{cycle, own};
ghost use Rattle.board.specs.Held.{held};

use board::Board;

mod calls;

// The board, its monitor and curve, and the partition.
#[derive(Drop)]
pub(crate) struct Load<'a, M, C> {
    pub(crate) board: &'a Board,
    pub(crate) monitor: &'a M,
    pub(crate) curve: &'a C,
    pub(crate) partition: u32,
    // how many ticks of each cycle belong to the others
    pub(crate) others: u32,
    ghost away: { others ≡ cycle (held board.now) - own (held board.now) partition },
}
