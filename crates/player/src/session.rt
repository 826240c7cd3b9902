// A whole sheet played on a new core.
ghost use Rattle.std.specs.Prelude.{is_ok};
ghost use Rattle.board.specs.Held.{held};
ghost use Rattle.player.specs.Sessions.{Session};
ghost use Rattle.monitor.specs.Meanings.{meaning};

use crate::player::Player;
use board::Board;
use monitor::Monitor;
use replies::{Output, Unwritten};
use scheduler::Core;

// Plays a sheet from a new core, and tells each reply to the output. What was done is a run of that core, so the three laws
// hold of it, to the sheet's end or to the reply at which the output failed.
pub fn play_sheet<M: Monitor + Drop, O: Output>(
    board: Board,
    monitor: M,
    sheet: &[u8],
    out: &mut O,
) -> Result<(), Unwritten>
    ensures { Session (meaning M.Monitor) O.Output.took O.Output.failed (held board) monitor sheet.now out.old (is_ok result) out.new }
{
    let mut player = Player::new(Core::new(board, monitor), sheet);
    player.play(out)
}
