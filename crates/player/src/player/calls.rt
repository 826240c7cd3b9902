// Playing a sheet turn by turn, and to its end.
ghost use Rattle.std.specs.Prelude.{◌≡◌, ◌<◌, true, List, is_some, is_ok};
ghost use Rattle.model.specs.Run.{Call};
ghost use Rattle.scheduler.specs.Seen.{core_of};
ghost use Rattle.sheet.specs.Reading.{read_sheet};
ghost use Rattle.player.specs.Playing.{at_start, reply_on, Turned};
ghost use Rattle.player.specs.Players.{player_place, effort};
ghost use Rattle.player.specs.Sessions.{Played};
ghost use Rattle.monitor.specs.Meanings.{meaning};

use super::Player;
use crate::desk::Desk;
use monitor::Monitor;
use replies::{Output, Reply, Unwritten};
use scheduler::Core;
use sheet::{Fault, Sheet};

// The reply on a line of the sheet: what was done, or why the line was refused.
fn on_line(line: usize, done: Result<Reply, Fault>) -> Reply
    ensures { result ≡ reply_on line done }
{
    done.unwrap_or_else(|fault| Reply::Refused { line, fault })
}

impl<'a, M: Monitor> Player<'a, M> {
    // At the sheet's start, with a new mask.
    pub fn new(core: Core<M>, sheet: &'a [u8]) -> Player<'a, M>
        ensures { player_place result ≡ at_start (core_of core) (read_sheet sheet.now) }
    {
        Player {
            desk: Desk::new(core),
            sheet: Sheet::new(sheet),
        }
    }

    // One turn: the reply to the next line, or the next part of an A that is not run to its end. None where all is played.
    // It is no Iterator's `next`: an Iterator can be dropped, which nothing asks of a player's monitor.
    pub fn turn(&mut self) -> Option<Reply>
        ensures turned { (calls : List Call) × Turned (meaning M.Monitor) (player_place self.old) result calls (player_place self.new) }
        ensures less { is_some result ≡ true → effort self.new < effort self.old }
    {
        let done = match self.desk.owing() {
            0 => self.desk.obey(self.sheet.next()?),
            ticks => self.desk.run(ticks),
        };
        Some(on_line(self.sheet.number(), done))
    }

    // Plays on to the sheet's end, and tells each reply to the output. It stops where the output fails.
    pub fn play<O: Output>(&mut self, out: &mut O) -> Result<(), Unwritten>
        ensures { Played (meaning M.Monitor) O.Output.took O.Output.failed (player_place self.old) out.old (is_ok result) (player_place self.new) out.new }
    {
        while let Some(reply) = self.turn() {
            out.tell(&reply)?;
        }
        Ok(())
    }
}
