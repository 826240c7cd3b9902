// Playing one line, and running on.
ghost use Rattle.std.specs.Prelude.{◌≡◌, ℕ, ◌<◌, List, Result as Outcome};
ghost use Rattle.sheet.specs.declared.command.Command.{Command as Order};
ghost use Rattle.sheet.specs.declared.fault.Fault.{Fault as Trouble};
ghost use Rattle.model.specs.Run.{Call};
ghost use Rattle.player.specs.Playing.{reply_on, Obeyed, Advances};
ghost use Rattle.player.specs.Desks.{desk_place};
ghost use Rattle.monitor.specs.Meanings.{meaning};

use super::Desk;
use model::{Finished, Span};
use monitor::Monitor;
use replies::{PLACES, Reply, Strips};
use scheduler::{Core, Mask};
use sheet::{Command, Fault};

impl<M: Monitor> Desk<M> {
    // With a new mask, and nothing to run.
    pub fn new(core: Core<M>) -> Desk<M>
        ensures core { result.core ≡ core }
        ensures mask { result.mask.word ≡ 0 }
        ensures owing { result.owing ≡ 0 }
    {
        Desk {
            core,
            mask: Mask::new(),
            owing: 0,
        }
    }

    // The ticks still to run.
    pub fn owing(&self) -> u32
        ensures { result ≡ self.now.owing }
    {
        self.owing
    }

    // One advance with 64 places of each; what is left of the ticks is still to run, and nothing after a refusal.
    pub fn run(&mut self, ticks: u32) -> Result<Reply, Fault>
        ensures less { 0 < ticks → self.new.owing < ticks }
        ensures advances { (line : ℕ) (rest : List (Outcome Order Trouble)) → (c : Call) × Advances (desk_place self.old line rest) ticks (reply_on line result) c (desk_place self.new line rest) }
    {
        let mut spans = [Span::BLANK; PLACES];
        let mut finished = [Finished::BLANK; PLACES];
        self.owing = 0;
        let ran = self.core.advance(ticks, &mut spans, &mut finished)?;
        self.owing = ticks - ran.ticks;
        Ok(Reply::Advanced(Strips {
            spans,
            finished,
            ran,
        }))
    }

    // Plays what a line of the sheet reads as. A line that is refused changes nothing.
    pub fn obey(&mut self, read: Result<Command, Fault>) -> Result<Reply, Fault>
        ensures { (line : ℕ) (rest : List (Outcome Order Trouble)) → (calls : List Call) × Obeyed (meaning M.Monitor) read (desk_place self.old line rest) (reply_on line result) calls (desk_place self.new line rest) }
    {
        match read? {
            Command::Raise { line, tag } => {
                let answer = self.core.raise(&self.mask, line, tag)?;
                Ok(Reply::from(answer))
            }
            Command::Strobe { word, tag } => {
                let (taken, permitted) = self.core.strobe(&self.mask, word, tag);
                Ok(Reply::Strobed { taken, permitted })
            }
            Command::SetMask { word } => {
                self.mask.set(word);
                Ok(Reply::Masked)
            }
            Command::Advance { ticks } => self.run(ticks),
        }
    }
}
