// Strobing: the lines of a word raised in turn, lowest first.
ghost use Rattle.std.specs.Prelude.{◌≡◌, ◌^◌, ◌<◌};
ghost use Rattle.model.specs.Core.{Strobed};
ghost use Rattle.scheduler.specs.Seen.{core_of};
ghost use Rattle.scheduler.specs.Spending.{SpentOnce};
ghost use Rattle.scheduler.specs.Words.{noting};
ghost use Rattle.monitor.specs.Meanings.{meaning};

use super::Core;
use crate::mask::Mask;
use model::{Answer, Refusal};
use monitor::Monitor;

// The words of lines taken and lines permitted, with a line noted by what raising it answered. A strobe is to answer two words, so
// they are a pair throughout.
fn noted(words: (u16, u16), line: u32, answer: Result<Answer, Refusal>) -> (u16, u16)
    requires { line < 16 }
    ensures { words.0 < 2 ^ line → words.1 < 2 ^ line → result ≡ noting line answer words }
{
    let (taken, permitted) = words;
    let bit = 1u16 << line;
    match answer {
        Ok(Answer::Permitted) => (taken | bit, permitted | bit),
        Ok(Answer::Queued) => (taken | bit, permitted),
        Err(_) => words,
    }
}

impl<M: Monitor> Core<M> {
    // Raises the lines whose bits are set in a word, lowest line first. Answers the lines taken and the lines permitted; a line
    // that is refused is in neither.
    pub fn strobe(&mut self, mask: &Mask, word: u16, tag: u32) -> (u16, u16)
        ensures strobed { Strobed (meaning M.Monitor) (core_of self.old) mask.now.word word tag result (core_of self.new) }
        ensures once { SpentOnce M.Monitor.spent self.old.monitor result.1 (core_of self.old).state.instant self.new.monitor }
    {
        let mut words = (0, 0);
        // over the bits of a word, and no index: the lowest one left is the next line
        let mut rest = word;
        while rest != 0 {
            let line = rest.trailing_zeros();
            let answer = self.raise(mask, line, tag);
            words = noted(words, line, answer);
            rest -= 1u16 << line;
        }
        words
    }
}
