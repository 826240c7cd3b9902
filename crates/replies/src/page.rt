// Replies written as text to any writer.
ghost use Rattle.std.specs.Prelude.{◌≡◌, false};
ghost use Rattle.std.specs.Fmt.{IsPlainFormatter, HasWritten, formatter_writer};

use crate::output::{Output, Unwritten};
use crate::reply::Reply;
use std::fmt;

// A flag, and no Option or Result: the writer is held, and can be given back, after a failure too. Only contracts read it.
#[derive(Drop)]
pub struct Page<W> {
    text: fmt::Formatter<W>,
    failed: bool,
}

impl<W: fmt::Write> Page<W> {
    pub fn new(out: W) -> Page<W>
        ensures writer { formatter_writer result.text ≡ out }
        ensures plain { IsPlainFormatter result.text }
        ensures fresh { result.failed ≡ false }
    {
        Page {
            text: fmt::Formatter::new(out),
            failed: false,
        }
    }

    // Gives the writer back.
    pub fn into_inner(self) -> W
        ensures { result ≡ formatter_writer self.text }
    {
        self.text.into_inner()
    }
}

impl<W: fmt::Write> Output for Page<W> {
    ghost took = { λ p bytes q. (IsPlainFormatter p.text → HasWritten W.Write.write_str_gives p.text bytes q.text) };

    ghost failed = { λ p. p.failed };

    fn tell(&mut self, reply: &Reply) -> Result<(), Unwritten> {
        let told = self.text.write(reply).map_err(|_| Unwritten);
        self.failed |= told.is_err();
        told
    }
}
