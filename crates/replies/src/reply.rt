// A player's reply to a line of a sheet.
ghost use Rattle.std.specs.Prelude.{◌≡◌, ℕ, List, take, Some};
ghost use Rattle.std.specs.Fmt.{WritesOnOk};
ghost use Rattle.replies.specs.Texts.{line_text, lines_text};
ghost use Rattle.replies.specs.Replies.{answer_reply, strips_text, reply_text};

use crate::lines::LineOf;
use model::{Answer, Finished, Ran, Span};
use sheet::Fault;
use std::fmt;

// The places of each buffer that a player advances with.
pub const PLACES: usize = 64;

// What one advance wrote: both buffers, and how much of each. An advance writes whole buffers in place, and a reply is Copy,
// so a vector of a fixed capacity would be filled by copying, and could not be copied.
#[derive(Clone, Copy, PartialEq, Eq, Debug)]
pub struct Strips {
    pub spans: [Span; PLACES],
    pub finished: [Finished; PLACES],
    pub ran: Ran,
}

// The spans that were written, then the finished events, one to a line.
impl fmt::Display for Strips {
    ghost output = { λ s. Some (strips_text s) };

    fn fmt<W: fmt::Write>(&self, f: &mut fmt::Formatter<W>) -> fmt::Result {
        write_lines(f, front(&self.spans, self.ran.spans))?;
        write_lines(f, front(&self.finished, self.ran.finished))
    }
}

#[derive(Clone, Copy, PartialEq, Eq, Debug)]
pub enum Reply {
    // raised, with a grant
    Permitted,
    // raised, without
    Queued,
    // strobed: the lines taken and the lines permitted
    Strobed { taken: u16, permitted: u16 },
    // the mask was replaced
    Masked,
    // ticks were run by one advance
    Advanced(Strips),
    // this line of the sheet was refused
    Refused { line: usize, fault: Fault },
}

// The reply to a raise that is not refused. An answer has no text of its own: a reply has a letter for it, a program words.
impl From<Answer> for Reply {
    ghost from_gives = { λ a r. r ≡ answer_reply a };

    fn from(answer: Answer) -> Reply {
        match answer {
            Answer::Permitted => Reply::Permitted,
            Answer::Queued => Reply::Queued,
        }
    }
}

impl fmt::Display for Reply {
    ghost output = { λ r. Some (reply_text r) };

    fn fmt<W: fmt::Write>(&self, f: &mut fmt::Formatter<W>) -> fmt::Result {
        match self {
            Reply::Permitted => writeln!(f, "P"),
            Reply::Queued => writeln!(f, "Q"),
            Reply::Strobed { taken, permitted } => writeln!(f, "W {taken} {permitted}"),
            Reply::Masked => writeln!(f, "M"),
            Reply::Advanced(strips) => write!(f, "{strips}"),
            Reply::Refused { line, fault } => {
                let number = fault.number();
                let place = fault.place();
                writeln!(f, "F {line} {number} {place}")
            }
        }
    }
}

// The first `count` places of a buffer, or all that it has.
fn front<T>(buffer: &[T], count: usize) -> &[T]
    ensures { result.now ≡ take count buffer.now }
{
    &buffer[..count.min(buffer.len())]
}

// Elements, one to a line.
fn write_lines<T: fmt::Display + Copy, W: fmt::Write>(
    f: &mut fmt::Formatter<W>,
    elements: &[T],
) -> fmt::Result
    ensures { (line : T → List ℕ) → ((x : T) → line_text (T.output x) ≡ Some (line x)) → WritesOnOk W.Write.write_str_gives f.old result (lines_text line elements.now) f.new }
{
    for element in elements {
        let line = LineOf(*element);
        write!(f, "{line}")?;
    }
    Ok(())
}
