// Reading a line: a letter, and as many numbers as the letter wants.
ghost use Rattle.std.specs.Prelude.{◌≡◌};
ghost use Rattle.sheet.specs.Firsts.{later_of};
ghost use Rattle.sheet.specs.Pieces.{part_at};
ghost use Rattle.sheet.specs.Reading.{read_line};
ghost use Rattle.sheet.specs.Words.{words_left, no_more, required, exactly_one, exactly_two, seen_one, seen_two};

use crate::command::Command;
use crate::fault::Fault;
use crate::piece::Piece;
use crate::words::{Word, Words};

// Taking words: how many a line has to have.
impl<'a> Words<'a> {
    // The next word, or the fault with its byte: in the form that the project asks for.
    fn required(&mut self) -> Result<Word<'a>, Fault>
        ensures word { seen_one result ≡ required self.old.end (words_left self.old) }
        ensures left { words_left self.new ≡ later_of (words_left self.old) }
        ensures end { self.new.end ≡ self.old.end }
    {
        let Some(word) = self.next() else {
            return Err(Fault::Form(self.end));
        };
        Ok(word)
    }

    // A word too many is told at its place. It is the word that is the error here, which no method of Option says.
    fn no_more(&mut self) -> Result<(), Fault>
        ensures { result ≡ no_more (words_left self.old) }
    {
        match self.next() {
            Some(extra) => Err(Fault::Form(extra.place())),
            None => Ok(()),
        }
    }

    // The one word that is left.
    fn one(&mut self) -> Result<Word<'a>, Fault>
        ensures { seen_one result ≡ exactly_one self.old.end (words_left self.old) }
    {
        let word = self.required()?;
        self.no_more()?;
        Ok(word)
    }

    // The two words that are left. One function for any count would answer an array of words, and an array that holds
    // references and has a const parameter for its length gets no proof.
    fn two(&mut self) -> Result<(Word<'a>, Word<'a>), Fault>
        ensures { seen_two result ≡ exactly_two self.old.end (words_left self.old) }
    {
        let first = self.required()?;
        Ok((first, self.one()?))
    }
}

// The form of a line is looked at before its numbers, and these from left to right.
pub(crate) fn read_line(line: Piece) -> Result<Command, Fault>
    ensures { result ≡ read_line (part_at line.entry) }
{
    let mut words = Words::new(line);
    let first = words.required()?;
    let letter = first.letter().ok_or(Fault::Form(first.place()))?;
    match letter {
        b'R' => {
            let (line, tag) = words.two()?;
            Ok(Command::Raise {
                line: line.try_into()?,
                tag: tag.try_into()?,
            })
        }
        b'W' => {
            let (word, tag) = words.two()?;
            Ok(Command::Strobe {
                word: word.try_into()?,
                tag: tag.try_into()?,
            })
        }
        b'M' => Ok(Command::SetMask {
            word: words.one()?.try_into()?,
        }),
        b'A' => Ok(Command::Advance {
            ticks: words.one()?.try_into()?,
        }),
        _ => Err(Fault::Form(first.place())),
    }
}
