// Reading a sheet, one line after the other.
ghost use Rattle.std.specs.Prelude.{◌≡◌, ◌+◌, ◌<◌, is_some, if◌then◌else◌, MatchOption, ⊤};
ghost use Rattle.std.specs.Iterator.{MakesProgress, YieldsFirst, item_count};
ghost use Rattle.sheet.specs.Cursor.{left_of, bytes_left};
ghost use Rattle.sheet.specs.Reading.{read_sheet};
ghost use Rattle.sheet.specs.Firsts.{first_of, later_of};

use super::Sheet;
use crate::command::Command;
use crate::fault::Fault;
use crate::line::read_line;
use crate::piece::Piece;

impl<'a> Sheet<'a> {
    pub fn new(bytes: &'a [u8]) -> Sheet<'a>
        ensures left { left_of result ≡ read_sheet bytes.now }
        ensures number { result.number ≡ 0 }
    {
        Sheet {
            rest: Piece { place: 0, bytes },
            number: 0,
        }
    }

    // The number of the line read last, from 1; 0 before the first.
    pub fn number(&self) -> usize
        ensures { result ≡ self.now.number }
    {
        self.number
    }
}

// The readings of the lines.
impl<'a> Iterator for Sheet<'a> {
    type Item = Result<Command, Fault>;

    ghost next_gives = { YieldsFirst left_of };

    ghost remaining = { item_count left_of };

    fn next(&mut self) -> Option<Result<Command, Fault>>
        ensures steps { YieldsFirst left_of self.old result self.new }
        ensures goes { MakesProgress (λ _. ⊤) (item_count left_of) self.old result self.new }
        ensures line { result ≡ first_of (left_of self.old) }
        ensures left { left_of self.new ≡ later_of (left_of self.old) }
        ensures number { self.new.number ≡ (if is_some result then self.old.number + 1 else self.old.number) }
        ensures shorter { MatchOption result (bytes_left self.new ≡ bytes_left self.old) (λ _. bytes_left self.new < bytes_left self.old) }
    {
        if self.rest.bytes.is_empty() {
            return None;
        }
        let (line, rest) = self.rest.cut(b'\n');
        *self = Sheet {
            rest: rest.unwrap_or(line.end()),
            number: self.number + 1,
        };
        Some(read_line(line))
    }
}
