// Cutting a piece at a byte, and its end.
ghost use Rattle.std.specs.Prelude.{◌≡◌, ◌+◌, [], length};
ghost use Rattle.sheet.specs.Reading.{part};
ghost use Rattle.sheet.specs.Scan.{found, first_part, rest_part};
ghost use Rattle.sheet.specs.Pieces.{part_at, rest_at};

use super::Piece;

impl<'a> Piece<'a> {
    // Nothing, behind the piece.
    pub(crate) fn end(self) -> Piece<'a>
        ensures { part_at result ≡ part (self.entry.place + length self.entry.bytes.now) [] }
    {
        let length = self.bytes.len();
        Piece {
            place: self.place + length,
            bytes: &self.bytes[length..],
        }
    }

    // Where the first byte is that is `stop`.
    fn find(self, stop: u8) -> Option<usize>
        ensures { result ≡ found stop self.entry.bytes.now }
    {
        self.bytes.iter().position(|byte| *byte == stop)
    }

    // What comes before the first `stop`, and what comes behind it; all of the piece and nothing where there is none.
    pub(crate) fn cut(self, stop: u8) -> (Piece<'a>, Option<Piece<'a>>)
        ensures first { part_at result.0 ≡ first_part stop (part_at self.entry) }
        ensures rest { rest_at result.1 ≡ rest_part stop (part_at self.entry) }
    {
        match self.find(stop) {
            Some(length) => (
                Piece {
                    place: self.place,
                    bytes: &self.bytes[..length],
                },
                Some(Piece {
                    place: self.place + length + 1,
                    bytes: &self.bytes[length + 1..],
                }),
            ),
            None => (self, None),
        }
    }
}
