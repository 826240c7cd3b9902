// A sheet that is read line by line.
ghost use Rattle.std.specs.Prelude.{◌≤◌};

use crate::piece::Piece;

mod calls;

// What is left of the sheet, with its place also where that is nothing, and how many lines were read.
#[derive(Drop)]
pub struct Sheet<'a> {
    rest: Piece<'a>,
    number: usize,
    ghost counted: { number ≤ rest.place },
}
