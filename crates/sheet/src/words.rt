// The words of a line, one after the other.

use crate::piece::Piece;

mod calls;

// A word with the place of its first byte, or the place where an empty one stands: an enum of parts of the sheet, as the project
// asks for words.
#[derive(Clone, Copy)]
pub(crate) enum Word<'a> {
    Empty(usize),
    Text(usize, &'a [u8]),
}

// What is left of a line, if anything is: a word follows every space, if only an empty one. A missing word is told at the
// line's end.
#[derive(Drop)]
pub(crate) struct Words<'a> {
    left: Option<Piece<'a>>,
    pub(crate) end: usize,
}
