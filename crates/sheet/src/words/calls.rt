// Taking the words of a line, and what a word says.
ghost use Rattle.std.specs.Prelude.{◌≡◌, ◌+◌, ◌≤◌, length, IfOk, ⊤};
ghost use Rattle.std.specs.Iterator.{MakesProgress, YieldsFirstBy, item_count};
ghost use Rattle.sheet.specs.Pieces.{part_at};
ghost use Rattle.sheet.specs.Reading.{limit16, limit32, number, placed, words_of};
ghost use Rattle.sheet.specs.Words.{part_of, words_left, only_byte};

use super::{Word, Words};
use crate::digits::decimal;
use crate::fault::Fault;
use crate::piece::Piece;

impl<'a> From<Piece<'a>> for Word<'a> {
    ghost from_gives = { λ p w. part_of w ≡ part_at p };

    fn from(piece: Piece<'a>) -> Word<'a> {
        if piece.bytes.is_empty() {
            Word::Empty(piece.place)
        } else {
            Word::Text(piece.place, piece.bytes)
        }
    }
}

impl<'a> Word<'a> {
    pub(crate) fn place(self) -> usize
        ensures { result ≡ (part_of self.entry).place }
    {
        match self {
            Word::Empty(place) | Word::Text(place, _) => place,
        }
    }

    // The byte of a word that has one byte.
    pub(crate) fn letter(self) -> Option<u8>
        ensures { result ≡ only_byte (part_of self.entry).bytes }
    {
        match self {
            Word::Text(_, [letter]) => Some(*letter),
            _ => None,
        }
    }

    // The word as a number up to the limit.
    fn number(self, limit: u32) -> Result<u32, Fault>
        ensures value { result ≡ number limit (part_of self.entry) }
        ensures within { IfOk result (λ n. n ≤ limit) }
    {
        match self {
            Word::Empty(place) => Err(Fault::Number(place)),
            Word::Text(place, bytes) => decimal(bytes, limit).ok_or(Fault::Number(place)),
        }
    }
}

impl<'a> TryFrom<Word<'a>> for u16 {
    type Error = Fault;

    ghost try_from_gives = { λ w r. r ≡ number limit16 (part_of w) };

    fn try_from(word: Word<'a>) -> Result<u16, Fault> {
        let value = word.number(u32::from(u16::MAX))?;
        Ok(value as u16)
    }
}

impl<'a> TryFrom<Word<'a>> for u32 {
    type Error = Fault;

    ghost try_from_gives = { λ w r. r ≡ number limit32 (part_of w) };

    fn try_from(word: Word<'a>) -> Result<u32, Fault> {
        word.number(u32::MAX)
    }
}

impl<'a> Words<'a> {
    pub(crate) fn new(line: Piece<'a>) -> Words<'a>
        ensures words { words_left result ≡ placed line.entry.place (words_of line.entry.bytes.now) }
        ensures end { result.end ≡ line.entry.place + length line.entry.bytes.now }
    {
        Words {
            left: Some(line),
            end: line.place + line.bytes.len(),
        }
    }
}

impl<'a> Iterator for Words<'a> {
    type Item = Word<'a>;

    ghost next_gives = { YieldsFirstBy part_of words_left };

    ghost remaining = { item_count words_left };

    fn next(&mut self) -> Option<Word<'a>>
        ensures steps { YieldsFirstBy part_of words_left self.old result self.new }
        ensures goes { MakesProgress (λ _. ⊤) (item_count words_left) self.old result self.new }
        ensures end { self.new.end ≡ self.old.end }
    {
        let (word, rest) = self.left?.cut(b' ');
        self.left = rest;
        Some(Word::from(word))
    }
}
