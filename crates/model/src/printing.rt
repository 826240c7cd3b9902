// The text of plain data: a letter or a word, and numbers in decimal, parted by single spaces.
ghost use Rattle.std.specs.Prelude.{Some};
ghost use Rattle.model.specs.Texts.{letter_text, span_shown, finished_shown, refusal_text};

use crate::refusal::Refusal;
use crate::run::{Finished, Kind, Span};
use std::error::Error;
use std::fmt;

impl fmt::Display for Kind {
    ghost output = { λ k. Some (letter_text k) };

    fn fmt<W: fmt::Write>(&self, f: &mut fmt::Formatter<W>) -> fmt::Result {
        f.write_str(match self {
            Kind::Top => "T",
            Kind::Switch => "X",
            Kind::Interposed => "I",
            Kind::Bottom => "B",
            Kind::Application => "A",
        })
    }
}

impl fmt::Display for Span {
    ghost output = { λ s. Some (span_shown s) };

    fn fmt<W: fmt::Write>(&self, f: &mut fmt::Formatter<W>) -> fmt::Result {
        let Span {
            first,
            ticks,
            kind,
            who,
            owner,
        } = *self;
        write!(f, "S {first} {ticks} {kind} {who} {owner}")
    }
}

impl fmt::Display for Finished {
    ghost output = { λ e. Some (finished_shown e) };

    fn fmt<W: fmt::Write>(&self, f: &mut fmt::Formatter<W>) -> fmt::Result {
        let Finished {
            tag,
            line,
            raised,
            at,
        } = *self;
        write!(f, "D {tag} {line} {raised} {at}")
    }
}

impl fmt::Display for Refusal {
    ghost output = { λ r. Some (refusal_text r) };

    fn fmt<W: fmt::Write>(&self, f: &mut fmt::Formatter<W>) -> fmt::Result {
        let number = self.number();
        let place = self.place();
        write!(f, "number {number}, place {place}")
    }
}

impl Error for Refusal {}
