// Anything that prints, as a line of its own.
ghost use Rattle.replies.specs.Texts.{line_text};

use std::fmt;

#[derive(Clone, Copy, PartialEq, Eq, Debug)]
pub struct LineOf<T>(pub T);

impl<T: fmt::Display> fmt::Display for LineOf<T> {
    ghost output = { λ l. line_text (T.output l.0) };

    fn fmt<W: fmt::Write>(&self, f: &mut fmt::Formatter<W>) -> fmt::Result {
        let LineOf(shown) = self;
        writeln!(f, "{shown}")
    }
}
