// What can go wrong, told to a person.
ghost use Rattle.std.specs.Prelude.{◌≡◌};
ghost use Rattle.report.specs.declared.trouble.Trouble.TheVariants.{Refused, Output};
ghost use Rattle.report.specs.Told.{told};

use model::Refusal;
use std::error::Error;
use std::{fmt, io};

// A call was refused, which `E` tells, or the output was not printed.
#[derive(Debug, Drop)]
pub enum Trouble<E> {
    Refused(E),
    Output(io::Error),
}

impl<E: From<Refusal>> From<Refusal> for Trouble<E> {
    ghost from_gives = { λ r t. (e : E) × (t ≡ Refused e) × E.from_gives r e };

    fn from(refusal: Refusal) -> Trouble<E> {
        Trouble::Refused(E::from(refusal))
    }
}

impl<E> From<io::Error> for Trouble<E> {
    ghost from_gives = { λ e t. t ≡ Output e };

    fn from(error: io::Error) -> Trouble<E> {
        Trouble::Output(error)
    }
}

impl<E: fmt::Display> fmt::Display for Trouble<E> {
    ghost output = { told E.output };

    fn fmt<W: fmt::Write>(&self, f: &mut fmt::Formatter<W>) -> fmt::Result {
        match self {
            Trouble::Refused(refusal) => write!(f, "refused: {refusal}"),
            Trouble::Output(error) => write!(f, "not printed: {error}"),
        }
    }
}

impl<E: fmt::Debug + fmt::Display + Drop> Error for Trouble<E> {}
