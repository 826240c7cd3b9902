// Why a line of a sheet is refused.
ghost use Rattle.std.specs.Prelude.{◌≡◌};
ghost use Rattle.sheet.specs.Faults.{fault_number, fault_place};
ghost use Rattle.sheet.specs.declared.fault.Fault.TheVariants.{Declined};

use model::Refusal;

#[derive(Clone, Copy, PartialEq, Eq, Debug)]
pub enum Fault {
    // a wrong letter or a wrong count of words, at this byte of the sheet
    Form(usize),
    // a word that is no decimal number, or above its width, at this byte of the sheet
    Number(usize),
    // the core's own refusal
    Declined(Refusal),
}

impl Fault {
    // The number by which the reason is known.
    pub fn number(&self) -> u8
        ensures { result ≡ fault_number self.now }
    {
        match self {
            Fault::Form(_) => 11,
            Fault::Number(_) => 12,
            Fault::Declined(refusal) => refusal.number(),
        }
    }

    // The place that it names: a byte of the sheet, or the refusal's own.
    pub fn place(&self) -> usize
        ensures { result ≡ fault_place self.now }
    {
        match self {
            Fault::Form(byte) | Fault::Number(byte) => *byte,
            Fault::Declined(refusal) => refusal.place() as usize,
        }
    }
}

impl From<Refusal> for Fault {
    ghost from_gives = { λ r f. f ≡ Declined r };

    fn from(reason: Refusal) -> Fault {
        Fault::Declined(reason)
    }
}
