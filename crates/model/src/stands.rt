// Theorems upon the definitions, each on the contract of a function, so that none can stay unproved.
ghost use Rattle.std.specs.Prelude.{◌≡◌};
ghost use Rattle.model.specs.Board.{RangesChecked};
ghost use Rattle.model.specs.Calls.{ReplacedOnce};
ghost use Rattle.model.specs.Laws.{LawsStand};
ghost use Rattle.model.specs.Once.{OneAnswer};

// The checks of a board refuse exactly what is out of range.
pub fn ranges_are_checked() -> u8
    ensures value { result ≡ 0 }
    ensures stands { RangesChecked }
{
    0
}

// A filling or setting call has one outcome.
pub fn replacing_has_one_outcome<M, S>() -> u8
    ensures value { result ≡ 0 }
    ensures stands { (view : M → S) → ReplacedOnce view }
{
    0
}

// Over every run, for every board in range and every monitor with the laws: loss, response and promptness.
pub fn laws_stand<S>() -> u8
    ensures value { result ≡ 0 }
    ensures stands { LawsStand S }
{
    0
}

// Raise, strobe and advance have one answer each.
pub fn calls_have_one_answer<S>() -> u8
    ensures value { result ≡ 0 }
    ensures stands { OneAnswer S }
{
    0
}
