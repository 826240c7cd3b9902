// A theorem upon the definitions, on the contract of a function, so that it cannot stay unproved.
ghost use Rattle.std.specs.Prelude.{◌≡◌};
ghost use Rattle.player.specs.Once.{OneTurn};

// A turn has one answer.
pub fn turns_have_one_answer<S>() -> u8
    ensures value { result ≡ 0 }
    ensures stands { OneTurn S }
{
    0
}
