// The worked cases as a theorem, on the contract of a function, so that none can stay unproved.
ghost use Rattle.std.specs.Prelude.{◌≡◌};
ghost use Rattle.cases.specs.Worked.{WorkedCases};

// Board K with its monitors and curves, a budget, a trail and a jitter curve answer as worked out by hand, and events raised on
// board K run as worked out by hand.
pub fn worked_cases_stand() -> u8
    ensures value { result ≡ 0 }
    ensures stands { WorkedCases }
{
    0
}
