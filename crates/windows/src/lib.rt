// Windows of ticks, and the ranges of what can be set.
#![tactic(auto)]

ghost use Rattle.std.specs.Prelude.{◌≡◌, ◌≤◌, min};
ghost use Rattle.model.specs.Counting.{up};
ghost use Rattle.model.specs.Limits.{in_range, instants};

// The clock's last instant.
pub const END: u32 = 4_000_000_000;

// The longest distance and period that can be set.
pub const LONGEST: u32 = 1_000_000_000;

// How many instants there are.
const INSTANTS: u64 = END as u64 + 1;

pub fn in_range(low: u32, high: u32, number: u32) -> bool
    ensures { result ≡ in_range low high number }
{
    (low..=high).contains(&number)
}

// A window longer than all instants counts as all of them.
pub fn cut(window: u64) -> u64
    ensures { result ≡ min window instants }
{
    window.min(INSTANTS)
}

// How many lengths a window takes, the last one perhaps in part; none of length 0.
pub fn lengths(window: u64, length: u32) -> u64
    ensures rounded { result ≡ up (min window instants) length }
    ensures within { result ≤ instants }
{
    if length == 0 {
        return 0;
    }
    // rounded up by a sum and one division: the library's `div_ceil` takes half as long again
    let length = u64::from(length);
    (cut(window) + (length - 1)) / length
}
