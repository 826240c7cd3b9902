// What the tests start from: two of a kind as a pair, and refusals by their numbers and places.
use model::Refusal;
use monitor::Pair;

// An answer with a refusal by its number and its place, as the tables of the tests have it: they try the numbers too.
pub fn told<T>(answer: Result<T, Refusal>) -> Result<T, (u8, u32)> {
    answer.map_err(|refusal| (refusal.number(), refusal.place()))
}

// Two of a kind, by the setting of each.
pub fn two<T: Drop, F: Fn(u32) -> Result<T, Refusal>>(
    of: &F,
    first: u32,
    second: u32,
) -> Result<Pair<T, T>, Refusal>
    requires { F.IsAlwaysCallable of.now }
{
    Ok(Pair::new(of(first)?, of(second)?))
}
