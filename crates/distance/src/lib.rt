// The monitor that keeps a distance between permits.
#![tactic(auto)]

mod after;
mod distance;

pub use after::is_after;
pub use distance::Distance;
