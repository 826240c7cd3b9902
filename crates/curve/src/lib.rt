// Arrival curves, the most events that each line can raise in a window, and the response-time bounds that follow.
#![tactic(auto)]

mod bounds;
mod curve;
mod jitter;
mod load;
mod pair;
mod sporadic;

pub use bounds::{bound, bound_has_one_answer};
pub use curve::Curve;
pub use jitter::Jitter;
pub use sporadic::Sporadic;
