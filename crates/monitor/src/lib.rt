// What every monitor answers, and monitors made of two others.
#![tactic(auto)]

mod joint;
mod monitor;
mod pair;
mod part;

pub use joint::Joint;
pub use monitor::Monitor;
pub use pair::Pair;
pub use part::{MOST_LINES, Part, part_of};
