// What the programs share: why one ends early, and how it tells that.
#![tactic(auto)]

mod outcome;
mod trouble;

pub use outcome::exit_code;
pub use trouble::Trouble;
