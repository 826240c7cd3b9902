// The scheduler: a core with a board and a monitor, on which events are raised and ticks are run.
#![tactic(auto)]

mod kernel;
mod mask;
mod slots;
mod strip;
mod tables;

pub use kernel::Core;
pub use mask::Mask;
