// A board with fixed tables: filled as a whole or not at all, and asked what it holds.
#![tactic(auto)]

mod checks;
mod layout;
mod table;

pub use layout::Layout;
pub use table::Board;
