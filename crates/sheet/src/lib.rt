// Sheets: calls written as text, one to a line, and how they are read.
#![tactic(auto)]

mod command;
mod cursor;
mod digits;
mod fault;
mod line;
mod piece;
mod stands;
mod words;

pub use command::Command;
pub use cursor::Sheet;
pub use fault::Fault;
pub use stands::sheets_are_read;
