// What a sheet's player answers, line by line, and the text of each answer.
#![tactic(auto)]

mod lines;
mod output;
mod page;
mod reply;

pub use lines::LineOf;
pub use output::{Output, Unwritten};
pub use page::Page;
pub use reply::{PLACES, Reply, Strips};
