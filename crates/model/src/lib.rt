// The plain data of the receiver's scheduling core, and in specs/ the definitions that every contract cites.
#![tactic(auto)]

mod board;
mod printing;
mod refusal;
mod run;
mod stands;

pub use board::{Line, Overheads, Slot};
pub use refusal::{Counted, Overhead, Refusal};
pub use run::{Answer, Event, Finished, Kind, Ran, Row, Span};
pub use stands::{
    calls_have_one_answer, laws_stand, ranges_are_checked, replacing_has_one_outcome,
};
