// What the scheduler is made of: queues of events, one for each partition, and a grant's step machine.
#![tactic(auto)]

mod grant;
mod phase;
mod queue;
mod queues;

pub use grant::Grant;
pub use phase::Phase;
pub use queue::{CAPACITY, Queue};
pub use queues::Queues;
