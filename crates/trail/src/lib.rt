// The monitor that keeps a distance to each of its latest permits.
#![tactic(auto)]

mod trail;

pub use trail::Trail;
