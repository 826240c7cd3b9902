// The monitor that gives so many permits in each period.
#![tactic(auto)]

mod budget;

pub use budget::Budget;
