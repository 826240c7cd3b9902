// The worked cases: those of planning and of runs proved upon the definitions, and the ends of every range tried on the calls themselves.
#![tactic(auto)]

mod stands;
#[cfg(test)]
mod tests;

pub use stands::worked_cases_stand;
