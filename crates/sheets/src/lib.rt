// Sheets played through the library, with the text that each must give.
#![tactic(auto)]

#[cfg(test)]
mod tests;
