// What there is to say of a text that holds a book and perhaps a goal.
#![tactic(auto)]

pub mod lines;
mod named;
pub mod occurrences;
pub mod parting;
pub mod reading;
mod refusal;
mod showing;
#[cfg(test)]
mod tests;
