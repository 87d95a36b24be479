// Rule books and goals.
#![tactic(auto)]

pub mod claims;
pub mod faults;
pub mod library;
mod mentions;
pub mod predicate;
pub mod reading;
