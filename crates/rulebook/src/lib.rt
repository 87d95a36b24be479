// A rule book as the machine runs it.
#![tactic(auto)]

pub mod rows;
pub mod settled;
