// The words of a text as tokens for the grammar, with both rules of look-ahead applied.
#![tactic(auto)]

mod marking;
mod raw;
pub mod text;
pub mod whole;
