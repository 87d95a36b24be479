// Cuts a text of bytes into words.
#![tactic(auto)]

pub mod count;
pub mod faults;
pub mod marks;
pub mod name;
pub mod reader;
mod sorts;
pub mod word;
