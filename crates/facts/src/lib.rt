// Facts, their values, and what the machine's stack and history hold.
#![tactic(auto)]

pub mod binding;
pub mod ending;
pub mod entry;
pub mod fact;
pub mod value;
