// A list of limited length, with all its room from the start.
#![tactic(auto)]

mod list;

pub use list::Bounded;
