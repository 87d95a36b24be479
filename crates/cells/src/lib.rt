// Cells: what a content is, what may be told and asked of it, and the two kinds of content.
#![tactic(auto)]

pub mod bounds;
pub mod examples;
pub mod kind;
pub mod relations;
pub mod sets;
mod spans;
