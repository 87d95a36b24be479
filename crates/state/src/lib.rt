// The state of the machine: execution stack, store, cells and propagation history, each with all its room from the start.
#![tactic(auto)]

pub mod change;
pub mod contents;
pub mod history;
pub mod laws;
pub mod machine_state;
pub mod stack;
pub mod store;
