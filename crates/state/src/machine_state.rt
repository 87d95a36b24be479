// The state of the machine.
mod changes;
mod moves;

use crate::contents::Cells;
use crate::history::History;
use crate::stack::Stack;
use crate::store::Store;

// Execution stack, store, contents of the cells and propagation history.
#[derive(Drop)]
pub struct State {
    pub stack: Stack,
    pub store: Store,
    pub cells: Cells,
    pub history: History,
}
