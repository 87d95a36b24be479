// What the machine changes in a state besides its stack.
use facts::entry::Firing;
use facts::fact::Stored;
use parse::number::Cell;

// One change, with all that redoing and undoing it takes.
#[derive(Clone, Copy, Debug, PartialEq, Eq)]
pub enum Change {
    // A fact entered the store.
    Added(Stored),
    // A fact left the store.
    Removed(Stored),
    // A rule fired, and the history has it.
    Fired(Firing),
    // A cell's content gave way to another.
    Altered { cell: Cell, old: u64, new: u64 },
}
