// The execution stack.
mod moves;

use bounded::Bounded;
use facts::entry::Entry;

pub const MOST_ENTRIES: usize = 128;

// At most 128 entries, the top last in the list.
#[derive(Drop)]
pub struct Stack {
    list: Bounded<Entry, MOST_ENTRIES>,
}
