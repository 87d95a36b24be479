// Entries go on the stack and leave it.
ghost use Rattle.std.specs.Prelude.{◌≡◌, [], length, IfOk};
ghost use Rattle.facts.specs.Views.{entry};
ghost use Rattle.state.specs.Stacks.{entries, entry_if, first, below, pushed};

use super::Stack;
use bounded::Bounded;
use facts::entry::Entry;
use std::alloc::{AllocError, Global};

impl Stack {
    // An empty stack, with all its room.
    pub fn new(heap: Global) -> Result<Stack, AllocError>
        ensures { IfOk result (λ s. entries s ≡ []) }
    {
        let list = Bounded::new(heap)?;
        Ok(Stack { list })
    }

    // How many entries stand on it.
    pub fn len(&self) -> usize
        ensures { result ≡ length (entries self.now) }
    {
        self.list.len()
    }

    // The top entry.
    pub fn top(&self) -> Option<Entry>
        ensures { entry_if result ≡ first (entries self.now) }
    {
        self.list.last().copied()
    }

    // Nothing stands on it any more.
    pub fn clear(&mut self)
        ensures { entries self.new ≡ [] }
    {
        self.list.clear();
    }

    // The top entry goes, if there is one.
    pub fn pop(&mut self)
        ensures { entries self.new ≡ below (entries self.old) }
    {
        let _ = self.list.pop();
    }

    // An entry goes on top, unless 128 stand there.
    pub fn push(&mut self, top: Entry)
        ensures { entries self.new ≡ pushed (entry top) (entries self.old) }
    {
        let _ = self.list.push(top);
    }
}
