// Firings enter the history and leave it.
ghost use Rattle.std.specs.Prelude.{◌≡◌, [], map, length, IfOk};
ghost use Rattle.facts.specs.Views.{firing};
ghost use Rattle.state.specs.Lists.{all_but_last};
ghost use Rattle.state.specs.Histories.{firings_of, with_firing};

use super::History;
use bounded::Bounded;
use facts::entry::Firing;
use std::alloc::{AllocError, Global};

impl History {
    // An empty history, with all its room.
    pub fn new(heap: Global) -> Result<History, AllocError>
        ensures { IfOk result (λ h. firings_of h ≡ []) }
    {
        let list = Bounded::new(heap)?;
        Ok(History { list })
    }

    // The firings, in their order.
    pub fn list(&self) -> &[Firing]
        ensures { map firing result.now ≡ firings_of self.now }
    {
        self.list.as_slice()
    }

    // How many firings there are.
    pub fn len(&self) -> usize
        ensures { result ≡ length (firings_of self.now) }
    {
        self.list.len()
    }

    // Nothing has fired any more.
    pub fn clear(&mut self)
        ensures { firings_of self.new ≡ [] }
    {
        self.list.clear();
    }

    // A firing goes behind the others, unless 256 are there.
    pub fn record(&mut self, fired: Firing)
        ensures { firings_of self.new ≡ with_firing (firing fired) (firings_of self.old) }
    {
        let _ = self.list.push(fired);
    }

    // The last firing goes, if there is one.
    pub fn forget(&mut self)
        ensures { firings_of self.new ≡ all_but_last (firings_of self.old) }
    {
        let _ = self.list.pop();
    }
}
