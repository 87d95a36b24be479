// Facts enter the store, leave it and come back.
ghost use Rattle.std.specs.Prelude.{◌≡◌, [], ◌∷◌, map, IfOk};
ghost use Rattle.facts.specs.Views.{fact as the-fact, stored};
ghost use Rattle.steps.specs.Step.{without};
ghost use Rattle.state.specs.Lists.{all_but_last};
ghost use Rattle.state.specs.Stores.{facts_of, Place, returned, followed, followed_next, last_or, Added};

use super::Store;
use bounded::Bounded;
use facts::fact::{Fact, Stored};
use facts::value::Value;
use std::alloc::{AllocError, Global};

impl Store {
    // An empty store, with all its room; the next identifier is 1.
    pub fn new(heap: Global) -> Result<Store, AllocError>
        ensures facts { IfOk result (λ s. facts_of s ≡ []) }
        ensures next { IfOk result (λ s. s.next ≡ 1) }
    {
        let list = Bounded::new(heap)?;
        Ok(Store { list, next: 1 })
    }

    // The facts, by rising identifier.
    pub fn list(&self) -> &[Stored]
        ensures { map stored result.now ≡ facts_of self.now }
    {
        self.list.as_slice()
    }

    // The next identifier.
    pub fn next(&self) -> u16
        ensures { result ≡ self.now.next }
    {
        self.next
    }

    // No fact is in the store any more, and the next identifier is 1.
    pub fn clear(&mut self)
        ensures facts { facts_of self.new ≡ [] }
        ensures next { self.new.next ≡ 1 }
    {
        self.list.clear();
        self.next = 1;
    }

    // A fact enters under the next identifier; none does where 128 are, or where no identifier is left to follow.
    pub fn add(&mut self, fact: Fact<Value>) -> Option<Stored>
        ensures { Added (the-fact fact) self.old result self.new }
    {
        if self.next == 65535 {
            return None;
        }
        let added = Stored {
            identifier: self.next,
            fact,
        };
        self.list.push(added).ok()?;
        self.next += 1;
        Some(added)
    }

    // Where the fact of an identifier stands; or, if it is not there, where it would.
    fn place_of(&self, identifier: u16) -> Result<usize, usize>
        ensures { Place identifier (facts_of self.now) result }
    {
        self.list
            .as_slice()
            .binary_search_by_key(&identifier, |fact| fact.identifier)
    }

    // The fact of an identifier leaves, if it is there.
    pub fn remove(&mut self, identifier: u16)
        ensures facts { facts_of self.new ≡ without (identifier ∷ []) (facts_of self.old) }
        ensures next { self.new.next ≡ self.old.next }
    {
        if let Ok(at) = self.place_of(identifier) {
            let _ = self.list.remove(at);
        }
    }

    // A fact that was removed comes back to its place, if its identifier was given out and is not in the store, and there is room.
    pub fn put_back(&mut self, fact: Stored)
        ensures facts { facts_of self.new ≡ returned self.old.next (stored fact) (facts_of self.old) }
        ensures next { self.new.next ≡ self.old.next }
    {
        if fact.identifier == 0 || fact.identifier >= self.next {
            return;
        }
        if let Err(at) = self.place_of(fact.identifier) {
            let _ = self.list.insert(at, fact);
        }
    }

    // The fact added last leaves, and gives its identifier back.
    pub fn take_back(&mut self)
        ensures facts { facts_of self.new ≡ all_but_last (facts_of self.old) }
        ensures next { self.new.next ≡ last_or self.old.next (facts_of self.old) }
    {
        if let Some(last) = self.list.pop() {
            self.next = last.identifier;
        }
    }

    // A fact is added again under its identifier, if that is the next, another can follow, and there is room.
    pub fn add_again(&mut self, fact: Stored)
        ensures facts { facts_of self.new ≡ followed self.old.next (stored fact) (facts_of self.old) }
        ensures next { self.new.next ≡ followed_next self.old.next (stored fact) (facts_of self.old) }
    {
        if fact.identifier == self.next && self.next < 65535 && self.list.push(fact).is_ok() {
            self.next += 1;
        }
    }
}
