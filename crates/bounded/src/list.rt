ghost use Rattle.std.specs.Prelude.{◌≡◌, ℕ, ◌-◌, ◌<◌, ◌≤◌, ◌==◌, ◌↔◌, [], ◌∷◌, ◌++◌, length, slice_get, option_copied, option_to_list, IsSome, IfNone, IsOk, IfOk, OnOk, IfErr, OnErr, vec_len, vec_capacity};
ghost use Rattle.std.specs.List.{insert, remove};

use std::alloc::{AllocError, Global};
use std::marker::Model;

// A list of at most `MOST` items, whose room is taken when it is made: no other call asks for memory.
#[derive(Drop)]
pub struct Bounded<T, const MOST: usize> {
    list: Vec<T>,
    ghost few: { length list.items ≤ MOST },
}

impl<T, const MOST: usize> Model for Bounded<T, MOST> {
    ghost use Rattle.std.specs.Prelude.{◌≤◌, vec_capacity};
    ghost use Rattle.bounded.specs.AtMost.{AtMost, at_most_code};

    ghost Value = { AtMost T MOST };

    ghost coded = { at_most_code T.code };

    ghost view = { λ b. record { items = b.list.items; few = b.few } };

    ghost invariant = { λ b. MOST ≤ vec_capacity b.list };
}

impl<T, const MOST: usize> Bounded<T, MOST> {
    // A list with no item, and all its room.
    pub fn new(heap: Global) -> Result<Self, AllocError>
        ensures { IfOk result (λ b. b.items ≡ []) }
    {
        let list = Vec::with_capacity(heap, MOST)?;
        Ok(Bounded { list })
    }

    // How many items there are.
    pub fn len(&self) -> usize
        ensures { result ≡ length self.now.items }
    {
        self.list.len()
    }

    // Whether no more items may enter.
    pub fn is_full(&self) -> bool
        ensures { result ≡ (length self.now.items == MOST) }
    {
        self.len() == MOST
    }

    // The items.
    pub fn as_slice(&self) -> &[T]
        ensures { result.now ≡ self.now.items }
    {
        &self.list
    }

    // The last item, if there is one.
    pub fn last(&self) -> Option<&T>
        ensures { option_copied result ≡ slice_get self.now.items (length self.now.items - 1) }
    {
        self.list.last()
    }

    // An item goes behind the others; or, where the list is full, nothing changes and it comes back.
    pub fn push(&mut self, item: T) -> Result<(), T>
        ensures variant { IsOk result ↔ (length self.old.items < MOST) }
        ensures ok { OnOk result (self.new.items ≡ self.old.items ++ item ∷ []) }
        ensures full { OnErr result (self.new ≡ self.old) }
        ensures back { IfErr result (λ refused. refused ≡ item) }
    {
        if self.is_full() {
            return Err(item);
        }
        self.list.push_reserved(item);
        Ok(())
    }

    // The last item leaves, if there is one.
    pub fn pop(&mut self) -> Option<T>
        ensures variant { IsSome result ↔ (0 < length self.old.items) }
        ensures items { self.old.items ≡ self.new.items ++ option_to_list result }
        ensures none { IfNone result (self.new ≡ self.old) }
    {
        self.list.pop()
    }

    // No item is in the list any more.
    pub fn clear(&mut self)
    where
        T: Drop,
        ensures { self.new.items ≡ [] }
    {
        self.list.clear();
    }

    // An item enters at an index; or, where the list is full or the index is past its end, nothing changes and it comes back.
    pub fn insert(&mut self, at: usize, item: T) -> Result<(), T>
        ensures variant { IsOk result ↔ ((length self.old.items < MOST) × (at ≤ length self.old.items)) }
        ensures ok { OnOk result (self.new.items ≡ insert self.old.items at item) }
        ensures full { OnErr result (self.new ≡ self.old) }
        ensures back { IfErr result (λ refused. refused ≡ item) }
    {
        if self.is_full() || at > self.len() {
            return Err(item);
        }
        self.list.insert(at, item).map_err(|refused| refused.value)
    }

    // The item at an index leaves, if there is one.
    pub fn remove(&mut self, at: usize) -> Option<T>
        ensures item { result ≡ slice_get self.old.items at }
        ensures items { self.new.items ≡ remove self.old.items at }
    {
        if at >= self.len() {
            return None;
        }
        Some(self.list.remove(at))
    }
}

#[cfg(test)]
mod tests {
    use super::Bounded;
    use std::test::Fail;

    #[test]
    fn is_made_and_filled(rt: HostRuntime) -> Result<(), Fail> {
        let mut list: Bounded<u16, 3> = Bounded::new(rt.alloc())?;
        assert_eq!(rt; list.len(), 0);
        assert_eq!(rt; list.push(7), Ok(()));
        assert_eq!(rt; list.push(9), Ok(()));
        assert_eq!(rt; list.insert(1, 8), Ok(()));
        assert!(rt; list.is_full());
        assert_eq!(rt; list.push(10), Err(10));
        assert_eq!(rt; list.insert(0, 6), Err(6));
        assert!(rt; list.as_slice() == [7, 8, 9].as_slice());
        assert_eq!(rt; list.last().copied(), Some(9));
        Ok(())
    }

    #[test]
    fn is_emptied(rt: HostRuntime) -> Result<(), Fail> {
        let mut list: Bounded<u16, 256> = Bounded::new(rt.alloc())?;
        for number in 0..256 {
            assert_eq!(rt; list.push(number), Ok(()));
        }
        assert_eq!(rt; list.pop(), Some(255));
        assert_eq!(rt; list.remove(1), Some(1));
        assert_eq!(rt; list.remove(254), None);
        assert_eq!(rt; list.len(), 254);
        list.clear();
        assert_eq!(rt; list.pop(), None);
        Ok(())
    }
}
