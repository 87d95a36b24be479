ghost use Rattle.std.specs.Prelude.{◌≡◌, ℕ, ◌≤◌, List, [], length, Option};
ghost use Rattle.orders.specs.declared.branches.Waiting.{Waiting};
ghost use Rattle.orders.specs.Bags.{most_waiting, Joined, Accepted, Removed, Kept};

use crate::branches::{Full, Waiting};

// An order of waiting branches. Its laws are the clauses below; a search knows nothing else of it.
pub trait Order {
    // The branches that wait. As a list, but the laws compare it up to the order of its elements.
    ghost bag: { Self → List Waiting };

    // What taking in a list makes of the order: before, list, after.
    ghost takes: { Self → List Waiting → Self → Type 0 };

    // What giving up answers and leaves: before, answer, after.
    ghost gives: { Self → Option ℕ → Self → Type 0 };

    // Empties the order.
    fn clear(&mut self)
        ensures { bag self.new ≡ [] };

    // Adds exactly the branches of the list; or refuses, changing nothing, exactly if more than 256 would then wait.
    fn take_in(&mut self, list: &[Waiting]) -> Result<(), Full>
        ensures bag { Joined (bag self.old) list.now result (bag self.new) }
        ensures makes { Accepted takes self.old list.now result self.new };

    // Removes one waiting branch and answers its number; or none, changing nothing, exactly if none waits.
    fn give_up(&mut self) -> Option<u16>
        ensures bag { Removed (bag self.old) result (bag self.new) }
        ensures gives { gives self.old result self.new }
        ensures same { Kept self.old result self.new };

    // An order never holds more than 256.
    ghost few: { (o : Self) → length (bag o) ≤ most_waiting };
}
