ghost use Rattle.std.specs.Prelude.{◌≡◌, [], reverse, IfOk, refl};
ghost use Rattle.orders.specs.Rows.{InFront, FirstOut};
ghost use Rattle.orders.specs.Held.{few_stacked};

use crate::branches::{Full, MOST_WAITING, Waiting};
use crate::laws::Order;
use bounded::Bounded;
use std::alloc::{AllocError, Global};

// Gives up the first branch of the latest list: a stack, whose top is at the list's end.
#[derive(Drop)]
pub struct DepthFirst {
    stack: Bounded<Waiting, MOST_WAITING>,
}

impl DepthFirst {
    // An order with nothing waiting. It takes its room at once, so that taking in wants no memory.
    pub fn new(heap: Global) -> Result<DepthFirst, AllocError>
        ensures { IfOk result (λ d. reverse d.stack.items ≡ []) }
    {
        let stack = Bounded::new(heap)?;
        Ok(DepthFirst { stack })
    }
}

impl Order for DepthFirst {
    ghost bag = { λ d. reverse d.stack.items };

    ghost takes = { λ d list e. InFront (reverse d.stack.items) list (reverse e.stack.items) };

    ghost gives = { λ d r e. FirstOut (reverse d.stack.items) r (reverse e.stack.items) };

    ghost few = { λ o. few_stacked o.stack refl };

    fn clear(&mut self) {
        self.stack.clear();
    }

    fn take_in(&mut self, list: &[Waiting]) -> Result<(), Full> {
        if list.len() > MOST_WAITING - self.stack.len() {
            return Err(Full);
        }
        for w in list.iter().rev() {
            self.stack.push(*w).unwrap();
        }
        Ok(())
    }

    fn give_up(&mut self) -> Option<u16> {
        self.stack.pop().map(|w| w.number)
    }
}
