ghost use Rattle.std.specs.Prelude.{◌≡◌, ◌≤◌, [], length, IfOk};
ghost use Rattle.std.specs.VecDeque.{deque_capacity};
ghost use Rattle.orders.specs.Rows.{Behind, FirstOut};

use crate::branches::{Full, MOST_WAITING, Waiting};
use crate::laws::Order;
use std::alloc::{AllocError, Global};
use std::collections::VecDeque;

// Gives up the branch that was taken in earliest: a queue.
#[derive(Drop)]
pub struct BreadthFirst {
    queue: VecDeque<Waiting>,
    ghost room: { 256 ≤ deque_capacity queue },
    ghost small: { length queue.items ≤ 256 },
}

impl BreadthFirst {
    // An order with nothing waiting. It takes its room at once, so that taking in wants no memory.
    pub fn new(heap: Global) -> Result<BreadthFirst, AllocError>
        ensures { IfOk result (λ d. d.queue.items ≡ []) }
    {
        let queue = VecDeque::with_capacity(heap, MOST_WAITING)?;
        Ok(BreadthFirst { queue })
    }
}

impl Order for BreadthFirst {
    ghost bag = { λ d. d.queue.items };

    ghost takes = { λ d list e. Behind d.queue.items list e.queue.items };

    ghost gives = { λ d r e. FirstOut d.queue.items r e.queue.items };

    ghost few = { λ o. o.small };

    fn clear(&mut self) {
        self.queue.clear();
    }

    fn take_in(&mut self, list: &[Waiting]) -> Result<(), Full> {
        if list.len() > MOST_WAITING - self.queue.len() {
            return Err(Full);
        }
        for w in list {
            self.queue.push_back_reserved(*w);
        }
        Ok(())
    }

    // `remove(0)` is a `pop_front` whose contract keeps the capacity: nothing is shifted.
    fn give_up(&mut self) -> Option<u16> {
        self.queue.remove(0).map(|w| w.number)
    }
}
