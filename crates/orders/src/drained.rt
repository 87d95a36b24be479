ghost use Rattle.std.specs.Prelude.{◌≡◌, MatchResult};
ghost use Rattle.orders.specs.Drains.{Drained, RowFromFront};

use crate::branches::MOST_WAITING;
use crate::laws::Order;
use std::alloc::{AllocError, Global};

// Gives up everything, and answers the numbers in the order in which they came. The room for them is taken first, so
// that where there is no memory the order is as it was.
pub fn drain<O: Order>(order: &mut O, heap: Global) -> Result<Vec<u16>, AllocError>
    ensures { MatchResult result (λ v. Drained O.Order.bag O.Order.gives order.old v.items order.new) (λ _. order.new ≡ order.old) }
{
    let mut given = Vec::with_capacity(heap, MOST_WAITING)?;
    while let Some(number) = order.give_up() {
        given.push_reserved(number);
    }
    Ok(given)
}

// A theorem, over any state of an order: what always gives up the first of its row gives up the row from front to back.
pub fn row_from_front<S>()
    ensures { RowFromFront S }
{}

#[cfg(test)]
mod tests {
    use super::*;
    use crate::branches::{Full, Waiting};
    use crate::breadth::BreadthFirst;
    use crate::depth::DepthFirst;
    use std::test::Fail;

    fn named(number: u16) -> Waiting {
        Waiting { number, weight: 0 }
    }

    #[test]
    fn latest_list_first(rt: HostRuntime) -> Result<(), Fail> {
        let mut order = DepthFirst::new(rt.alloc())?;
        assert_eq!(rt; order.take_in(&[named(1), named(2)]), Ok(()));
        assert_eq!(rt; order.take_in(&[named(3), named(4)]), Ok(()));
        assert_eq!(rt; order.give_up(), Some(3));
        let rest = drain(&mut order, rt.alloc())?;
        assert!(rt; rest.as_slice() == [4, 1, 2].as_slice());
        Ok(())
    }

    #[test]
    fn earliest_first(rt: HostRuntime) -> Result<(), Fail> {
        let mut order = BreadthFirst::new(rt.alloc())?;
        assert_eq!(rt; order.take_in(&[named(1), named(2)]), Ok(()));
        assert_eq!(rt; order.take_in(&[named(3), named(4)]), Ok(()));
        assert_eq!(rt; order.give_up(), Some(1));
        let rest = drain(&mut order, rt.alloc())?;
        assert!(rt; rest.as_slice() == [2, 3, 4].as_slice());
        Ok(())
    }

    #[test]
    fn at_most_256_wait(rt: HostRuntime) -> Result<(), Fail> {
        let mut order = DepthFirst::new(rt.alloc())?;
        assert_eq!(rt; order.take_in(&[named(7); 257]), Err(Full));
        assert_eq!(rt; order.give_up(), None);
        assert_eq!(rt; order.take_in(&[named(7); 256]), Ok(()));
        assert_eq!(rt; order.take_in(&[named(8)]), Err(Full));
        assert_eq!(rt; order.take_in(&[]), Ok(()));
        order.clear();
        assert_eq!(rt; order.give_up(), None);
        Ok(())
    }
}
