// The store of facts.
ghost use Rattle.std.specs.Prelude.{◌≡◌, true};
ghost use Rattle.state.specs.Orders.{ordered, numbers};

mod moves;

use bounded::Bounded;
use facts::fact::Stored;

pub const MOST_FACTS: usize = 128;

// At most 128 facts by rising identifier, all from 1 on and below the next identifier.
#[derive(Drop)]
pub struct Store {
    list: Bounded<Stored, MOST_FACTS>,
    next: u16,
    ghost rising: { ordered 0 next (numbers list.items) ≡ true },
}
