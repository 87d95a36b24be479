// The propagation history.
mod moves;

use bounded::Bounded;
use facts::entry::Firing;

pub const MOST_FIRINGS: usize = 256;

// At most 256 firings, in their order.
#[derive(Drop)]
pub struct History {
    list: Bounded<Firing, MOST_FIRINGS>,
}
