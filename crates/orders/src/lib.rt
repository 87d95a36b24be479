// Orders in which a search takes up its waiting branches: what any order owes, and the two that are built.
#![tactic(auto)]

mod branches;
mod breadth;
mod depth;
mod drained;
mod laws;

pub use branches::{Full, MOST_WAITING, Waiting};
pub use breadth::BreadthFirst;
pub use depth::DepthFirst;
pub use drained::{drain, row_from_front};
pub use laws::Order;
