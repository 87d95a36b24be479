// A branch that waits to be entered: its number in the table of branches, and the weight of its path.
#[derive(Clone, Copy, Debug, PartialEq, Eq)]
pub struct Waiting {
    pub number: u16,
    pub weight: u32,
}

// A list was refused, since more than `MOST_WAITING` branches would then wait.
#[derive(Clone, Copy, Debug, PartialEq, Eq)]
pub struct Full;

// The most branches that wait in an order at one time.
pub const MOST_WAITING: usize = 256;
