// How a branch ends, and what the machine stands at.
ghost use Rattle.std.specs.Prelude.{◌≡◌};
ghost use Rattle.facts.specs.Views.{cause};
ghost use Rattle.steps.specs.State.{cause_number};

// Why a branch breaks.
#[derive(Clone, Copy, Debug, PartialEq, Eq)]
pub enum Cause {
    // A cell in a body's sum, or on the right of a told comparison.
    CellForNumber,
    // A body's number beyond 1,000,000,000 either way.
    NumberTooLarge,
    // A 129th fact in the store.
    StoreFull,
    // A 129th entry on the stack.
    StackFull,
    // A 257th firing in the history.
    HistoryFull,
}

impl Cause {
    // The number by which the cause is told.
    pub fn number(self) -> u8
        ensures { result ≡ cause_number (cause self) }
    {
        match self {
            Cause::CellForNumber => 1,
            Cause::NumberTooLarge => 2,
            Cause::StoreFull => 3,
            Cause::StackFull => 4,
            Cause::HistoryFull => 5,
        }
    }
}

// How a branch ends.
#[derive(Clone, Copy, Debug, PartialEq, Eq)]
pub enum End {
    Answer,
    Failed,
    Broken(Cause),
}

// What the machine stands at: on a branch, at a choice of so many alternatives, or at a leaf.
#[derive(Clone, Copy, Debug, PartialEq, Eq)]
pub enum Standing {
    Branch,
    Choice(u8),
    Leaf(End),
}
