// Why a list of words is no book or goal, by the index of the word.
ghost use Rattle.std.specs.Prelude.{◌≡◌};
ghost use Rattle.parse.specs.declared.flaw.Flaw.TheVariants.{Memory};

use std::alloc::{AllocError, AllocFailed};

#[derive(Clone, Copy, Debug, PartialEq, Eq)]
pub enum Flaw {
    // the grammar bars the word, or the end
    Barred(usize),
    // a limit is passed
    TooMany(usize),
    // a variable behind the arrow that is in no head
    Unbound(usize),
    // a rule's name that an earlier rule has
    Reused(usize),
    // a variable in a goal
    InGoal(usize),
    // memory is wanting
    Memory,
}

impl From<AllocError> for Flaw {
    ghost from_gives = { λ _ r. r ≡ Memory };

    fn from(_e: AllocError) -> Flaw {
        Flaw::Memory
    }
}

impl<T: Drop> From<AllocFailed<T>> for Flaw {
    ghost from_gives = { λ _ r. r ≡ Memory };

    fn from(_e: AllocFailed<T>) -> Flaw {
        Flaw::Memory
    }
}
