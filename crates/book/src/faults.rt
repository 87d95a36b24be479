// The faults of a book or goal, by layer: letters, grammar, meaning.
ghost use Rattle.std.specs.Prelude.{◌≡◌, Some};
ghost use Rattle.book.specs.Faults.{book_number, book_place, book_layer, layer_text};
ghost use Rattle.book.specs.declared.faults.GrammarFault.TheVariants.{Letter};
ghost use Rattle.book.specs.declared.faults.BookFault.TheVariants.{Grammar, Memory};

use std::alloc::{AllocError, AllocFailed};
use std::fmt;
use words::faults::LetterFault;

// A fault of the letters; a word that the grammar bars, or the end; a limit passed.
#[derive(Clone, Copy, Debug, PartialEq, Eq)]
pub enum GrammarFault {
    Letter(LetterFault),
    Barred(usize),
    TooMany(usize),
}

// A fault of the grammar; a variable in no head; a rule's name used before; a variable in a goal; a goal's predicate that the book lacks;
// want of memory.
#[derive(Clone, Copy, Debug, PartialEq, Eq)]
pub enum BookFault {
    Grammar(GrammarFault),
    Unbound(usize),
    Reused(usize),
    InGoal(usize),
    Unknown(usize),
    Memory,
}

#[derive(Clone, Copy, Debug, PartialEq, Eq)]
pub enum Layer {
    Letters,
    Grammar,
    Meaning,
}

impl fmt::Display for Layer {
    ghost output = { λ layer. Some (layer_text layer) };

    fn fmt<W: fmt::Write>(&self, f: &mut fmt::Formatter<W>) -> fmt::Result {
        f.write_str(match self {
            Layer::Letters => "letters",
            Layer::Grammar => "grammar",
            Layer::Meaning => "meaning",
        })
    }
}

impl From<LetterFault> for GrammarFault {
    ghost from_gives = { λ e r. r ≡ Letter e };

    fn from(e: LetterFault) -> GrammarFault {
        GrammarFault::Letter(e)
    }
}

impl From<GrammarFault> for BookFault {
    ghost from_gives = { λ e r. r ≡ Grammar e };

    fn from(e: GrammarFault) -> BookFault {
        BookFault::Grammar(e)
    }
}

impl From<AllocError> for BookFault {
    ghost from_gives = { λ _ r. r ≡ Memory };

    fn from(_e: AllocError) -> BookFault {
        BookFault::Memory
    }
}

impl<T: Drop> From<AllocFailed<T>> for BookFault {
    ghost from_gives = { λ _ r. r ≡ Memory };

    fn from(_e: AllocFailed<T>) -> BookFault {
        BookFault::Memory
    }
}

impl BookFault {
    // The number by which the fault is told.
    pub fn number(self) -> u8
        ensures { result ≡ book_number self }
    {
        match self {
            BookFault::Grammar(GrammarFault::Letter(e)) => e.number(),
            BookFault::Grammar(GrammarFault::Barred(_)) => 4,
            BookFault::Grammar(GrammarFault::TooMany(_)) => 5,
            BookFault::Unbound(_) => 6,
            BookFault::Reused(_) => 7,
            BookFault::InGoal(_) => 8,
            BookFault::Unknown(_) => 9,
            BookFault::Memory => 30,
        }
    }

    // Where it lies; want of memory has no place, and tells 0.
    pub fn place(self) -> usize
        ensures { result ≡ book_place self }
    {
        match self {
            BookFault::Grammar(GrammarFault::Letter(e)) => e.place(),
            BookFault::Grammar(GrammarFault::Barred(p)) => p,
            BookFault::Grammar(GrammarFault::TooMany(p)) => p,
            BookFault::Unbound(p) => p,
            BookFault::Reused(p) => p,
            BookFault::InGoal(p) => p,
            BookFault::Unknown(p) => p,
            BookFault::Memory => 0,
        }
    }

    // The layer that found it; want of memory belongs to none, and tells the last.
    pub fn layer(self) -> Layer
        ensures { result ≡ book_layer self }
    {
        match self {
            BookFault::Grammar(GrammarFault::Letter(_)) => Layer::Letters,
            BookFault::Grammar(_) => Layer::Grammar,
            _ => Layer::Meaning,
        }
    }
}
