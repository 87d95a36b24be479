// Refusals of inputs.
ghost use Rattle.std.specs.Prelude.{Some};
ghost use Rattle.account.specs.Refusals.{source_text, refusal_text};

use book::faults::BookFault;
use std::fmt;

// The part of an input in which a fault lies.
#[derive(Clone, Copy, Debug, PartialEq, Eq)]
pub enum Source {
    Book,
    Goal,
}

impl fmt::Display for Source {
    ghost output = { λ s. Some (source_text s) };

    fn fmt<W: fmt::Write>(&self, f: &mut fmt::Formatter<W>) -> fmt::Result {
        f.write_str(match self {
            Source::Book => "book",
            Source::Goal => "goal",
        })
    }
}

// The first fault of an input, and the part in which it lies.
#[derive(Clone, Copy, Debug, PartialEq, Eq)]
pub struct Refusal {
    pub source: Source,
    pub fault: BookFault,
}

// Want of memory has no place.
impl fmt::Display for Refusal {
    ghost output = { λ r. Some (refusal_text r) };

    fn fmt<W: fmt::Write>(&self, f: &mut fmt::Formatter<W>) -> fmt::Result {
        let Refusal { source, fault } = *self;
        write!(f, "refused {}", fault.number())?;
        match fault {
            BookFault::Memory => Ok(()),
            _ => write!(f, " in {source} at {}, {}", fault.place(), fault.layer()),
        }
    }
}
