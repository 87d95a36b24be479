// Facts, and facts of the store.
ghost use Rattle.std.specs.Prelude.{◌<◌};

use crate::value::Value;
use parse::few::Few;

// The number of one of a book's 32 predicates at most.
#[derive(Clone, Copy, Debug, PartialEq, Eq)]
pub struct PredicateNumber {
    pub index: u8,
    ghost few: { index < 32 },
}

// A fact by the number of its predicate, with its arguments: values, or the terms that a rule or a goal writes.
#[derive(Clone, Copy, Debug, PartialEq, Eq)]
pub struct Fact<A> {
    pub predicate: PredicateNumber,
    pub arguments: Few<A>,
}

// A fact of the store, with its identifier.
#[derive(Clone, Copy, Debug, PartialEq, Eq)]
pub struct Stored {
    pub identifier: u16,
    pub fact: Fact<Value>,
}
