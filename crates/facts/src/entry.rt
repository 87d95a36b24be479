// Entries of the execution stack, and records of the propagation history.
use crate::binding::Bindings;
use crate::fact::{Fact, Stored};
use crate::value::Value;
use cells::relations::Telling;
use parse::few::Few;
use parse::number::Number;

// What the machine is to do next, from the top of its stack downwards.
#[derive(Clone, Copy, Debug, PartialEq, Eq)]
pub enum Entry {
    // A fact to add.
    Add(Fact<Value>),
    // A comparison to tell: of a value, with a number on its right.
    Tell(Value, Telling, Number),
    Fail,
    // A fact woken by a cell that has changed.
    Woken(Stored),
    // A fact at one of its predicate's occurrences, counted from 1.
    Active(Stored, u8),
    // An alternative by its rule and its number, counted from 1.
    Alternative(u8, u8, Bindings),
    // A choice between the alternatives of a rule.
    Choice(u8, Bindings),
}

// A rule that fired, and the identifiers of its heads' facts in the order written.
#[derive(Clone, Copy, Debug, PartialEq, Eq)]
pub struct Firing {
    pub rule: u8,
    pub identifiers: Few<u16>,
}
