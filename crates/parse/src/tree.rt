// What books and goals are made of, as read: variables are numbered by their first appearance in the rule, facts still have names.
use crate::few::Few;
use crate::number::{Cell, Number, Variable, Weight};
use crate::scope::Names;
use cells::relations::{Relation, Telling};
use words::name::Name;

// A side of a comparison, or an argument of a fact.
#[derive(Clone, Copy, Debug, PartialEq, Eq)]
pub enum Term {
    Number(Number),
    Cell(Cell),
    Variable(Variable),
    Sum(Variable, Number),
}

// A comparison by a relation.
#[derive(Clone, Copy, Debug, PartialEq, Eq)]
pub struct Comparison<R> {
    pub left: Term,
    pub relation: R,
    pub right: Term,
}

// A comparison of a guard.
pub type Asking = Comparison<Relation>;

// A comparison of a body.
pub type Tell = Comparison<Telling>;

// A fact by its name, which stands at a place of the text.
#[derive(Clone, Copy, Debug, PartialEq, Eq)]
pub struct Mention {
    pub place: usize,
    pub name: Name,
    pub arguments: Few<Term>,
}

// An item of a body or goal, by how it holds a fact.
#[derive(Clone, Copy, Debug, PartialEq, Eq)]
pub enum Item<F> {
    Add(F),
    Tell(Tell),
    Fail,
}

// An alternative of a body: its weight, which is 0 where none is written, and its items; `true` is no item.
#[derive(Clone, Copy, Debug, PartialEq, Eq, Drop)]
pub struct Alternative<I> {
    pub weight: Weight,
    pub items: I,
}

// What stands between the first heads and the body.
#[derive(Drop)]
pub struct Arrow {
    pub kept: Few<Mention>,
    pub removed: Few<Mention>,
    pub guard: Vec<Asking>,
}

#[derive(Drop)]
pub struct Rule {
    pub label: Name,
    pub variables: Names,
    pub kept: Few<Mention>,
    pub removed: Few<Mention>,
    pub guard: Vec<Asking>,
    pub body: Vec<Alternative<Vec<Item<Mention>>>>,
}
