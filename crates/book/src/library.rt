// Books and goals as types.
use crate::predicate::Predicates;
use parse::tree::{Item, Mention, Rule};

// A rule book: its predicates, numbered from 0 as they first appear, and its rules.
#[derive(Drop)]
pub struct Book {
    pub predicates: Predicates,
    pub rules: Vec<Rule>,
}

// A goal: the items with which a search begins.
#[derive(Drop)]
pub struct Goal {
    pub items: Vec<Item<Mention>>,
}
