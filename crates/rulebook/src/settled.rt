// A book: its rules in tables.
ghost use Rattle.std.specs.Prelude.{◌≡◌, ◌≤◌, true, vec_len};
ghost use Rattle.rulebook.specs.Occurrences.{all_listed};

mod parts;

use crate::rows::{Alternative, Named, Occurrence, Pattern, Span};
use book::predicate::Predicates;
use parse::tree::{Asking, Item};

// An accepted book: its predicates, its rules with their names, the comparisons of guards, the alternatives of bodies and their items, and
// for each of 32 predicates where its occurrences lie. No row owns memory, so that a book can be copied into room taken beforehand.
#[derive(Drop)]
pub struct Book {
    predicates: Predicates,
    rules: Vec<Named>,
    guards: Vec<Asking>,
    alternatives: Vec<Alternative>,
    items: Vec<Item<Pattern>>,
    occurrences: Vec<Occurrence>,
    places: Vec<Span>,
    ghost rules_few: { vec_len rules ≤ 32 },
    ghost listed: { all_listed rules.items places.items occurrences.items ≡ true },
}
