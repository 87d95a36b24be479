ghost use Rattle.std.specs.Prelude.{◌≡◌};
ghost use Rattle.cells.specs.Spans.{span, raised, lowered, within, all_satisfy};

use crate::relations::{Relation, Telling};

// All numbers from `low` to `high`.
#[derive(Clone, Copy, Debug, PartialEq, Eq)]
pub struct Span {
    pub low: i32,
    pub high: i32,
}

impl Span {
    // The numbers from `low` to `high`, if there are any.
    pub fn new(low: i32, high: i32) -> Option<Span>
        ensures { result ≡ span low high }
    {
        (low <= high).then_some(Span { low, high })
    }

    // Its numbers that satisfy, if there are any.
    pub fn clip(self, by: Telling, n: i32) -> Option<Span>
        ensures { result ≡ span (raised self.low by n) (lowered self.high by n) }
    {
        match by {
            Telling::Less => Span::new(self.low, self.high.min(n.checked_sub(1)?)),
            Telling::AtMost => Span::new(self.low, self.high.min(n)),
            Telling::Equal => Span::new(self.low.max(n), self.high.min(n)),
            Telling::AtLeast => Span::new(self.low.max(n), self.high),
            Telling::Greater => Span::new(self.low.max(n.checked_add(1)?), self.high),
        }
    }

    // Whether `n` is one of its numbers.
    pub fn has(self, n: i32) -> bool
        ensures { result ≡ within self n }
    {
        (self.low..=self.high).contains(&n)
    }

    // Whether all members of a set satisfy, of which these are the least and the greatest, and `has` says whether
    // `n` is one.
    pub fn all(self, has: bool, relation: Relation, n: i32) -> bool
        ensures { result ≡ all_satisfy self.low self.high has relation n }
    {
        match relation {
            Relation::Different => !has,
            _ => relation.holds(self.low, n) && relation.holds(self.high, n),
        }
    }
}
