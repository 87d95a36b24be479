// The rows of a book's tables.
use facts::fact::Fact;
use parse::few::Few;
use parse::number::Weight;
use parse::tree::{self, Term};
use words::name::Name;

// Part of a table: so many rows, from a place on.
#[derive(Clone, Copy, Debug, PartialEq, Eq)]
pub struct Span {
    pub from: u16,
    pub count: u8,
}

impl Span {
    // No row.
    pub const EMPTY: Span = Span { from: 0, count: 0 };
}

// A fact as a rule or a goal writes it.
pub type Pattern = Fact<Term>;

// An alternative of a body, with the place of its items.
pub type Alternative = tree::Alternative<Span>;

// An alternative without items.
pub const NO_ITEMS: Alternative = Alternative {
    weight: Weight { value: 0 },
    items: Span::EMPTY,
};

// A rule: its heads in the order written, of which the first so many are kept; where its guard and its alternatives lie.
#[derive(Clone, Copy, Debug, PartialEq, Eq)]
pub struct Rule {
    pub heads: Few<Pattern>,
    pub kept: u8,
    pub guard: Span,
    pub body: Span,
}

impl Rule {
    // Without heads and alternatives.
    pub const NONE: Rule = Rule {
        heads: Few::Zero,
        kept: 0,
        guard: Span::EMPTY,
        body: Span::EMPTY,
    };
}

// A rule with its name.
#[derive(Clone, Copy, Debug, PartialEq, Eq)]
pub struct Named {
    pub label: Name,
    pub rule: Rule,
}

// An occurrence of a predicate: a rule, and the place of one of its heads, from 0 on the left.
#[derive(Clone, Copy, Debug, PartialEq, Eq)]
pub struct Occurrence {
    pub rule: u8,
    pub head: u8,
}
