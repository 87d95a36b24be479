ghost use Rattle.std.specs.Prelude.{◌≡◌, ℕ, Bool, ℤ, Option};
ghost use Rattle.cells.specs.declared.relations.Relation.{Relation};
ghost use Rattle.cells.specs.declared.relations.Telling.{Telling};
ghost use Rattle.cells.specs.Laws.{Ends, Inhabited, Confined, Extensional, Entire, Narrows, Answers, First, Last, Counts, Fits64};

use crate::relations::{Relation, Telling};

// A kind of cell. A content is a 64-bit number for a set of whole numbers that is not empty, its members.
// A number that is no content has no members: to narrow it leaves nothing, every question is answered yes, it has
// no least and no greatest member, and it counts 0. Every question is answered, whatever its number.
pub trait Kind {
    // The lowest and the highest number that a content may have as a member.
    const LOWEST: i32;

    const HIGHEST: i32;

    // What the constants are, as clauses and the laws read them.
    ghost LOWEST: { ℤ };

    ghost HIGHEST: { ℤ };

    // Which numbers are contents, and which whole numbers are members of one.
    ghost content: { ℕ → Bool };

    ghost member: { ℕ → ℤ → Bool };

    // What the calls answer.
    ghost whole: { ℕ };

    ghost narrowed: { ℕ → Telling → ℤ → Option ℕ };

    ghost asked: { ℕ → Relation → ℤ → Bool };

    ghost least: { ℕ → Option ℤ };

    ghost greatest: { ℕ → Option ℤ };

    ghost counted: { ℕ → ℕ };

    // The content that has all from LOWEST to HIGHEST.
    fn whole() -> u64
        ensures { result ≡ whole };

    // Whether the number is a content.
    fn is_content(c: u64) -> bool
        ensures { result ≡ content c };

    // The content of the members that satisfy, or none if no member does.
    fn narrow(c: u64, by: Telling, n: i32) -> Option<u64>
        ensures { result ≡ narrowed c by n };

    // Whether every member satisfies.
    fn ask(c: u64, relation: Relation, n: i32) -> bool
        ensures { result ≡ asked c relation n };

    // The least member.
    fn least(c: u64) -> Option<i32>
        ensures { result ≡ least c };

    // The greatest member.
    fn greatest(c: u64) -> Option<i32>
        ensures { result ≡ greatest c };

    // How many members there are.
    fn count(c: u64) -> u32
        ensures { result ≡ counted c };

    ghost ends: { Ends LOWEST HIGHEST };

    ghost fits: { Fits64 content };

    ghost inhabited: { Inhabited content member };

    ghost confined: { Confined LOWEST HIGHEST content member };

    ghost extensional: { Extensional content member };

    ghost entire: { Entire LOWEST HIGHEST content member whole };

    ghost narrows: { Narrows content member narrowed };

    ghost answers: { Answers member asked };

    ghost leasts: { (c : ℕ) → First content member c (least c) };

    ghost greatests: { (c : ℕ) → Last content member c (greatest c) };

    ghost counts: { Counts LOWEST HIGHEST member counted };
}
