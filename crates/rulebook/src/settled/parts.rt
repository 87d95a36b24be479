// The parts of a book, each found by its place.
ghost use Rattle.std.specs.Prelude.{◌≡◌, ◌≤◌, map, length};
ghost use Rattle.parse.specs.Model.{asking};
ghost use Rattle.steps.specs.Program.{rule_at, alternative_at, occurrences};
ghost use Rattle.steps.specs.Step.{occurrence_at};
ghost use Rattle.rulebook.specs.Rows.{slice, item};
ghost use Rattle.rulebook.specs.Tables.{rule_in, alternative_in, program};
ghost use Rattle.rulebook.specs.Occurrences.{occurrence_if, Reached};

use super::Book;
use crate::rows::{Alternative, NO_ITEMS, Occurrence, Pattern, Rule, Span};
use facts::fact::PredicateNumber;
use parse::tree::{Asking, Item};

// The rows of a span, as far as the table has them.
fn part<T>(table: &[T], span: Span) -> &[T]
    ensures { result.now ≡ slice table.now span }
{
    let rest = table.get(usize::from(span.from)..).unwrap_or(&[]);
    rest.get(..usize::from(span.count)).unwrap_or(rest)
}

impl Book {
    // The rule of a number; one without heads and alternatives where there is none.
    pub fn rule(&self, number: u8) -> Rule
        ensures { rule_in self.now result ≡ rule_at (program self.now) number }
    {
        self.rules
            .get(usize::from(number))
            .map_or(Rule::NONE, |named| named.rule)
    }

    // The comparisons of a rule's guard.
    pub fn guard(&self, rule: Rule) -> &[Asking]
        ensures { map asking result.now ≡ (rule_in self.now rule).guard }
    {
        part(&self.guards, rule.guard)
    }

    // The alternatives of a rule.
    pub fn body(&self, rule: Rule) -> &[Alternative]
        ensures { map (alternative_in self.now) result.now ≡ (rule_in self.now rule).body }
    {
        part(&self.alternatives, rule.body)
    }

    // How many alternatives a rule has.
    pub fn alternatives(&self, rule: Rule) -> u8
        ensures { result ≡ length (rule_in self.now rule).body }
    {
        self.body(rule).len() as u8
    }

    // The alternative of a number, counted from 1; one without items where there is none.
    pub fn alternative(&self, rule: Rule, number: u8) -> Alternative
        ensures { alternative_in self.now result ≡ alternative_at (rule_in self.now rule) number }
    {
        self.body(rule)
            .get(usize::from(number.saturating_sub(1)))
            .copied()
            .unwrap_or(NO_ITEMS)
    }

    // The items of an alternative.
    pub fn items(&self, alternative: Alternative) -> &[Item<Pattern>]
        ensures { map item result.now ≡ (alternative_in self.now alternative).items }
    {
        part(&self.items, alternative.items)
    }

    // The occurrence of a number, counted from 1, of a predicate; a predicate has fewer than 255.
    pub fn occurrence(&self, predicate: PredicateNumber, number: u8) -> Option<Occurrence>
        ensures found { occurrence_if result ≡ occurrence_at (occurrences (program self.now) predicate.index) number }
        ensures few { Reached number result }
    {
        let span = self.places[usize::from(predicate.index)];
        let place = usize::from(number.checked_sub(1)?);
        part(&self.occurrences, span).get(place).copied()
    }
}
