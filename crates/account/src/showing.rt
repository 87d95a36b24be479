// Books and goals as text, and lines with a mark.
use crate::lines::line_of;
use crate::named::Named;
use crate::occurrences::occurrences;
use book::library::{Book, Goal};
use book::predicate::Predicate;
use pages::page::Page;
use parse::tree::Rule;
use std::alloc::AllocError;

// A rule's name, and its variables in the order of their first appearance.
fn title(page: &mut Page, rule: &Rule) -> Result<(), AllocError> {
    page.text("rule ")?;
    page.name(&rule.label)?;
    write!(page, ": {} variables (", rule.variables.list.len())?;
    let mut before = "";
    for name in rule.variables.list.iter() {
        page.text(before)?;
        page.name(name)?;
        before = " ";
    }
    page.text(")\n")
}

fn show_rule(page: &mut Page, rule: &Rule) -> Result<(), AllocError> {
    title(page, rule)?;
    let mut named = Named {
        page,
        names: &rule.variables.list,
    };
    named.heads("  kept ", rule.kept)?;
    named.heads("  removed ", rule.removed)?;
    named.guard(&rule.guard)?;
    for alternative in rule.body.iter() {
        named.alternative(alternative)?;
    }
    Ok(())
}

// Where a predicate occurs, in the order of trying; heads are counted from 1.
fn places(page: &mut Page, rules: &[Rule], predicate: &Predicate) -> Result<(), AllocError> {
    let all = occurrences(page.heap, rules, predicate)?;
    if all.is_empty() {
        return page.text(" -");
    }
    for one in all.iter() {
        let Some(rule) = rules.get(one.rule) else {
            continue;
        };
        page.text(" ")?;
        page.name(&rule.label)?;
        write!(page, ".{}", one.head.saturating_add(1))?;
    }
    Ok(())
}

fn predicates(page: &mut Page, book: &Book) -> Result<(), AllocError> {
    for (number, predicate) in book.predicates.list.iter().enumerate() {
        write!(page, "predicate {number} ")?;
        page.name(&predicate.name)?;
        write!(page, "/{}:", predicate.arity)?;
        places(page, &book.rules, predicate)?;
        page.text("\n")?;
    }
    Ok(())
}

pub fn show_book(page: &mut Page, book: &Book) -> Result<(), AllocError> {
    let alternatives = book
        .rules
        .iter()
        .fold(0usize, |n, rule| n.saturating_add(rule.body.len()));
    writeln!(
        page,
        "book: {} rules, {} predicates, {alternatives} alternatives",
        book.rules.len(),
        book.predicates.list.len()
    )?;
    predicates(page, book)?;
    for rule in book.rules.iter() {
        show_rule(page, rule)?;
    }
    Ok(())
}

pub fn show_goal(page: &mut Page, goal: &Goal) -> Result<(), AllocError> {
    writeln!(page, "goal: {} items", goal.items.len())?;
    let mut named = Named { page, names: &[] };
    for item in goal.items.iter() {
        named.page.text("  ")?;
        named.item(item)?;
        named.page.text("\n")?;
    }
    Ok(())
}

// The line of a text in which a place lies, and a mark under the place.
pub fn show_line(page: &mut Page, text: &[u8], place: usize) -> Result<(), AllocError> {
    let Some(spot) = line_of(text, place) else {
        return Ok(());
    };
    page.raw(spot.line)?;
    page.text("\n")?;
    for byte in spot.line.iter().take(spot.column) {
        page.text(if *byte == b'\t' { "\t" } else { " " })?;
    }
    page.text("^\n")
}
