// Inputs are read, and an account is given of them.
ghost use Rattle.std.specs.Prelude.{◌≡◌, IfOk, MatchResult};
ghost use Rattle.book.specs.Predicates.{predicates};
ghost use Rattle.book.specs.Reading.{accepted, book_of, book_view, goal_of, goal_view, Refuses};
ghost use Rattle.account.specs.Verdicts.{Judged, TellsVerdict};
ghost use Rattle.account.specs.declared.refusal.Source.TheVariants as source;

use crate::parting::part;
use crate::refusal::{Refusal, Source};
use crate::showing::{show_book, show_goal, show_line};
use book::faults::BookFault;
use book::library::{Book, Goal};
use book::reading::{read_book, read_goal};
use pages::page::Page;
use std::alloc::{AllocError, Global};

fn book_in(heap: Global, text: &[u8]) -> Result<Book, Refusal>
    ensures { MatchResult result (λ b. book_of text.now ≡ accepted (book_view b)) (λ r. (r.source ≡ source.Book) × Refuses r.fault (book_of text.now)) }
{
    read_book(heap, text).map_err(|fault| Refusal {
        source: Source::Book,
        fault,
    })
}

fn goal_in(heap: Global, book: &Book, text: &[u8]) -> Result<Goal, Refusal>
    ensures { MatchResult result (λ g. goal_of (predicates book.now.predicates) text.now ≡ accepted (goal_view g))
        (λ r. (r.source ≡ source.Goal) × Refuses r.fault (goal_of (predicates book.now.predicates) text.now)) }
{
    read_goal(heap, book, text).map_err(|fault| Refusal {
        source: Source::Goal,
        fault,
    })
}

// A book, and its goal if there is one.
fn read(heap: Global, first: &[u8], second: &[u8]) -> Result<(Book, Option<Goal>), Refusal> {
    let book = book_in(heap, first)?;
    if second.is_empty() {
        return Ok((book, None));
    }
    let goal = goal_in(heap, &book, second)?;
    Ok((book, Some(goal)))
}

// A refusal with the line in which its place lies; want of memory has none.
fn explain(page: &mut Page, refusal: Refusal, text: &[u8]) -> Result<(), AllocError> {
    writeln!(page, "{refusal}")?;
    match refusal.fault {
        BookFault::Memory => Ok(()),
        fault => show_line(page, text, fault.place()),
    }
}

// The account of a book and of the goal, if there is one; or of the first fault.
pub fn account(heap: Global, input: &[u8]) -> Result<Vec<u8>, AllocError> {
    let mut page = Page::new(heap);
    let (first, second) = part(input);
    match read(heap, first, second) {
        Ok((book, goal)) => {
            show_book(&mut page, &book)?;
            if let Some(goal) = goal {
                show_goal(&mut page, &goal)?;
            }
        }
        Err(refusal) => {
            let text = match refusal.source {
                Source::Book => first,
                Source::Goal => second,
            };
            explain(&mut page, refusal, text)?;
        }
    }
    Ok(page.bytes)
}

// Whether a book and its goal are accepted; a goal that is not there is empty.
fn verdict(heap: Global, input: &[u8]) -> Result<(), Refusal>
    ensures { Judged input.now result }
{
    let (first, second) = part(input);
    let book = book_in(heap, first)?;
    goal_in(heap, &book, second)?;
    Ok(())
}

// One line: whether book and goal are accepted, or the refusal.
pub fn verdict_line(heap: Global, input: &[u8]) -> Result<Vec<u8>, AllocError>
    ensures { IfOk result (λ line. TellsVerdict input.now line.items) }
{
    let mut page = Page::new(heap);
    match verdict(heap, input) {
        Ok(()) => page.text("accepted\n")?,
        Err(refusal) => writeln!(page, "{refusal}")?,
    }
    Ok(page.bytes)
}
