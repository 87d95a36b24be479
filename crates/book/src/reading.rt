// Books and goals are read from texts of any bytes.
ghost use Rattle.std.specs.Prelude.{◌≡◌, length};
ghost use Rattle.lexed.specs.Texts.{places};
ghost use Rattle.book.specs.Endings.{BarredEnd, FitsWithin, AtEnd, Placed, fault_of, WordsTold, Told};
ghost use Rattle.book.specs.Predicates.{predicates};
ghost use Rattle.book.specs.Reading.{book_of, goal_of, book_view, goal_view, Answers, Located};

use crate::faults::{BookFault, GrammarFault};
use crate::library::{Book, Goal};
use crate::mentions::{in_goal, mentions};
use crate::predicate::Predicates;
use lexed::text::Tokens;
use lexed::whole::tokens;
use parse::flaw::Flaw;
use parse::whole::{goal, rules};
use std::alloc::Global;
use words::faults::{LetterFault, within_limit};

// The text's length, if no fault of its letters ends it.
fn grammar_end(ending: Result<usize, LetterFault>) -> Result<usize, GrammarFault>
    ensures { BarredEnd ending result }
{
    let end = ending?;
    Ok(end)
}

// The fault of words that end too early.
fn at_end(ending: Result<usize, LetterFault>) -> GrammarFault
    ensures { AtEnd ending result }
{
    match grammar_end(ending) {
        Ok(n) => GrammarFault::Barred(n),
        Err(e) => e,
    }
}

// Whether a text keeps within its limit.
fn fits_within(text: &[u8], limit: usize) -> Result<(), GrammarFault>
    ensures { FitsWithin (length text.now) limit result }
{
    within_limit(text, limit)?;
    Ok(())
}

// Where the word at an index stands; behind the last word, the fault of words that end too early.
fn place_of(tokens: &Tokens, i: usize) -> Result<usize, GrammarFault>
    ensures { Placed (places tokens.now.list.items) tokens.now.ending i result }
{
    if i < tokens.list.len() {
        return Ok(tokens.list[i].place);
    }
    Err(at_end(tokens.ending))
}

// A flaw of the words as a fault of the text, with its place.
fn located(tokens: &Tokens, flaw: Flaw) -> Result<BookFault, GrammarFault>
    ensures { Located (places tokens.now.list.items) tokens.now.ending flaw (fault_of result) }
{
    Ok(match flaw {
        Flaw::Barred(i) => BookFault::Grammar(GrammarFault::Barred(place_of(tokens, i)?)),
        Flaw::TooMany(i) => BookFault::Grammar(GrammarFault::TooMany(place_of(tokens, i)?)),
        Flaw::Unbound(i) => BookFault::Unbound(place_of(tokens, i)?),
        Flaw::Reused(i) => BookFault::Reused(place_of(tokens, i)?),
        Flaw::InGoal(i) => BookFault::InGoal(place_of(tokens, i)?),
        Flaw::Memory => BookFault::Memory,
    })
}

// The words of a text that keeps within its limit.
fn words_within(heap: Global, text: &[u8], limit: usize) -> Result<Tokens, BookFault>
    ensures { WordsTold text.now limit result }
{
    fits_within(text, limit)?;
    let tokens = tokens(heap, text)?;
    Ok(tokens)
}

// What the words of a text say; or the fault of a word, or of the letters that end the text.
fn told<T: Drop>(tokens: &Tokens, said: Result<T, Flaw>) -> Result<T, BookFault>
    ensures { Told (places tokens.now.list.items) tokens.now.ending said result }
{
    match said {
        Ok(meant) => {
            grammar_end(tokens.ending)?;
            Ok(meant)
        }
        Err(flaw) => Err(located(tokens, flaw)?),
    }
}

// The book that a text is, or the refusal with its number, place and layer.
pub fn read_book(heap: Global, text: &[u8]) -> Result<Book, BookFault>
    ensures { Answers book_view result (book_of text.now) }
{
    let tokens = words_within(heap, text, 8192)?;
    let rules = told(&tokens, rules(heap, &tokens.list))?;
    let facts = mentions(heap, &rules)?;
    let predicates = Predicates::of(heap, &facts)?;
    Ok(Book { predicates, rules })
}

// The goal that a text is, for a book that is read, or the refusal with its number, place and layer.
pub fn read_goal(heap: Global, book: &Book, text: &[u8]) -> Result<Goal, BookFault>
    ensures { Answers goal_view result (goal_of (predicates book.now.predicates) text.now) }
{
    let tokens = words_within(heap, text, 1024)?;
    let items = told(&tokens, goal(heap, &tokens.list))?;
    let facts = in_goal(heap, &items)?;
    if let Some(place) = book.predicates.first_unknown(&facts) {
        return Err(BookFault::Unknown(place));
    }
    Ok(Goal { items })
}
