// Words as they come from a text, before any is marked.
ghost use Rattle.std.specs.Prelude.{◌≡◌, ℕ, ◌+◌, ◌<◌, ◌≤◌, List, [], map, length, Err, IfOk};
ghost use Rattle.words.specs.Lex.{faulted};
ghost use Rattle.parse.specs.Raw.{placed};
ghost use Rattle.lexed.specs.Texts.{Cut, text_words, met};

use crate::text::Tokens;
use parse::token::Token;
use std::alloc::{AllocError, Global};
use words::faults::LetterFault;
use words::reader::Words;

// The fault that ends a text: no limit of its length is set here.
fn word_fault(fault: LetterFault) -> LetterFault
    ensures { (text : List ℕ) (rest : ℕ → Cut) (s : ℕ) → ([], Err result) ≡ met text rest (faulted fault s) }
{
    match fault {
        LetterFault::NoWord(p) => LetterFault::NoWord(p),
        LetterFault::TextTooLong(p) | LetterFault::WordTooLong(p) => LetterFault::WordTooLong(p),
    }
}

// The words of a text up to its end or its first fault, none marked.
pub fn collect(heap: Global, text: &[u8]) -> Result<Tokens, AllocError>
    ensures { IfOk result (λ t. (map placed t.list.items, t.ending) ≡ text_words text.now) }
{
    let mut list = Vec::new(heap);
    let mut words = Words::new(text);
    let ending = loop {
        let next = match words.next_word() {
            Ok(next) => next,
            Err(fault) => break Err(word_fault(fault)),
        };
        let Some(word) = next else {
            break Ok(text.len());
        };
        list.push(Token::from(word))?;
    };
    Ok(Tokens { list, ending })
}
