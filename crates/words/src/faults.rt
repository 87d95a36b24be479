// The faults of a text's letters, with the place of each.
ghost use Rattle.std.specs.Prelude.{◌≡◌, ◌<◌, ◌≤◌, length, Some, MatchResult};
ghost use Rattle.words.specs.Faults.{letter_number, letter_place, letter_text};
ghost use Rattle.words.specs.declared.faults.LetterFault.TheVariants.{TextTooLong};

use std::{error, fmt};

// The text is longer than its limit; a byte begins no word; a word is too long or a number too large.
#[derive(Clone, Copy, Debug, PartialEq, Eq)]
pub enum LetterFault {
    TextTooLong(usize),
    NoWord(usize),
    WordTooLong(usize),
}

impl LetterFault {
    // The number by which the fault is told.
    pub fn number(self) -> u8
        ensures { result ≡ letter_number self }
    {
        match self {
            LetterFault::TextTooLong(_) => 1,
            LetterFault::NoWord(_) => 2,
            LetterFault::WordTooLong(_) => 3,
        }
    }

    // Where it lies.
    pub fn place(self) -> usize
        ensures { result ≡ letter_place self }
    {
        match self {
            LetterFault::TextTooLong(p) | LetterFault::NoWord(p) | LetterFault::WordTooLong(p) => p,
        }
    }
}

impl fmt::Display for LetterFault {
    ghost output = { λ e. Some (letter_text e) };

    fn fmt<W: fmt::Write>(&self, f: &mut fmt::Formatter<W>) -> fmt::Result {
        match self {
            LetterFault::TextTooLong(p) => write!(f, "the text is longer than {p} bytes"),
            LetterFault::NoWord(p) => write!(f, "no word begins at {p}"),
            LetterFault::WordTooLong(p) => write!(f, "the word at {p} is too long"),
        }
    }
}

impl error::Error for LetterFault {}

// Whether a text keeps within its limit; the fault lies at the limit.
pub fn within_limit(text: &[u8], limit: usize) -> Result<(), LetterFault>
    ensures { MatchResult result (λ _. length text.now ≤ limit) (λ e. (limit < length text.now) × (e ≡ TextTooLong limit)) }
{
    if text.len() > limit {
        return Err(LetterFault::TextTooLong(limit));
    }
    Ok(())
}
