// Tokens from the words of a text, before any is marked.
ghost use Rattle.std.specs.Prelude.{◌≡◌, ℕ};
ghost use Rattle.words.specs.Lex.{spells};
ghost use Rattle.words.specs.Names.{name_bytes};
ghost use Rattle.parse.specs.Tokens.{sign_code, lexeme_word};
ghost use Rattle.parse.specs.Raw.{mark_code, name_word, raw_word, placed};

use crate::token::{Lexeme, Sign, Token};
use words::marks::Mark;
use words::name::Name;
use words::name::spelling::same_name;
use words::word::{What, Word};

// The sign that a mark is; an arrow is not yet known to have a guard.
impl From<Mark> for Sign {
    ghost from_gives = { λ m r. sign_code r ≡ mark_code m };

    fn from(mark: Mark) -> Sign {
        match mark {
            Mark::At => Sign::At,
            Mark::Comma => Sign::Comma,
            Mark::Dot => Sign::Dot,
            Mark::Semicolon => Sign::Semicolon,
            Mark::Bar => Sign::Bar,
            Mark::Backslash => Sign::Backslash,
            Mark::Open => Sign::Open,
            Mark::Close => Sign::Close,
            Mark::Plus => Sign::Plus,
            Mark::Minus => Sign::Minus,
            Mark::Colon => Sign::Colon,
            Mark::Hash => Sign::Hash,
            Mark::Ask => Sign::Ask,
            Mark::Simplify => Sign::Simplify,
            Mark::Propagate => Sign::Propagate,
            Mark::Less => Sign::Less,
            Mark::AtMost => Sign::AtMost,
            Mark::Equal => Sign::Equal,
            Mark::AtLeast => Sign::AtLeast,
            Mark::Greater => Sign::Greater,
            Mark::Different => Sign::Different,
        }
    }
}

// The lexeme that a name is: `true` and `fail` are signs.
impl From<Name> for Lexeme {
    ghost from_gives = { λ n r. (p : ℕ) → lexeme_word p r ≡ name_word p (name_bytes n) };

    fn from(name: Name) -> Lexeme {
        if same_name(&name, &Name::truth()) {
            return Lexeme::Sign(Sign::True);
        }
        if same_name(&name, &Name::failure()) {
            return Lexeme::Sign(Sign::Fail);
        }
        Lexeme::Name(name)
    }
}

// The lexeme that a word is.
impl From<What> for Lexeme {
    ghost from_gives = { λ w r. (p : ℕ) → lexeme_word p r ≡ raw_word p (spells w) };

    fn from(what: What) -> Lexeme {
        match what {
            What::Name(name) => Lexeme::from(name),
            What::Variable(name) => Lexeme::Variable(name),
            What::Number(n) => Lexeme::Number(n),
            What::Sign(mark) => Lexeme::Sign(Sign::from(mark)),
        }
    }
}

// The token that a word is.
impl From<Word> for Token {
    ghost from_gives = { λ w r. placed r ≡ (w.place, raw_word w.place (spells w.what)) };

    fn from(word: Word) -> Token {
        Token {
            place: word.place,
            lexeme: Lexeme::from(word.what),
        }
    }
}
