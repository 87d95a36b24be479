// Which words begin a part, and the flaw of one part too many.
ghost use Rattle.std.specs.Prelude.{◌≡◌, ℕ, List, [], ◌∷◌};
ghost use Rattle.syntax.specs.Syntax.{mem};
ghost use Rattle.syntax.specs.Readers.{name_kind, first_left, first_item, first_alternative, first_rule};
ghost use Rattle.parse.specs.Tokens.{lexeme_kind};
ghost use Rattle.parse.specs.Cursors.{whole};
ghost use Rattle.parse.specs.Starts.{Over};

use crate::cursor::Cursor;
use crate::flaw::Flaw;
use crate::token::{Lexeme, Sign};
use crate::tree::{Alternative, Comparison, Item, Mention, Rule, Term};

// A part that begins with a word of certain kinds.
pub trait Begins {
    ghost first: { List ℕ };

    fn begins(lexeme: Lexeme) -> bool
        ensures { result ≡ mem first (lexeme_kind lexeme) };
}

impl Begins for Term {
    ghost first = { first_left };

    fn begins(lexeme: Lexeme) -> bool {
        match lexeme {
            Lexeme::Variable(_) | Lexeme::Number(_) => true,
            Lexeme::Sign(s) => matches!(s, Sign::Hash | Sign::Minus),
            _ => false,
        }
    }
}

impl<R> Begins for Comparison<R> {
    ghost first = { first_left };

    fn begins(lexeme: Lexeme) -> bool {
        Term::begins(lexeme)
    }
}

impl Begins for Mention {
    ghost first = { name_kind ∷ [] };

    fn begins(lexeme: Lexeme) -> bool {
        matches!(lexeme, Lexeme::Name(_))
    }
}

impl<F> Begins for Item<F> {
    ghost first = { first_item };

    fn begins(lexeme: Lexeme) -> bool {
        match lexeme {
            Lexeme::Name(_) | Lexeme::Variable(_) | Lexeme::Number(_) => true,
            Lexeme::Sign(s) => matches!(s, Sign::Fail | Sign::Hash | Sign::Minus),
            _ => false,
        }
    }
}

impl<I> Begins for Alternative<I> {
    ghost first = { first_alternative };

    fn begins(lexeme: Lexeme) -> bool {
        match lexeme {
            Lexeme::Sign(s) => matches!(s, Sign::True | Sign::Fail | Sign::Hash | Sign::Minus),
            _ => true,
        }
    }
}

impl Begins for Rule {
    ghost first = { first_rule };

    fn begins(lexeme: Lexeme) -> bool {
        match lexeme {
            Lexeme::Name(_) => true,
            Lexeme::Sign(s) => matches!(s, Sign::True | Sign::Fail),
            _ => false,
        }
    }
}

impl<'a> Cursor<'a> {
    // The flaw of one part too many, or of the word that stands in its place.
    pub fn one_too_many<P: Begins>(&self) -> Flaw
        ensures { Over (whole self.now) result P.first self.now.at }
    {
        match self.look() {
            Some(t) if P::begins(t.lexeme) => Flaw::TooMany(self.at),
            _ => Flaw::Barred(self.at),
        }
    }
}
