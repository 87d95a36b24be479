// Single words, from a place on.
ghost use Rattle.std.specs.Prelude.{◌≡◌, ℕ, ◌+◌, ◌<◌, true, [], ◌∷◌, length, drop, OnSome};
ghost use Rattle.syntax.specs.Syntax.{kind, sign, ahead};
ghost use Rattle.words.specs.Names.{name_bytes};
ghost use Rattle.syntax.specs.Grammar.{among};
ghost use Rattle.syntax.specs.Parts.{mark as marked};
ghost use Rattle.syntax.specs.Marks.{propagate, propagate_guarded};
ghost use Rattle.syntax.specs.Readers.{name_kind, variable_kind, weight_kind, read_name, read_digits, read_cell_number, read_weight, read_label};
ghost use Rattle.parse.specs.Tokens.{ahead_of, sign_code};
ghost use Rattle.parse.specs.Model.{count, cell_index, weight_value};
ghost use Rattle.parse.specs.Rules.{labels};
ghost use Rattle.parse.specs.Scopes.{Labels};
ghost use Rattle.parse.specs.Flaws.{IsTo, IsName, IsLabel};
ghost use Rattle.parse.specs.Cursors.{whole, rest, Ended, Stands, Passes, Skips, Tells};

use crate::flaw::Flaw;
use crate::number::{Cell, Weight};
use crate::token::{Lexeme, Sign, Token};
use crate::tree::Rule;
use std::alloc::Global;
use words::count::Count;
use words::name::Name;
use words::name::spelling::same_name;

// A place among the words, and the memory for what is read there.
#[derive(Clone, Copy, Debug)]
pub struct Cursor<'a> {
    pub heap: Global,
    pub tokens: &'a [Token],
    pub at: usize,
}

impl<'a> Cursor<'a> {
    // The word ahead.
    pub fn look(&self) -> Option<Token>
        ensures inside { OnSome result (self.now.at < length self.now.tokens.now) }
        ensures seen { rest self.now ≡ ahead_of result (drop (self.now.at + 1) (whole self.now)) }
    {
        self.tokens.get(self.at).copied()
    }

    // Whether no word is left.
    pub fn ended(&self) -> bool
        ensures { Ended result self.now }
    {
        self.look().is_none()
    }

    // The word ahead, which has to be there.
    pub fn word(&self) -> Result<Token, Flaw>
        ensures { Stands result self.now }
    {
        self.look().ok_or(Flaw::Barred(self.at))
    }

    pub fn name_ahead(&self) -> bool
        ensures { result ≡ ahead (name_kind ∷ []) (rest self.now) }
    {
        self.look()
            .is_some_and(|t| matches!(t.lexeme, Lexeme::Name(_)))
    }

    pub fn variable_ahead(&self) -> bool
        ensures { result ≡ ahead (variable_kind ∷ []) (rest self.now) }
    {
        self.look()
            .is_some_and(|t| matches!(t.lexeme, Lexeme::Variable(_)))
    }

    pub fn weight_ahead(&self) -> bool
        ensures { result ≡ ahead (weight_kind ∷ []) (rest self.now) }
    {
        self.look()
            .is_some_and(|t| matches!(t.lexeme, Lexeme::Weight(_)))
    }

    pub fn mark_ahead(&self, mark: Sign) -> bool
        ensures value { result ≡ ahead (kind (sign (sign_code mark)) ∷ []) (rest self.now) }
        ensures inside { result ≡ true → self.now.at < length self.now.tokens.now }
    {
        self.look()
            .is_some_and(|t| matches!(t.lexeme, Lexeme::Sign(sign) if sign == mark))
    }

    // Takes a mark, where it stands.
    pub fn skip(&mut self, mark: Sign) -> bool
        ensures same { self.new.tokens ≡ self.old.tokens }
        ensures told { Skips (sign_code mark) self.old result self.new }
    {
        if !self.mark_ahead(mark) {
            return false;
        }
        self.at += 1;
        true
    }

    // Takes a mark, which has to stand here.
    pub fn expect(&mut self, mark: Sign) -> Result<(), Flaw>
        ensures same { self.new.tokens ≡ self.old.tokens }
        ensures told { Passes result self.new (marked (sign_code mark) (rest self.old)) }
    {
        if !self.skip(mark) {
            return Err(Flaw::Barred(self.at));
        }
        Ok(())
    }

    pub fn number(&mut self) -> Result<Count, Flaw>
        ensures same { self.new.tokens ≡ self.old.tokens }
        ensures told { Tells (IsTo count) result self.new (read_digits (rest self.old)) }
    {
        let Lexeme::Number(n) = self.word()?.lexeme else {
            return Err(Flaw::Barred(self.at));
        };
        self.at += 1;
        Ok(n)
    }

    // The number of a cell, up to 31.
    pub fn cell_number(&mut self) -> Result<Cell, Flaw>
        ensures same { self.new.tokens ≡ self.old.tokens }
        ensures told { Tells (IsTo cell_index) result self.new (read_cell_number (rest self.old)) }
    {
        let Lexeme::Number(n) = self.word()?.lexeme else {
            return Err(Flaw::Barred(self.at));
        };
        let Ok(cell) = Cell::try_from(n) else {
            return Err(Flaw::TooMany(self.at));
        };
        self.at += 1;
        Ok(cell)
    }

    // A weight, up to 1,000.
    pub fn weight(&mut self) -> Result<Weight, Flaw>
        ensures same { self.new.tokens ≡ self.old.tokens }
        ensures told { Tells (IsTo weight_value) result self.new (read_weight (rest self.old)) }
    {
        let Lexeme::Weight(n) = self.word()?.lexeme else {
            return Err(Flaw::Barred(self.at));
        };
        let Ok(weight) = Weight::try_from(n) else {
            return Err(Flaw::TooMany(self.at));
        };
        self.at += 1;
        Ok(weight)
    }

    // A name with its place.
    pub fn name(&mut self) -> Result<(usize, Name), Flaw>
        ensures same { self.new.tokens ≡ self.old.tokens }
        ensures told { Tells IsName result self.new (read_name (rest self.old)) }
    {
        let t = self.word()?;
        let Lexeme::Name(name) = t.lexeme else {
            return Err(Flaw::Barred(self.at));
        };
        self.at += 1;
        Ok((t.place, name))
    }

    // A rule's name, which no rule before has.
    pub fn label(&mut self, rules: &[Rule]) -> Result<Name, Flaw>
        ensures same { self.new.tokens ≡ self.old.tokens }
        ensures told { Tells IsLabel result self.new (read_label (labels rules.now) (rest self.old)) }
    {
        let Some(name) = label_of(self.word()?.lexeme) else {
            return Err(Flaw::Barred(self.at));
        };
        if is_taken(rules, &name) {
            return Err(Flaw::Reused(self.at));
        }
        self.at += 1;
        Ok(name)
    }

    // Whether `==>` stands here, with a guard behind it or not.
    pub fn propagates(&self) -> bool
        ensures { result ≡ ahead (kind (sign propagate) ∷ kind (sign propagate_guarded) ∷ []) (rest self.now) }
    {
        self.mark_ahead(Sign::Propagate) || self.mark_ahead(Sign::PropagateGuarded)
    }
}

// The word `true` or `fail` as a name.
fn reserved_name(mark: Sign) -> Option<Name>
    ensures { Labels (Lexeme.Sign mark) result }
{
    match mark {
        Sign::True => Some(Name::truth()),
        Sign::Fail => Some(Name::failure()),
        _ => None,
    }
}

// The name that may stand before a rule's `@`.
fn label_of(lexeme: Lexeme) -> Option<Name>
    ensures { Labels lexeme result }
{
    match lexeme {
        Lexeme::Name(name) => Some(name),
        Lexeme::Sign(mark) => reserved_name(mark),
        _ => None,
    }
}

// Whether one of the rules has a name.
fn is_taken(rules: &[Rule], name: &Name) -> bool
    ensures { result ≡ among (labels rules.now) (name_bytes name.now) }
{
    rules.iter().any(|rule| same_name(&rule.label, name))
}
