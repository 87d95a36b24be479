// Sides of comparisons and arguments of facts.
ghost use Rattle.std.specs.Prelude.{◌≡◌, ℕ, List};
ghost use Rattle.syntax.specs.Syntax.{Reader};
ghost use Rattle.syntax.specs.Grammar.{Scope as GrammarScope, same, next_left, next_head};
ghost use Rattle.syntax.specs.Readers.{read_number, read_left, read_right, read_sum, read_argument};
ghost use Rattle.syntax.specs.Tree as tree;
ghost use Rattle.parse.specs.Cursors.{rest, Tells};
ghost use Rattle.parse.specs.Flat.{IsNumber, IsSum, left_term, right_term, argument_term, offset_value, sum_of};
ghost use Rattle.parse.specs.Model.{Term as PlainTerm, term};
ghost use Rattle.parse.specs.Scopes.{scope as scoped, Grown, Keeps};
ghost use Rattle.parse.specs.Facts.{FactGrows, left_keeps, head_grows, same_keeps, adding_grows};

use crate::cursor::Cursor;
use crate::flaw::Flaw;
use crate::number::{Number, Variable};
use crate::scope::{Names, Scope};
use crate::token::Sign;
use crate::tree::Term;
use crate::variables::Variables;

impl<'a> Cursor<'a> {
    // A signed number.
    pub fn signed(&mut self) -> Result<Number, Flaw>
        ensures same { self.new.tokens ≡ self.old.tokens }
        ensures told { Tells IsNumber result self.new (read_number (rest self.old)) }
    {
        if self.skip(Sign::Minus) {
            return Ok(-Number::from(self.number()?));
        }
        Ok(Number::from(self.number()?))
    }

    // What is added to a variable, if anything is.
    fn offset(&mut self) -> Result<Option<Number>, Flaw>
        ensures same { self.new.tokens ≡ self.old.tokens }
        ensures told { Tells IsSum result self.new (read_sum (rest self.old)) }
    {
        if self.skip(Sign::Plus) {
            return Ok(Some(Number::from(self.number()?)));
        }
        if self.skip(Sign::Minus) {
            return Ok(Some(-Number::from(self.number()?)));
        }
        Ok(None)
    }
}

// The left side of a comparison, or an argument of a head.
pub fn left<S: Variables>(cursor: &mut Cursor, scope: &mut S) -> Result<Term, Flaw>
    ensures same { cursor.new.tokens ≡ cursor.old.tokens }
    ensures told { Tells (Grown term left_term next_left (S.holds scope.old) (S.holds scope.new)) result cursor.new (read_left (S.holds scope.old) (rest cursor.old)) }
{
    if cursor.skip(Sign::Hash) {
        return Ok(Term::Cell(cursor.cell_number()?));
    }
    if cursor.variable_ahead() {
        return Ok(Term::Variable(scope.variable(cursor)?));
    }
    Ok(Term::Number(cursor.signed()?))
}

// A variable with what is added to it.
fn summed(v: Variable, offset: Option<Number>) -> Term
    ensures { term result ≡ sum_of v.index (offset_value offset) }
{
    match offset {
        Some(n) => Term::Sum(v, n),
        None => Term::Variable(v),
    }
}

// The right side of a comparison.
pub fn right(cursor: &mut Cursor, scope: &mut Scope) -> Result<Term, Flaw>
    ensures same { cursor.new.tokens ≡ cursor.old.tokens }
    ensures told { Tells (Grown term right_term same (scoped scope.old) (scoped scope.new)) result cursor.new (read_right (scoped scope.old) (rest cursor.old)) }
{
    if !cursor.variable_ahead() {
        return Ok(Term::Number(cursor.signed()?));
    }
    let v = scope.variable(cursor)?;
    Ok(summed(v, cursor.offset()?))
}

// What knows the variables, and with them how a fact's arguments are read.
pub trait Arguments: Variables {
    ghost Argument: { Type 0 };

    ghost argument_value: { List (List ℕ) → Argument → PlainTerm };

    ghost next_argument: { GrammarScope → Argument → GrammarScope };

    ghost argument_reader: { GrammarScope → Reader Argument };

    ghost next_fact: { GrammarScope → tree.Fact Argument → GrammarScope };

    // An argument of a fact.
    fn argument(&mut self, cursor: &mut Cursor) -> Result<Term, Flaw>
        ensures same { cursor.new.tokens ≡ cursor.old.tokens }
        ensures told { Tells (Grown term argument_value next_argument (Self.holds self.old) (Self.holds self.new)) result cursor.new (argument_reader (Self.holds self.old) (rest cursor.old)) };

    ghost keeps: { Keeps next_argument };

    ghost fact_grows: { FactGrows next_argument next_fact };
}

impl Arguments for Names {
    ghost Argument = { tree.Left };

    ghost argument_value = { left_term };

    ghost next_argument = { next_left };

    ghost argument_reader = { read_left };

    ghost next_fact = { next_head };

    ghost keeps = { left_keeps };

    ghost fact_grows = { head_grows };

    fn argument(&mut self, cursor: &mut Cursor) -> Result<Term, Flaw> {
        left(cursor, self)
    }
}

impl<'a> Arguments for Scope<'a> {
    ghost Argument = { tree.Argument };

    ghost argument_value = { argument_term };

    ghost next_argument = { same };

    ghost argument_reader = { read_argument };

    ghost next_fact = { same };

    ghost keeps = { same_keeps };

    ghost fact_grows = { adding_grows };

    fn argument(&mut self, cursor: &mut Cursor) -> Result<Term, Flaw> {
        if cursor.skip(Sign::Hash) {
            return Ok(Term::Cell(cursor.cell_number()?));
        }
        right(cursor, self)
    }
}
