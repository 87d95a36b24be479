// The variables that stand in a part, by their numbers.
ghost use Rattle.std.specs.Prelude.{◌≡◌};
ghost use Rattle.syntax.specs.Grammar.{Scope as GrammarScope, binding, joins};
ghost use Rattle.syntax.specs.Readers.{read_variable};
ghost use Rattle.parse.specs.Cursors.{rest, Tells};
ghost use Rattle.parse.specs.Flat.{index_of};
ghost use Rattle.parse.specs.Model.{variable_index};
ghost use Rattle.parse.specs.Scopes.{variables, scope as scoped, Grown};

use crate::cursor::Cursor;
use crate::flaw::Flaw;
use crate::number::Variable;
use crate::scope::{Names, Scope};
use crate::token::Lexeme;

// What knows the variables: the names of a rule, which new ones of its heads join, or a scope, in which none may be new.
pub trait Variables {
    ghost holds: { Self → GrammarScope };

    // A variable, by its number.
    fn variable(&mut self, cursor: &mut Cursor) -> Result<Variable, Flaw>
        ensures same { cursor.new.tokens ≡ cursor.old.tokens }
        ensures told { Tells (Grown variable_index index_of joins (holds self.old) (holds self.new)) result cursor.new (read_variable (holds self.old) (rest cursor.old)) };
}

impl Variables for Names {
    ghost holds = { λ ns. binding (variables ns) };

    fn variable(&mut self, cursor: &mut Cursor) -> Result<Variable, Flaw> {
        let Lexeme::Variable(name) = cursor.word()?.lexeme else {
            return Err(Flaw::Barred(cursor.at));
        };
        let Some(number) = self.join(name)? else {
            return Err(Flaw::TooMany(cursor.at));
        };
        cursor.at += 1;
        Ok(number)
    }
}

impl<'a> Variables for Scope<'a> {
    ghost holds = { scoped };

    fn variable(&mut self, cursor: &mut Cursor) -> Result<Variable, Flaw> {
        let Lexeme::Variable(name) = cursor.word()?.lexeme else {
            return Err(Flaw::Barred(cursor.at));
        };
        let Scope::Rule(names) = *self else {
            return Err(Flaw::InGoal(cursor.at));
        };
        if let Some(known) = names.find(&name) {
            cursor.at += 1;
            return Ok(known);
        }
        if names.is_full() {
            return Err(Flaw::TooMany(cursor.at));
        }
        Err(Flaw::Unbound(cursor.at))
    }
}
