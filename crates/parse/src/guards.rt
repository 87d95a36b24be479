// Comparisons and guards.
ghost use Rattle.std.specs.Prelude.{◌≡◌};
ghost use Rattle.syntax.specs.Grammar.{same};
ghost use Rattle.syntax.specs.Readers.{read_comparison, read_guard};
ghost use Rattle.syntax.specs.Tree as tree;
ghost use Rattle.parse.specs.Cursors.{rest, Tells};
ghost use Rattle.parse.specs.Facts.{same_keeps};
ghost use Rattle.parse.specs.Flat.{IsGuard};
ghost use Rattle.parse.specs.Relations.{compared_view, compared_value};
ghost use Rattle.parse.specs.Scopes.{scope as scoped, scope_variables};
ghost use Rattle.parse.specs.Tokens.{sign_code};

use crate::cursor::Cursor;
use crate::flaw::Flaw;
use crate::parts::{Part, parts};
use crate::relations::Relates;
use crate::scope::Scope;
use crate::terms::{left, right};
use crate::token::Sign;
use crate::tree::{Asking, Comparison};

impl<'a, R: Relates> Part<Scope<'a>> for Comparison<R> {
    ghost Tree = { tree.Comparison R.Tree };

    ghost Value = { R.Value };

    ghost view = { compared_view R.made };

    ghost value = { compared_value R.made R.plain };

    ghost next = { same };

    ghost reader = { read_comparison R.reader };

    ghost keeps = { same_keeps };

    fn read(cursor: &mut Cursor, scope: &mut Scope<'a>) -> Result<Comparison<R>, Flaw> {
        let left = left(cursor, scope)?;
        let relation = cursor.relation()?;
        let right = right(cursor, scope)?;
        Ok(Comparison {
            left,
            relation,
            right,
        })
    }
}

// An arrow's marks: with no guard, and where a guard follows.
#[derive(Clone, Copy)]
pub struct Marks {
    pub plain: Sign,
    pub guarding: Sign,
}

pub const SIMPLIFY: Marks = Marks {
    plain: Sign::Simplify,
    guarding: Sign::SimplifyGuarded,
};

pub const PROPAGATE: Marks = Marks {
    plain: Sign::Propagate,
    guarding: Sign::PropagateGuarded,
};

// An arrow with its guard, if it has one.
pub fn guard(cursor: &mut Cursor, mut scope: Scope, marks: Marks) -> Result<Vec<Asking>, Flaw>
    ensures same { cursor.new.tokens ≡ cursor.old.tokens }
    ensures told { Tells (IsGuard (scope_variables scope.entry)) result cursor.new (read_guard (sign_code marks.plain) (sign_code marks.guarding) (scoped scope.entry) (rest cursor.old)) }
{
    if !cursor.skip(marks.guarding) {
        cursor.expect(marks.plain)?;
        return Ok(Vec::new(cursor.heap));
    }
    let list = parts(cursor, &mut scope, Sign::Comma, 4)?;
    cursor.expect(Sign::Bar)?;
    Ok(list)
}
