// Parts in a row, with a mark between two.
ghost use Rattle.std.specs.Prelude.{◌≡◌, ℕ, ◌<◌, List, [], ◌∷◌, ◌++◌, length, vec_items, OnOk};
ghost use Rattle.syntax.specs.Syntax.{Reader};
ghost use Rattle.syntax.specs.Parts.{parts as grammar_parts};
ghost use Rattle.syntax.specs.Grammar.{Scope as GrammarScope, next_all};
ghost use Rattle.parse.specs.Cursors.{rest, Tells};
ghost use Rattle.parse.specs.Fews.{few_items};
ghost use Rattle.parse.specs.Rows.{row_view, row_value};
ghost use Rattle.parse.specs.Scopes.{Grown, Keeps};
ghost use Rattle.parse.specs.Tokens.{sign_code};

use crate::cursor::Cursor;
use crate::few::{Few, Room};
use crate::flaw::Flaw;
use crate::starts::Begins;
use crate::token::Sign;
use crate::variables::Variables;
use std::alloc::{AllocError, Global};

// A part that may stand in a row, with variables that S knows.
pub trait Part<S: Variables>: Begins + Drop + Sized {
    ghost Tree: { Type 0 };

    ghost Value: { Type 0 };

    ghost view: { Self → Value };

    ghost value: { List (List ℕ) → Tree → Value };

    ghost next: { GrammarScope → Tree → GrammarScope };

    ghost reader: { GrammarScope → Reader Tree };

    fn read(cursor: &mut Cursor, scope: &mut S) -> Result<Self, Flaw>
        ensures same { cursor.new.tokens ≡ cursor.old.tokens }
        ensures told { Tells (Grown view value next (S.holds scope.old) (S.holds scope.new)) result cursor.new (reader (S.holds scope.old) (rest cursor.old)) };

    ghost keeps: { Keeps next };
}

// What holds the parts of a row.
pub trait Row<T>: Drop + Sized {
    // At most how many there may be: no more than it holds.
    type Most: Copy;

    ghost held: { Self → List T };

    ghost number: { Self.Most → ℕ };

    fn number(most: Self::Most) -> u8
        ensures { result ≡ number most };

    fn new(heap: Global) -> Self
        ensures { held result ≡ [] };

    // One more behind the others, where there were fewer than it may hold.
    fn add(&mut self, x: T) -> Result<(), AllocError>
        ensures { OnOk result ((most : Self.Most) → length (held self.old) < number most → held self.new ≡ held self.old ++ x ∷ []) };
}

impl<T: Copy> Row<T> for Few<T> {
    type Most = Room;

    ghost held = { few_items };

    ghost number = { λ room. room.left };

    fn number(most: Room) -> u8 {
        most.left
    }

    fn new(_heap: Global) -> Few<T> {
        Few::Zero
    }

    fn add(&mut self, x: T) -> Result<(), AllocError> {
        *self = self.with(x);
        Ok(())
    }
}

impl<T: Drop> Row<T> for Vec<T> {
    type Most = u8;

    ghost held = { vec_items };

    ghost number = { λ n. n };

    fn number(most: u8) -> u8 {
        most
    }

    fn new(heap: Global) -> Vec<T> {
        Vec::new(heap)
    }

    fn add(&mut self, x: T) -> Result<(), AllocError> {
        self.push(x)?;
        Ok(())
    }
}

// One to `most` parts with a mark between two.
pub fn parts<R: Row<P>, P: Part<S>, S: Variables>(
    cursor: &mut Cursor,
    scope: &mut S,
    mark: Sign,
    most: R::Most,
) -> Result<R, Flaw>
    ensures same { cursor.new.tokens ≡ cursor.old.tokens }
    ensures told { Tells (Grown (row_view P.view R.held) (row_value P.value) (next_all P.next) (S.holds scope.old) (S.holds scope.new)) result cursor.new (grammar_parts P.first (sign_code mark) P.reader P.next (R.number most) (S.holds scope.old) (rest cursor.old)) }
{
    let mut row = R::new(cursor.heap);
    for _turn in 0..R::number(most) {
        let part = P::read(cursor, scope)?;
        row.add(part)?;
        if !cursor.skip(mark) {
            return Ok(row);
        }
    }
    Err(cursor.one_too_many::<P>())
}
