// Facts and their arguments, in heads and in bodies.
ghost use Rattle.syntax.specs.Readers.{read_fact};
ghost use Rattle.syntax.specs.Tree.{Fact};
ghost use Rattle.parse.specs.Facts.{fact_keeps};
ghost use Rattle.parse.specs.Flat.{mention_of};
ghost use Rattle.parse.specs.Model.{Term as PlainTerm, Mention as PlainMention, term, mention};

use crate::cursor::Cursor;
use crate::few::{Few, Room};
use crate::flaw::Flaw;
use crate::parts::{Part, parts};
use crate::terms::Arguments;
use crate::token::Sign;
use crate::tree::{Mention, Term};

impl<S: Arguments> Part<S> for Term {
    ghost Tree = { S.Argument };

    ghost Value = { PlainTerm };

    ghost view = { term };

    ghost value = { S.argument_value };

    ghost next = { S.next_argument };

    ghost reader = { S.argument_reader };

    ghost keeps = { S.keeps };

    fn read(cursor: &mut Cursor, scope: &mut S) -> Result<Term, Flaw> {
        scope.argument(cursor)
    }
}

impl<S: Arguments> Part<S> for Mention {
    ghost Tree = { Fact S.Argument };

    ghost Value = { PlainMention };

    ghost view = { mention };

    ghost value = { λ us f. mention_of (S.argument_value us) f };

    ghost next = { S.next_fact };

    ghost reader = { read_fact S.argument_reader S.next_argument };

    ghost keeps = { fact_keeps S.next_argument S.next_fact S.keeps S.fact_grows };

    fn read(cursor: &mut Cursor, scope: &mut S) -> Result<Mention, Flaw> {
        let (place, name) = cursor.name()?;
        if !cursor.skip(Sign::Open) {
            return Ok(Mention {
                place,
                name,
                arguments: Few::Zero,
            });
        }
        let arguments = parts(cursor, scope, Sign::Comma, Room { left: 3 })?;
        cursor.expect(Sign::Close)?;
        Ok(Mention {
            place,
            name,
            arguments,
        })
    }
}
