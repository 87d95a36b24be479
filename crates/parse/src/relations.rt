// The relations that marks stand for.
ghost use Rattle.std.specs.Prelude.{◌≡◌, Some, None, MatchResult};
ghost use Rattle.syntax.specs.Syntax.{Reader};
ghost use Rattle.syntax.specs.Readers.{read_relation, read_telling};
ghost use Rattle.syntax.specs.Tree as tree;
ghost use Rattle.parse.specs.Cursors.{rest, Tells};
ghost use Rattle.parse.specs.Flat.{sign_relation, sign_telling, tree_relation, tree_telling};
ghost use Rattle.parse.specs.Flaws.{IsBy};
ghost use Rattle.parse.specs.Model.{Term, Asking, Tell};
ghost use Rattle.parse.specs.Relations.{IsReader, asking_made, tell_made, relation_reader, telling_reader};

use crate::cursor::Cursor;
use crate::flaw::Flaw;
use crate::token::{Lexeme, Sign};
use cells::relations::{Relation, Telling};

// A mark that stands for no such relation.
#[derive(Clone, Copy, Debug, PartialEq, Eq)]
pub struct NoRelation;

impl TryFrom<Sign> for Relation {
    type Error = NoRelation;

    ghost try_from_gives = { λ m r. MatchResult r (λ x. sign_relation m ≡ Some x) (λ _. sign_relation m ≡ None) };

    fn try_from(mark: Sign) -> Result<Relation, NoRelation> {
        match mark {
            Sign::Less => Ok(Relation::Less),
            Sign::AtMost => Ok(Relation::AtMost),
            Sign::Equal => Ok(Relation::Equal),
            Sign::AtLeast => Ok(Relation::AtLeast),
            Sign::Greater => Ok(Relation::Greater),
            Sign::Different => Ok(Relation::Different),
            _ => Err(NoRelation),
        }
    }
}

impl TryFrom<Sign> for Telling {
    type Error = NoRelation;

    ghost try_from_gives = { λ m r. MatchResult r (λ x. sign_telling m ≡ Some x) (λ _. sign_telling m ≡ None) };

    fn try_from(mark: Sign) -> Result<Telling, NoRelation> {
        match mark {
            Sign::Less => Ok(Telling::Less),
            Sign::AtMost => Ok(Telling::AtMost),
            Sign::Equal => Ok(Telling::Equal),
            Sign::AtLeast => Ok(Telling::AtLeast),
            Sign::Greater => Ok(Telling::Greater),
            _ => Err(NoRelation),
        }
    }
}

// A relation by which two sides may be compared.
pub trait Relates: TryFrom<Sign, Error = NoRelation> + Copy {
    ghost Tree: { Type 0 };

    ghost plain: { Tree → Self };

    ghost reader: { Reader Tree };

    ghost Value: { Type 0 };

    ghost made: { Term → Self → Term → Value };

    ghost reads: { IsReader Self.try_from_gives plain reader };
}

impl Relates for Relation {
    ghost Tree = { tree.Relation };

    ghost plain = { tree_relation };

    ghost reader = { read_relation };

    ghost Value = { Asking };

    ghost made = { asking_made };

    ghost reads = { relation_reader };
}

impl Relates for Telling {
    ghost Tree = { tree.Telling };

    ghost plain = { tree_telling };

    ghost reader = { read_telling };

    ghost Value = { Tell };

    ghost made = { tell_made };

    ghost reads = { telling_reader };
}

impl<'a> Cursor<'a> {
    // A relation.
    pub fn relation<R: Relates>(&mut self) -> Result<R, Flaw>
        ensures same { self.new.tokens ≡ self.old.tokens }
        ensures told { Tells (IsBy R.plain) result self.new (R.reader (rest self.old)) }
    {
        let Lexeme::Sign(mark) = self.word()?.lexeme else {
            return Err(Flaw::Barred(self.at));
        };
        let Ok(relation) = R::try_from(mark) else {
            return Err(Flaw::Barred(self.at));
        };
        self.at += 1;
        Ok(relation)
    }
}
