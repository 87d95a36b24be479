// Items and alternatives of bodies and goals.
ghost use Rattle.std.specs.Prelude.{◌≡◌, vec_items};
ghost use Rattle.syntax.specs.Grammar.{same};
ghost use Rattle.syntax.specs.Readers.{read_item, read_content, read_alternative, read_body};
ghost use Rattle.syntax.specs.Tree as tree;
ghost use Rattle.parse.specs.Cursors.{rest, Tells};
ghost use Rattle.parse.specs.Facts.{same_keeps};
ghost use Rattle.parse.specs.Flat.{item_of, alternative_of, IsContent};
ghost use Rattle.parse.specs.Flaws.{AreAs};
ghost use Rattle.parse.specs.Model.{Item as PlainItem, Alternative as PlainAlternative, item as the-item, alternative as the-alternative};
ghost use Rattle.parse.specs.Scopes.{scope as scoped, scope_variables};

use crate::cursor::Cursor;
use crate::flaw::Flaw;
use crate::number::Weight;
use crate::parts::{Part, parts};
use crate::scope::Scope;
use crate::token::Sign;
use crate::tree::{Alternative, Comparison, Item, Mention};

impl<'a> Part<Scope<'a>> for Item<Mention> {
    ghost Tree = { tree.Item };

    ghost Value = { PlainItem };

    ghost view = { the-item };

    ghost value = { item_of };

    ghost next = { same };

    ghost reader = { read_item };

    ghost keeps = { same_keeps };

    fn read(cursor: &mut Cursor, scope: &mut Scope<'a>) -> Result<Item<Mention>, Flaw> {
        if cursor.name_ahead() {
            return Ok(Item::Add(Mention::read(cursor, scope)?));
        }
        if cursor.skip(Sign::Fail) {
            return Ok(Item::Fail);
        }
        Ok(Item::Tell(Comparison::read(cursor, scope)?))
    }
}

// `true`, or one to `most` items.
pub fn content(cursor: &mut Cursor, mut scope: Scope, most: u8) -> Result<Vec<Item<Mention>>, Flaw>
    ensures same { cursor.new.tokens ≡ cursor.old.tokens }
    ensures told { Tells (IsContent (scope_variables scope.entry)) result cursor.new (read_content most (scoped scope.entry) (rest cursor.old)) }
{
    if cursor.skip(Sign::True) {
        return Ok(Vec::new(cursor.heap));
    }
    parts(cursor, &mut scope, Sign::Comma, most)
}

impl<'a> Part<Scope<'a>> for Alternative<Vec<Item<Mention>>> {
    ghost Tree = { tree.Alternative };

    ghost Value = { PlainAlternative };

    ghost view = { the-alternative };

    ghost value = { alternative_of };

    ghost next = { same };

    ghost reader = { read_alternative };

    ghost keeps = { same_keeps };

    fn read(cursor: &mut Cursor, scope: &mut Scope<'a>) -> Result<Self, Flaw> {
        if !cursor.weight_ahead() {
            let items = content(cursor, *scope, 8)?;
            return Ok(Alternative {
                weight: Weight { value: 0 },
                items,
            });
        }
        let weight = cursor.weight()?;
        cursor.expect(Sign::Colon)?;
        let items = content(cursor, *scope, 8)?;
        Ok(Alternative { weight, items })
    }
}

// One to eight alternatives.
pub fn body(
    cursor: &mut Cursor,
    mut scope: Scope,
) -> Result<Vec<Alternative<Vec<Item<Mention>>>>, Flaw>
    ensures same { cursor.new.tokens ≡ cursor.old.tokens }
    ensures told { Tells (AreAs vec_items the-alternative (alternative_of (scope_variables scope.entry))) result cursor.new (read_body (scoped scope.entry) (rest cursor.old)) }
{
    parts(cursor, &mut scope, Sign::Semicolon, 8)
}
