// Whole texts: the rules of a book, the items of a goal.
ghost use Rattle.std.specs.Prelude.{◌≡◌};
ghost use Rattle.syntax.specs.Readers.{read_book, read_goal};
ghost use Rattle.parse.specs.Tokens.{words};
ghost use Rattle.parse.specs.Whole.{BookTold, GoalTold};

use crate::bodies::content;
use crate::cursor::Cursor;
use crate::flaw::Flaw;
use crate::rules::rule;
use crate::scope::Scope;
use crate::token::{Sign, Token};
use crate::tree::{Item, Mention, Rule};
use std::alloc::Global;

// A book has at most so many rules.
const MOST_RULES: usize = 32;

// The rules that the words of a book say.
pub fn rules(heap: Global, ts: &[Token]) -> Result<Vec<Rule>, Flaw>
    ensures { BookTold (words ts.now) result (read_book (words ts.now)) }
{
    let mut cursor = Cursor {
        heap,
        tokens: ts,
        at: 0,
    };
    let mut list = Vec::new(heap);
    while !cursor.ended() {
        if list.len() >= MOST_RULES {
            return Err(cursor.one_too_many::<Rule>());
        }
        let rule = rule(&mut cursor, &list)?;
        list.push(rule)?;
    }
    Ok(list)
}

// The items that the words of a goal say.
pub fn goal(heap: Global, ts: &[Token]) -> Result<Vec<Item<Mention>>, Flaw>
    ensures { GoalTold (words ts.now) result (read_goal (words ts.now)) }
{
    let mut cursor = Cursor {
        heap,
        tokens: ts,
        at: 0,
    };
    cursor.expect(Sign::Ask)?;
    let items = content(&mut cursor, Scope::closed(), 16)?;
    cursor.expect(Sign::Dot)?;
    if !cursor.ended() {
        return Err(Flaw::Barred(cursor.at));
    }
    Ok(items)
}
