// Rules.
ghost use Rattle.std.specs.Prelude.{◌≡◌, length};
ghost use Rattle.syntax.specs.Grammar.{binding};
ghost use Rattle.syntax.specs.Readers.{read_rule};
ghost use Rattle.parse.specs.Cursors.{rest, Tells};
ghost use Rattle.parse.specs.Fews.{few_items};
ghost use Rattle.parse.specs.Flaws.{IsAs};
ghost use Rattle.parse.specs.Rules.{arrow_from, IsArrow, labels, rule_view, rule_model};
ghost use Rattle.parse.specs.Scopes.{variables};

use crate::bodies::body;
use crate::cursor::Cursor;
use crate::few::{Few, Room};
use crate::flaw::Flaw;
use crate::guards::{PROPAGATE, SIMPLIFY, guard};
use crate::parts::parts;
use crate::scope::{Names, Scope};
use crate::token::Sign;
use crate::tree::{Arrow, Mention, Rule};

// What stands between the first heads and the body.
fn arrow(cursor: &mut Cursor, names: &mut Names, first: Few<Mention>) -> Result<Arrow, Flaw>
    ensures same { cursor.new.tokens ≡ cursor.old.tokens }
    ensures told { Tells (IsArrow (variables names.old) (variables names.new) first) result cursor.new (arrow_from (length (few_items first)) (binding (variables names.old)) (rest cursor.old)) }
{
    if cursor.skip(Sign::Backslash) {
        let removed = parts(cursor, names, Sign::Comma, first.room())?;
        let guard = guard(cursor, Scope::Rule(names), SIMPLIFY)?;
        return Ok(Arrow {
            kept: first,
            removed,
            guard,
        });
    }
    if cursor.propagates() {
        let guard = guard(cursor, Scope::Rule(names), PROPAGATE)?;
        return Ok(Arrow {
            kept: first,
            removed: Few::Zero,
            guard,
        });
    }
    let guard = guard(cursor, Scope::Rule(names), SIMPLIFY)?;
    Ok(Arrow {
        kept: Few::Zero,
        removed: first,
        guard,
    })
}

// A rule whose name no rule before has.
pub fn rule(cursor: &mut Cursor, rules: &[Rule]) -> Result<Rule, Flaw>
    ensures same { cursor.new.tokens ≡ cursor.old.tokens }
    ensures told { Tells (IsAs rule_view rule_model) result cursor.new (read_rule (labels rules.now) (rest cursor.old)) }
{
    let label = cursor.label(rules)?;
    cursor.expect(Sign::At)?;
    let mut names = Names::new(cursor.heap);
    let first = parts(cursor, &mut names, Sign::Comma, Room { left: 3 })?;
    let Arrow {
        kept,
        removed,
        guard,
    } = arrow(cursor, &mut names, first)?;
    let body = body(cursor, Scope::Rule(&names))?;
    cursor.expect(Sign::Dot)?;
    Ok(Rule {
        label,
        variables: names,
        kept,
        removed,
        guard,
        body,
    })
}
