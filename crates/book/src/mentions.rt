// The facts that rules mention, in the order of the text.
ghost use Rattle.std.specs.Prelude.{◌≡◌, [], ◌++◌, map, IfOk, OnOk};
ghost use Rattle.parse.specs.Model.{mention, item as the-item, alternative};
ghost use Rattle.parse.specs.Rules.{rule_view};
ghost use Rattle.book.specs.Mentions.{in_item, in_items, in_body, in_rule, in_rules};

use parse::tree::{Alternative, Item, Mention, Rule};
use std::alloc::{AllocError, Global};

fn add_item(out: &mut Vec<Mention>, item: Item<Mention>) -> Result<(), AllocError>
    ensures { OnOk result (map mention out.new.items ≡ map mention out.old.items ++ in_item (the-item item)) }
{
    match item {
        Item::Add(fact) => Ok(out.push(fact)?),
        Item::Tell(_) | Item::Fail => Ok(()),
    }
}

fn add_items(out: &mut Vec<Mention>, items: &[Item<Mention>]) -> Result<(), AllocError>
    ensures { OnOk result (map mention out.new.items ≡ map mention out.old.items ++ in_items (map the-item items.now)) }
{
    for item in items {
        add_item(out, *item)?;
    }
    Ok(())
}

fn add_body(
    out: &mut Vec<Mention>,
    body: &[Alternative<Vec<Item<Mention>>>],
) -> Result<(), AllocError>
    ensures { OnOk result (map mention out.new.items ≡ map mention out.old.items ++ in_body (map alternative body.now)) }
{
    for alternative in body {
        add_items(out, &alternative.items)?;
    }
    Ok(())
}

fn add_rule(out: &mut Vec<Mention>, rule: &Rule) -> Result<(), AllocError>
    ensures { OnOk result (map mention out.new.items ≡ map mention out.old.items ++ in_rule (rule_view rule.now)) }
{
    rule.kept.append_to(out)?;
    rule.removed.append_to(out)?;
    add_body(out, &rule.body)?;
    Ok(())
}

// All facts that some rules mention.
pub fn mentions(heap: Global, rules: &[Rule]) -> Result<Vec<Mention>, AllocError>
    ensures { IfOk result (λ v. map mention v.items ≡ in_rules (map rule_view rules.now)) }
{
    let mut out = Vec::new(heap);
    for rule in rules {
        add_rule(&mut out, rule)?;
    }
    Ok(out)
}

// All facts that a goal's items mention.
pub fn in_goal(heap: Global, items: &[Item<Mention>]) -> Result<Vec<Mention>, AllocError>
    ensures { IfOk result (λ v. map mention v.items ≡ in_items (map the-item items.now)) }
{
    let mut out = Vec::new(heap);
    add_items(&mut out, items)?;
    Ok(out)
}
