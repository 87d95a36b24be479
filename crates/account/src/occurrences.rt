// Where the heads of rules speak of a predicate.
ghost use Rattle.std.specs.Prelude.{◌≡◌, ◌++◌, map, OnOk, IfOk};
ghost use Rattle.parse.specs.Model.{mention};
ghost use Rattle.parse.specs.Rules.{rule_view};
ghost use Rattle.book.specs.Predicates.{coded, predicates_agree, predicate_of};
ghost use Rattle.account.specs.Occurrences.{in_rule, in_rules, in_heads, heads_of};

use book::predicate::Predicate;
use parse::tree::{Mention, Rule};
use std::alloc::{AllocError, Global};

// A rule and one of its heads, both counted from 0; the kept heads come before the removed ones.
#[derive(Clone, Copy, Debug, PartialEq, Eq)]
pub struct Occurrence {
    pub rule: usize,
    pub head: usize,
}

// Whether a fact is of a predicate.
fn is_of(fact: &Mention, predicate: &Predicate) -> bool
    ensures { result ≡ predicates_agree (predicate_of (mention fact.now)) (coded predicate.now) }
{
    Predicate::of(fact).same(predicate)
}

// The heads of a rule as written.
fn heads(heap: Global, rule: &Rule) -> Result<Vec<Mention>, AllocError>
    ensures { IfOk result (λ v. map mention v.items ≡ heads_of (rule_view rule.now)) }
{
    let mut all = Vec::new(heap);
    rule.kept.append_to(&mut all)?;
    rule.removed.append_to(&mut all)?;
    Ok(all)
}

// Adds the occurrences among the heads of one rule, from right to left.
fn add_heads(
    out: &mut Vec<Occurrence>,
    rule: usize,
    heads: &[Mention],
    predicate: &Predicate,
) -> Result<(), AllocError>
    ensures { OnOk result (out.new.items ≡ out.old.items ++ in_heads (coded predicate.now) rule 0 (map mention heads.now)) }
{
    for (head, fact) in heads.iter().enumerate().rev() {
        if is_of(fact, predicate) {
            out.push(Occurrence { rule, head })?;
        }
    }
    Ok(())
}

// Adds the occurrences in one rule.
fn add_rule(
    out: &mut Vec<Occurrence>,
    index: usize,
    rule: &Rule,
    predicate: &Predicate,
) -> Result<(), AllocError>
    ensures { OnOk result (out.new.items ≡ out.old.items ++ in_rule (coded predicate.now) index (rule_view rule.now)) }
{
    let heads = heads(*out.allocator(), rule)?;
    add_heads(out, index, &heads, predicate)
}

// The occurrences of a predicate in the order they are tried: rules downwards, heads from right to left.
pub fn occurrences(
    heap: Global,
    rules: &[Rule],
    predicate: &Predicate,
) -> Result<Vec<Occurrence>, AllocError>
    ensures { IfOk result (λ v. v.items ≡ in_rules (coded predicate.now) 0 (map rule_view rules.now)) }
{
    let mut out = Vec::new(heap);
    for (index, rule) in rules.iter().enumerate() {
        add_rule(&mut out, index, rule, predicate)?;
    }
    Ok(out)
}
