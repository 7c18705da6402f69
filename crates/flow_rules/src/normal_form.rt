ghost use Rattle.std.specs.Prelude.{◌≡◌, ℕ, Option, true, IfOk, map};
ghost use Rattle.flow_model.specs.Ways as model;
ghost use Rattle.flow_workflow.specs.Rule.{rule_of};
ghost use Rattle.flow_rules.specs.NormalForm as tree;
ghost use Rattle.flow_rules.specs.NormalForm.{form_of};
ghost use Rattle.flow_rules.specs.Normal.{normal_of, normals_of, linked, pair_form, all_form, split_chain, split_form};

use crate::connective::joining;
use crate::normal::Nnf;
use flow_workflow::Rule;
use std::alloc::{AllocError, Global};

/// Each event with the next one.
fn pairs(alloc: Global, first: u32, rest: &[u32], wanted: bool) -> Result<Vec<Nnf>, AllocError>
    ensures tree { IfOk result (λ pairs. map form_of pairs.items ≡ linked (tree.order_form wanted) first rest.now) }
    ensures normal { IfOk result (λ pairs. normals_of pairs.items ≡ linked (pair_form wanted) first rest.now) }
{
    let mut pairs = Vec::new(alloc);
    let mut earlier = first;
    for event in rest {
        pairs.push(Nnf::Order(wanted, earlier, *event))?;
        earlier = *event;
    }
    Ok(pairs)
}

/// All of the parts, or one of them where they are parts of a negation.
fn all(parts: Vec<Nnf>, wanted: bool) -> Nnf
    ensures tree { form_of result ≡ tree.list_form wanted (map form_of parts.items) }
    ensures normal { normal_of result ≡ all_form wanted (normals_of parts.items) }
{
    Nnf::Parts(joining(wanted), parts)
}

/// An order of events, or its negation where it is not wanted.
fn chain(alloc: Global, events: &[u32], wanted: bool) -> Result<Nnf, AllocError>
    ensures tree { IfOk result (λ normal. form_of normal ≡ tree.chain_form wanted events.now) }
    ensures normal { IfOk result (λ normal. normal_of normal ≡ split_chain wanted events.now) }
{
    match events {
        [] => Ok(all(Vec::new(alloc), wanted)),
        [only] => Ok(Nnf::Event(wanted, *only)),
        [first, rest @ ..] => Ok(all(pairs(alloc, *first, rest, wanted)?, wanted)),
    }
}

/// Each of the rules, or its negation where it is not wanted.
#[cycle(normalizing)]
pub(crate) fn normal_forms(
    alloc: Global,
    rules: &[Rule],
    wanted: bool,
) -> Result<Vec<Nnf>, AllocError>
    ensures tree { IfOk result (λ forms. map form_of forms.items ≡ map (λ rule. tree.rule_form rule wanted) rules.now) }
    ensures normal { IfOk result (λ forms. normals_of forms.items ≡ map (λ rule. split_form (rule_of rule) wanted) rules.now) }
{
    let mut forms = Vec::new(alloc);
    for rule in rules {
        forms.push(normal(alloc, rule, wanted)?)?;
    }
    Ok(forms)
}

/// The rule, or its negation where it is not wanted.
#[cycle(normalizing)]
fn normal(alloc: Global, rule: &Rule, wanted: bool) -> Result<Nnf, AllocError>
    ensures tree { IfOk result (λ normal. form_of normal ≡ tree.rule_form rule.now wanted) }
    ensures normal { IfOk result (λ normal. normal_of normal ≡ split_form (rule_of rule.now) wanted) }
{
    match rule {
        Rule::Must(event) => Ok(Nnf::Event(wanted, *event)),
        Rule::Never(event) => Ok(Nnf::Event(!wanted, *event)),
        Rule::Order(events) => chain(alloc, events, wanted),
        Rule::Not(part) => normal(alloc, part, !wanted),
        Rule::And(rules) => Ok(all(normal_forms(alloc, rules, wanted)?, wanted)),
        Rule::Or(rules) => Ok(all(normal_forms(alloc, rules, wanted)?, !wanted)),
    }
}

/// The rule with its orders split into pairs, and negation carried inward.
pub fn nnf(alloc: Global, rule: &Rule) -> Result<Nnf, AllocError>
    ensures tree { IfOk result (λ normal. form_of normal ≡ tree.rule_form rule.now true) }
    ensures ways { IfOk result (λ normal. (leaf : ℕ → Option ℕ) →
        model.ways (normal_of normal) leaf ≡ model.ways (model.normal_form (rule_of rule.now) true) leaf) }
{
    normal(alloc, rule, true)
}
