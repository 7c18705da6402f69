ghost use Rattle.std.specs.Prelude.{◌≡◌, ◌<◌, ◌≤◌, ◌↔◌, IfOk, IfErr, OnOk, MatchResult, Some, Err, length, slice_get, remove};
ghost use Rattle.flow_goal.specs.Repeats.{HoldsNoneTwice};
ghost use Rattle.flow_model.specs.declared.limits.TheConstants.{MOST_LEAVES};
ghost use Rattle.flow_model.specs.Constraint.{Constraint};
ghost use Rattle.flow_workflow.specs.Rule.{rule_of, rules_of};
ghost use Rattle.flow_workflow.specs.Definition.{schema_of};
ghost use Rattle.flow_plan.specs.Compilation.{IsWithinLimits};
ghost use Rattle.flow_excise.specs.Options.{schema_with};
ghost use Rattle.flow_verify.specs.declared.refusal.VerifyRefusal.TheVariants.{NoMemory, NoRule};
ghost use Rattle.flow_verify.specs.Verification.{against, without, TellsOfProperty, TellsOfConstraint, IsRefused};

use crate::answers::{Redundancy, Verified};
use crate::execution::good_execution;
use crate::refusal::VerifyRefusal;
use flow_goal::Tree;
use flow_workflow::{Rule, Workflow};
use std::alloc::{AllocError, Global};

/// The rules of a workflow in memory of their own.
fn copied_rules(alloc: Global, workflow: &Workflow) -> Result<Vec<Rule>, AllocError>
    ensures { IfOk result (λ rules. rules_of rules.items ≡ workflow.now.rules) }
{
    let rules = workflow.rules();
    let mut copies = Vec::with_capacity(alloc, rules.len())?;
    for rule in rules {
        copies.push(rule.copy(alloc)?)?;
    }
    Ok(copies)
}

/// The rules of a workflow without the one of that index, and that one.
fn parted(
    alloc: Global,
    workflow: &Workflow,
    index: u32,
) -> Result<(Vec<Rule>, Rule), VerifyRefusal>
    ensures no_rule { (result ≡ Err (NoRule index)) ↔ (length workflow.now.rules ≤ index) }
    ensures memory { index < length workflow.now.rules → IfErr result (λ refusal. refusal ≡ NoMemory) }
    ensures others { IfOk result (λ parts. rules_of parts.0.items ≡ remove workflow.now.rules index) }
    ensures rule { IfOk result (λ parts. slice_get workflow.now.rules index ≡ Some (rule_of parts.1)) }
{
    if index as usize >= workflow.rules().len() {
        return Err(VerifyRefusal::NoRule { index });
    }
    let mut others = copied_rules(alloc, workflow)?;
    let rule = others.remove(index as usize);
    Ok((others, rule))
}

/// Whether every execution of the tree that meets the rules meets the property. It fails just where
/// some execution meets the rules and the negation of the property.
fn verify_tree(
    alloc: Global,
    tree: &Tree,
    mut rules: Vec<Rule>,
    property: Rule,
) -> Result<Verified, VerifyRefusal>
    requires unique { HoldsNoneTwice tree.now }
    requires small { length tree.now.labels ≤ MOST_LEAVES }
    ensures { MatchResult result
        (λ told. IsWithinLimits (against (schema_with tree.now (rules_of rules.items)) (rule_of property))
        × TellsOfProperty (schema_with tree.now (rules_of rules.items)) (rule_of property) told)
        (IsRefused (against (schema_with tree.now (rules_of rules.items)) (rule_of property))) }
{
    rules.push(Rule::Not(Box::new(alloc, property)?))?;
    match good_execution(alloc, tree, &rules)? {
        Some(execution) => Ok(Verified::Fails(execution)),
        None => Ok(Verified::Holds),
    }
}

/// Whether every execution that meets the constraints meets the property.
pub fn verify(
    alloc: Global,
    workflow: &Workflow,
    property: &Rule,
) -> Result<Verified, VerifyRefusal>
    ensures told { IfOk result (TellsOfProperty (schema_of workflow.now) (rule_of property.now)) }
    ensures within { OnOk result (IsWithinLimits (against (schema_of workflow.now) (rule_of property.now))) }
    ensures refused { IfErr result (IsRefused (against (schema_of workflow.now) (rule_of property.now))) }
{
    let rules = copied_rules(alloc, workflow)?;
    verify_tree(alloc, workflow.tree(), rules, property.copy(alloc)?)
}

/// Whether every execution that meets the other constraints meets the one of that index.
pub fn redundant(
    alloc: Global,
    workflow: &Workflow,
    index: u32,
) -> Result<Redundancy, VerifyRefusal>
    ensures no_rule { (result ≡ Err (NoRule index)) ↔ (length workflow.now.rules ≤ index) }
    ensures told { IfOk result (TellsOfConstraint (schema_of workflow.now) index) }
    ensures within { (rule : Constraint) → slice_get workflow.now.rules index ≡ Some rule →
        OnOk result (IsWithinLimits (against (without (schema_of workflow.now) index) rule)) }
    ensures refused { (rule : Constraint) → slice_get workflow.now.rules index ≡ Some rule →
        IfErr result (IsRefused (against (without (schema_of workflow.now) index) rule)) }
{
    let (others, rule) = parted(alloc, workflow, index)?;
    match verify_tree(alloc, workflow.tree(), others, rule)? {
        Verified::Holds => Ok(Redundancy::Redundant),
        Verified::Fails(execution) => Ok(Redundancy::Needed(execution)),
    }
}
