//! Final events behind which a failure has no way out.
ghost use Rattle.std.specs.Prelude.{◌≡◌, ◌↔◌, IsTrue, IfOk};
ghost use Rattle.flow_model.specs.Constraint.{Must};
ghost use Rattle.flow_workflow.specs.Definition.{schema_of};
ghost use Rattle.flow_workflow.specs.Rule.{rule_of};
ghost use Rattle.flow_policy_lint.specs.Findings.{if_then, before_if_both, IsAlways, IsNotAlways, IsStuck, IsStuckBehind};

use crate::met::{is_always, is_not_always};
use crate::pairs::PairQuestion;
use flow_case::CaseRules;
use flow_workflow::{Rule, Workflow};
use std::alloc::{AllocError, Global};

/// If the one event happens, then the other does.
fn if_then(alloc: Global, one: u32, two: u32) -> Result<Rule, AllocError>
    ensures { IfOk result (λ rule. rule_of rule ≡ if_then one two) }
{
    let mut parts = Vec::new(alloc);
    parts.push(Rule::Never(one))?;
    parts.push(Rule::Must(two))?;
    Ok(Rule::Or(parts))
}

/// If both events happen, then the one before the other.
fn before_if_both(alloc: Global, one: u32, two: u32) -> Result<Rule, AllocError>
    ensures { IfOk result (λ rule. rule_of rule ≡ before_if_both one two) }
{
    let mut order = Vec::new(alloc);
    order.push(one)?;
    order.push(two)?;
    let mut parts = Vec::new(alloc);
    parts.push(Rule::Never(one))?;
    parts.push(Rule::Never(two))?;
    parts.push(Rule::Order(order))?;
    Ok(Rule::Or(parts))
}

/// Whether each execution with the first event has the second.
fn comes_with(alloc: Global, workflow: &Workflow, last: u32, task: u32) -> Result<bool, AllocError>
    ensures { IfOk result (λ so. IsTrue so ↔ IsAlways (schema_of workflow.now) (if_then last task)) }
{
    is_always(alloc, workflow, &if_then(alloc, last, task)?)
}

/// The event happens.
fn must(event: u32) -> Rule
    ensures { rule_of result ≡ Must event }
{
    Rule::Must(event)
}

/// Whether some execution does without the event.
fn is_free(alloc: Global, workflow: &Workflow, task: u32) -> Result<bool, AllocError>
    ensures { IfOk result (λ so. IsTrue so ↔ IsNotAlways (schema_of workflow.now) (Must task)) }
{
    is_not_always(alloc, workflow, &must(task))
}

/// Whether the second event comes behind the first one in some execution.
fn comes_behind(
    alloc: Global,
    workflow: &Workflow,
    last: u32,
    task: u32,
) -> Result<bool, AllocError>
    ensures { IfOk result (λ so. IsTrue so ↔ IsNotAlways (schema_of workflow.now) (before_if_both task last)) }
{
    is_not_always(alloc, workflow, &before_if_both(alloc, task, last)?)
}

/// Whether the second event is bound to the first one, and comes behind it in some execution.
#[tactic(auto, using(crate::proofs::BoolLemmas::both))]
fn is_stuck(alloc: Global, workflow: &Workflow, last: u32, task: u32) -> Result<bool, AllocError>
    ensures { IfOk result (λ so. IsTrue so ↔ IsStuck (schema_of workflow.now) last task) }
{
    let with = comes_with(alloc, workflow, last, task)?;
    if !with {
        return Ok(false);
    }
    let free = is_free(alloc, workflow, task)?;
    if !free {
        return Ok(false);
    }
    comes_behind(alloc, workflow, last, task)
}

/// Behind which final events which tasks have no way out where they fail.
#[derive(Clone, Copy)]
pub(crate) struct StuckBehind<'a> {
    pub(crate) workflow: &'a Workflow,
    pub(crate) rules: &'a CaseRules,
}

impl PairQuestion for StuckBehind<'_> {
    ghost is_so = { λ question last task. IsStuckBehind (schema_of question.workflow.now) question.rules.now.finals last task };

    #[tactic(auto, using(crate::proofs::BoolLemmas::both))]
    fn ask(&self, alloc: Global, one: u32, two: u32) -> Result<bool, AllocError> {
        if !self.rules.is_final(one) || two == one {
            return Ok(false);
        }
        is_stuck(alloc, self.workflow, one, two)
    }
}
