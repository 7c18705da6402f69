ghost use Rattle.std.specs.Prelude.{◌≡◌, ◌<◌, ℕ, List, length, IfOk};
ghost use Rattle.flow_model.specs.Lists.{Each};
ghost use Rattle.flow_model.specs.Schema.{Schema};
ghost use Rattle.flow_laws.specs.WellFormed.{IsWellFormed};
ghost use Rattle.flow_workflow.specs.Definition.{schema_of};
ghost use Rattle.flow_workflow.specs.Rule.{rules_of};
ghost use Rattle.flow_plan.specs.Compilation.{IsCompiled, IsWithinLimits};
ghost use Rattle.flow_excise.specs.Options.{schema_with};
ghost use Rattle.flow_excise.specs.Compilation.{IsRefused};
ghost use Rattle.flow_conflict.specs.Judgement.{Tells};
ghost use Rattle.flow_why.specs.Constraints.{constraints_at, IsMet, IsWithin, met_of_fewer};
ghost use Rattle.flow_why.specs.Fronts.{IsFront};

use crate::fronts::is_front;
use flow_conflict::{Judge, Judged};
use flow_excise::{CompileRefusal, compile};
use flow_plan::Compiled;
use flow_workflow::{Rule, Workflow};
use std::alloc::{AllocError, Global};

/// The constraints of a workflow, and leaves with which traces are to begin. Sets of constraints are judged by compiling the workflow with
/// them alone.
#[derive(Drop)]
pub(crate) struct Constraints<'a> {
    pub(crate) workflow: &'a Workflow,
    pub(crate) front: &'a [u32],
}

/// The constraints of these numbers, in memory of their own.
fn copied(alloc: Global, workflow: &Workflow, members: &[u32]) -> Result<Vec<Rule>, AllocError>
    requires { Each (λ member. member < length workflow.now.rules) members.now }
    ensures { IfOk result (λ rules. rules_of rules.items ≡ constraints_at workflow.now.rules members.now) }
{
    let rules = workflow.rules();
    let mut copies = Vec::with_capacity(alloc, members.len())?;
    for member in members {
        copies.push(rules[*member as usize].copy(alloc)?)?;
    }
    Ok(copies)
}

/// What is found where the workflow is not compiled.
fn judge_refusal(refusal: CompileRefusal) -> Result<Judged, AllocError>
    ensures { (w : Schema) (list : List ℕ) → IsRefused w refusal → IfOk result (Tells (IsWithinLimits w) (IsFront w list)) }
{
    match refusal {
        CompileRefusal::Inconsistent { dropped } => {
            drop(dropped);
            Ok(Judged::Unmet)
        }
        CompileRefusal::TooManyChoices { .. } => Ok(Judged::Unknown),
        CompileRefusal::TooManyWays { .. } => Ok(Judged::Unknown),
        CompileRefusal::TooBulky { .. } => Ok(Judged::Unknown),
        CompileRefusal::NoMemory => Err(AllocError),
    }
}

/// What is found where the workflow is compiled.
fn judge_compiled(alloc: Global, compiled: Compiled, front: &[u32]) -> Result<Judged, AllocError>
    ensures { (w : Schema) → IsWellFormed w → IsCompiled w compiled → IfOk result (Tells (IsWithinLimits w) (IsFront w front.now)) }
{
    if is_front(alloc, compiled, front)? {
        Ok(Judged::Met)
    } else {
        Ok(Judged::Unmet)
    }
}

/// What is found of a workflow with these constraints in the place of its own.
fn judge_rules(
    alloc: Global,
    workflow: &Workflow,
    rules: &[Rule],
    front: &[u32],
) -> Result<Judged, AllocError>
    ensures { IfOk result (Tells (IsWithinLimits (schema_with workflow.now.tree (rules_of rules.now)))
        (IsFront (schema_with workflow.now.tree (rules_of rules.now)) front.now)) }
{
    match compile(alloc, workflow.tree(), rules) {
        Ok(compiled) => judge_compiled(alloc, compiled, front),
        Err(refusal) => judge_refusal(refusal),
    }
}

impl Judge for Constraints<'_> {
    ghost size = { λ judge. length judge.workflow.now.rules };

    ghost is_met = { λ judge members. IsMet (schema_of judge.workflow.now) judge.front.now members };

    ghost is_within = { λ judge members. IsWithin (schema_of judge.workflow.now) members };

    fn judge(&self, alloc: Global, members: &[u32]) -> Result<Judged, AllocError> {
        let rules = copied(alloc, self.workflow, members)?;
        judge_rules(alloc, self.workflow, &rules, self.front)
    }

    ghost antitone = { λ judge fewer more among met. met_of_fewer (schema_of judge.workflow.now) judge.front.now fewer more among met };
}
