ghost use Rattle.std.specs.Prelude.{◌≡◌, length, IfOk, IfNone, IfSome};
ghost use Rattle.flow_plan.specs.Compilation.{IsWithinLimits};
ghost use Rattle.flow_workflow.specs.Definition.{schema_of};
ghost use Rattle.flow_conflict.specs.Conflict.{IsConflict, IsLeast};
ghost use Rattle.flow_why.specs.Constraints.{IsMet, IsWithin};
ghost use Rattle.flow_why.specs.Fronts.{IsFront};

use crate::constraints::Constraints;
use flow_conflict::{Conflict, least_conflict};
use flow_workflow::Workflow;
use std::alloc::{AllocError, Global};

/// A least set of constraints that no trace meets which begins with the leaves, where the workflow is within the limits and no good trace
/// begins with them. It has no member where no trace of the goal begins so. With no leaves, it tells why the workflow is
/// inconsistent. More constraints than have numbers are refused as want of memory, which a text cannot hold either.
pub fn why_not(
    alloc: Global,
    workflow: &Workflow,
    front: &[u32],
) -> Result<Option<Conflict>, AllocError>
    // it is found just where that is so
    ensures none { IfOk result (λ found. IfNone found (IsWithinLimits (schema_of workflow.now) → IsFront (schema_of workflow.now) front.now)) }
    ensures some { IfOk result (λ found. IfSome found (λ _. IsWithinLimits (schema_of workflow.now) × ¬ (IsFront (schema_of workflow.now) front.now))) }
    ensures conflict { IfOk result (λ found. IfSome found (λ conflict.
        IsConflict (IsMet (schema_of workflow.now) front.now) (length workflow.now.rules) conflict.members.items)) }
    ensures least { IfOk result (λ found. IfSome found (λ conflict.
        IsLeast (IsMet (schema_of workflow.now) front.now) (IsWithin (schema_of workflow.now)) conflict.members.items conflict.undecided.items)) }
{
    let Ok(count) = u32::try_from(workflow.rules().len()) else {
        return Err(AllocError);
    };
    least_conflict(alloc, &Constraints { workflow, front }, count)
}
