//! Whether all executions meet a property.
ghost use Rattle.std.specs.Prelude.{◌≡◌, ◌↔◌, IsTrue, IfOk};
ghost use Rattle.flow_model.specs.Constraint.{Constraint};
ghost use Rattle.flow_model.specs.Schema.{Schema};
ghost use Rattle.flow_workflow.specs.Definition.{schema_of};
ghost use Rattle.flow_workflow.specs.Rule.{rule_of};
ghost use Rattle.flow_verify.specs.Verification.{against, IsRefused, TellsOfProperty};
ghost use Rattle.flow_policy_lint.specs.Findings.{CanBeSeen, IsAlways, IsNotAlways, TellsMet};

use flow_verify::{Verified, VerifyRefusal, verify};
use flow_workflow::{Rule, Workflow};
use std::alloc::{AllocError, Global};

/// Whether all executions meet a property.
#[derive(Clone, Copy)]
enum Met {
    Always,
    /// Some execution does not.
    NotAlways,
    /// To see it would pass the limits.
    Unseen,
}

impl Met {
    /// Of a property of which that is told.
    fn of(told: &Verified) -> Met
        ensures { (w : Schema) (property : Constraint) → CanBeSeen w property → TellsOfProperty w property told.now → TellsMet w property result }
    {
        match told {
            Verified::Holds => Met::Always,
            Verified::Fails(_) => Met::NotAlways,
        }
    }

    /// Of a property of which nothing is told, for that reason.
    fn of_refused(refusal: VerifyRefusal) -> Result<Met, AllocError>
        ensures { (w : Schema) (property : Constraint) → IsRefused (against w property) refusal → IfOk result (TellsMet w property) }
    {
        match refusal {
            VerifyRefusal::TooManyChoices { .. } => Ok(Met::Unseen),
            VerifyRefusal::TooManyWays { .. } => Ok(Met::Unseen),
            VerifyRefusal::TooBulky { .. } => Ok(Met::Unseen),
            // the property is no constraint of the workflow
            VerifyRefusal::NoRule { .. } => Err(AllocError),
            VerifyRefusal::NoMemory => Err(AllocError),
        }
    }

    /// Whether all do.
    fn is_always(self) -> bool
        ensures { (w : Schema) (property : Constraint) → TellsMet w property self → IsTrue result ↔ IsAlways w property }
    {
        match self {
            Met::Always => true,
            Met::NotAlways => false,
            Met::Unseen => false,
        }
    }

    /// Whether some do not.
    fn is_not_always(self) -> bool
        ensures { (w : Schema) (property : Constraint) → TellsMet w property self → IsTrue result ↔ IsNotAlways w property }
    {
        match self {
            Met::Always => false,
            Met::NotAlways => true,
            Met::Unseen => false,
        }
    }
}

/// Whether all executions meet the property. It takes a compiling.
fn how_met(alloc: Global, workflow: &Workflow, property: &Rule) -> Result<Met, AllocError>
    ensures { IfOk result (TellsMet (schema_of workflow.now) (rule_of property.now)) }
{
    match verify(alloc, workflow, property) {
        Ok(told) => {
            let met = Met::of(&told);
            drop(told);
            Ok(met)
        }
        Err(refusal) => Met::of_refused(refusal),
    }
}

/// Whether each execution meets the property, as is seen within the limits.
pub(crate) fn is_always(
    alloc: Global,
    workflow: &Workflow,
    property: &Rule,
) -> Result<bool, AllocError>
    ensures { IfOk result (λ so. IsTrue so ↔ IsAlways (schema_of workflow.now) (rule_of property.now)) }
{
    Ok(how_met(alloc, workflow, property)?.is_always())
}

/// Whether some execution does not meet the property, as is seen within the limits.
pub(crate) fn is_not_always(
    alloc: Global,
    workflow: &Workflow,
    property: &Rule,
) -> Result<bool, AllocError>
    ensures { IfOk result (λ so. IsTrue so ↔ IsNotAlways (schema_of workflow.now) (rule_of property.now)) }
{
    Ok(how_met(alloc, workflow, property)?.is_not_always())
}
