ghost use Rattle.std.specs.Prelude.{◌≡◌, IfOk};
ghost use Rattle.flow_workflow.specs.Definition.{schema_of};
ghost use Rattle.flow_plan.specs.Compilation.{IsCompiled};
ghost use Rattle.flow_trace.specs.declared.checked.Checked.{Checked};
ghost use Rattle.flow_trace.specs.Traces.{TellsOfTrace};

use crate::checked::Checked;
use crate::follow::furthest;
use crate::labels::held_front;
use flow_plan::Compiled;
use flow_workflow::Workflow;
use std::alloc::{AllocError, Global};

/// Checks a list of leaves against a workflow and its plans.
pub fn check_trace(
    alloc: Global,
    workflow: &Workflow,
    compiled: &Compiled,
    leaves: &[u32],
) -> Result<Checked, AllocError>
    requires { IsCompiled (schema_of workflow.now) compiled.now }
    ensures told { IfOk result (TellsOfTrace (schema_of workflow.now) leaves.now) }
    // nothing else could be told
    ensures only { IfOk result (λ checked. (other : Checked) → TellsOfTrace (schema_of workflow.now) leaves.now other → checked ≡ other) }
{
    // its leaves have their numbers, and are few
    let _tree = workflow.tree();
    let held = held_front(alloc, workflow, leaves)?;
    let front = &leaves[..held];
    let (longest, is_whole) = furthest(alloc, compiled.plans(), compiled.folds(), front)?;
    if longest < leaves.len() {
        return Ok(Checked::Bad(longest as u32));
    }
    Ok(if is_whole {
        Checked::Execution
    } else {
        Checked::Prefix
    })
}
