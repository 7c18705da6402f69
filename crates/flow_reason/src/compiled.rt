//! What the workflow of a run is compiled to.
ghost use Rattle.std.specs.Prelude.{◌≡◌, IfOk, IfNone, IfSome, None};
ghost use Rattle.flow_laws.specs.WellFormed.{IsConsistent};
ghost use Rattle.flow_model.specs.Schema.{Schema};
ghost use Rattle.flow_excise.specs.Compilation.{IsRefused};
ghost use Rattle.flow_plan.specs.Compilation.{IsCompiled, IsWithinLimits};
ghost use Rattle.flow_core.specs.Run.{schema};

use flow_core::Core;
use flow_excise::{CompileRefusal, compile};
use flow_plan::Compiled;
use std::alloc::{AllocError, Global};

/// What is found where a workflow that has an execution is not compiled.
fn past_limits(refusal: CompileRefusal) -> Result<Option<Compiled>, AllocError>
    ensures nothing { IfOk result (λ found. found ≡ None) }
    ensures past { (w : Schema) → IsConsistent w → IsRefused w refusal → IfOk result (λ _. ¬ (IsWithinLimits w)) }
{
    match refusal {
        CompileRefusal::Inconsistent { dropped } => {
            drop(dropped);
            Ok(None)
        }
        CompileRefusal::TooManyChoices { .. } => Ok(None),
        CompileRefusal::TooManyWays { .. } => Ok(None),
        CompileRefusal::TooBulky { .. } => Ok(None),
        CompileRefusal::NoMemory => Err(AllocError),
    }
}

/// What a run's workflow is compiled to, once more; nothing where it is past the limits.
pub(crate) fn compiled_again(alloc: Global, core: &Core) -> Result<Option<Compiled>, AllocError>
    ensures some { IfOk result (λ found. IfSome found (IsCompiled (schema core.now))) }
    ensures none { IfOk result (λ found. IfNone found (¬ (IsWithinLimits (schema core.now)))) }
{
    // the history is legal
    let _ = core.history();
    let workflow = core.workflow();
    match compile(alloc, workflow.tree(), workflow.rules()) {
        Ok(compiled) => Ok(Some(compiled)),
        Err(refusal) => past_limits(refusal),
    }
}
