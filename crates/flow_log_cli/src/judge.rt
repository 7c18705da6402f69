ghost use Rattle.std.specs.Prelude.{◌≡◌};
ghost use Rattle.flow_log_cli.specs.Judging.{verdict_of_fit};

use flow_conformance::{Judge, Verdict};
use flow_log::{Fit, fit};
use flow_plan::Compiled;
use flow_workflow::Workflow;
use std::alloc::{AllocError, Global};
use std::marker::Model;

/// Judges sequences of events by a workflow. A clause sees it as the workflow.
#[derive(Drop)]
pub struct WorkflowJudge<'a> {
    workflow: &'a Workflow,
    compiled: &'a Compiled,
    /// How many states a search may make before it gives up.
    budget: u32,
}

impl<'a> Model for WorkflowJudge<'a> {
    ghost use Rattle.flow_workflow.specs.Definition.{Definition, definition_code, schema_of};
    ghost use Rattle.flow_plan.specs.Compilation.{IsCompiled};

    ghost Value = { Definition };

    ghost coded = { definition_code };

    ghost view = { λ j. j.workflow.now };

    ghost invariant = { λ j. IsCompiled (schema_of j.workflow.now) j.compiled.now };
}

impl<'a> WorkflowJudge<'a> {
    ghost use Rattle.std.specs.Prelude.{◌≡◌};
    ghost use Rattle.flow_workflow.specs.Definition.{schema_of};
    ghost use Rattle.flow_plan.specs.Compilation.{IsCompiled};

    /// A judge by the workflow, and by what it is compiled to.
    pub fn new(workflow: &'a Workflow, compiled: &'a Compiled, budget: u32) -> WorkflowJudge<'a>
        requires { IsCompiled (schema_of workflow.now) compiled.now }
        ensures { result ≡ workflow.now }
    {
        WorkflowJudge {
            workflow,
            compiled,
            budget,
        }
    }
}

/// A fit without its list. An event with a number past the declared events is unknown.
fn verdict_of(fit: &Fit) -> Verdict
    ensures { result ≡ verdict_of_fit fit.now }
{
    match fit {
        Fit::Execution(_) => Verdict::Execution,
        Fit::Front(_) => Verdict::Front,
        Fit::Deviates { at } => Verdict::Deviates { at: *at },
        Fit::Unknown { at } => Verdict::Unknown { at: *at },
        Fit::Undecided => Verdict::Undecided,
    }
}

impl<'a> Judge for WorkflowJudge<'a> {
    ghost use Rattle.flow_log_cli.specs.Judging.{IsVerdict};

    ghost judges = { λ judge events verdict. IsVerdict judge events verdict };

    fn judge(&self, alloc: Global, events: &[u32]) -> Result<Verdict, AllocError> {
        let found = fit(alloc, self.workflow, self.compiled, events, self.budget)?;
        let verdict = verdict_of(&found);
        drop(found);
        Ok(verdict)
    }
}
