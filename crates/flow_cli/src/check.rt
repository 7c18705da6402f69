ghost use Rattle.flow_form.specs.Script.{said};
ghost use Rattle.flow_form.specs.Names.{IsClosed};
ghost use Rattle.flow_cli.specs.Finding.{Answers};
ghost use Rattle.flow_cli.specs.Check.{Checks, ChecksWorkflow};

use flow_findings::print_check;
use flow_form::Script;
use flow_front::{Output, Status, Stop, compile_workflow, expand_script};
use flow_workflow::Workflow;
use std::alloc::Global;

/// Checks a workflow: its leaves and counts.
fn check_workflow(alloc: Global, workflow: &Workflow) -> Result<Output, Stop>
    ensures { Answers (ChecksWorkflow workflow.now) result }
{
    let compiled = compile_workflow(alloc, workflow)?;
    Ok(Output {
        status: Status::Fine,
        text: print_check(alloc, workflow, &compiled.counts())?,
    })
}

/// Says whether some execution of what a script says meets its constraints.
pub(crate) fn check(alloc: Global, script: &Script) -> Result<Output, Stop>
    requires { IsClosed (said script.now) }
    ensures { Answers (Checks (said script.now)) result }
{
    let workflow = expand_script(alloc, script)?;
    let output = check_workflow(alloc, &workflow);
    drop(workflow);
    output
}
