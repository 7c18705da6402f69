ghost use Rattle.std.specs.Prelude.{◌≡◌};
ghost use Rattle.flow_form.specs.Script.{said};
ghost use Rattle.flow_form.specs.Names.{IsClosed};
ghost use Rattle.flow_cli.specs.Finding.{status_of_checked, Answers};
ghost use Rattle.flow_cli.specs.Trace.{TracesLeaves, TracesWorkflow, TracesText};

use flow_findings::print_checked;
use flow_form::Script;
use flow_front::{Output, Status, Stop, compile_workflow, expand_script};
use flow_record::read_journal;
use flow_trace::{Checked, check_trace};
use flow_workflow::Workflow;
use std::alloc::Global;

/// The status of what a list of leaves is.
fn status_of_checked(checked: Checked) -> Status
    ensures { result ≡ status_of_checked checked }
{
    match checked {
        Checked::Execution => Status::Fine,
        Checked::Prefix | Checked::Bad(_) => Status::No,
    }
}

/// Checks a list of leaves against a workflow.
fn trace_leaves(alloc: Global, workflow: &Workflow, leaves: &[u32]) -> Result<Output, Stop>
    ensures { Answers (TracesLeaves workflow.now leaves.now) result }
{
    let compiled = compile_workflow(alloc, workflow)?;
    let checked = check_trace(alloc, workflow, &compiled, leaves);
    drop(compiled);
    let checked = checked?;
    Ok(Output {
        status: status_of_checked(checked),
        text: print_checked(alloc, checked)?,
    })
}

/// Checks the journal of a text against a workflow.
fn trace_workflow(alloc: Global, workflow: &Workflow, text: &[u8]) -> Result<Output, Stop>
    ensures { Answers (TracesWorkflow workflow.now text.now) result }
{
    let leaves = read_journal(alloc, workflow, text)?;
    trace_leaves(alloc, workflow, &leaves)
}

/// Says whether the journal of a text is an execution of what a script says. The lines are read once it is expanded, since
/// their labels are those of its leaves.
pub(crate) fn trace_text(alloc: Global, script: &Script, text: &[u8]) -> Result<Output, Stop>
    requires { IsClosed (said script.now) }
    ensures { Answers (TracesText (said script.now) text.now) result }
{
    let workflow = expand_script(alloc, script)?;
    let output = trace_workflow(alloc, &workflow, text);
    drop(workflow);
    output
}
