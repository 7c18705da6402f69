//! What is told of a journal.
ghost use Rattle.std.specs.Prelude.{◌≡◌, [], IfOk};
ghost use Rattle.flow_form.specs.Script.{said};
ghost use Rattle.flow_form.specs.Names.{IsClosed, event_names};
ghost use Rattle.flow_workflow.specs.Definition.{schema_of};
ghost use Rattle.flow_plan.specs.Compilation.{IsCompiled};
ghost use Rattle.flow_findings.specs.Judging.{checked_text};
ghost use Rattle.flow_trace.specs.declared.checked.Checked.{Checked};
ghost use Rattle.flow_trace.specs.declared.checked.Checked.TheVariants as variants;
ghost use Rattle.flow_trace.specs.Traces.{TellsOfTrace};
ghost use Rattle.flow_why_cli.specs.Explained.{BeginsInWords};
ghost use Rattle.flow_run_why_words.specs.Parts.{part_of};
ghost use Rattle.flow_run_why_cli.specs.Told.{TellsAnswer, Tells, IsToldOf, IsExplainedWith};
ghost use Rattle.flow_run_why_cli.specs.Journal.{answer_of_checked, status_of_checked, TracesLeaves, TracesWorkflow, TracesText};

use crate::session::STEPS;
use crate::stops::tell_stop;
use flow_core::Core;
use flow_findings::print_checked;
use flow_form::Script;
use flow_front::{Output, Status, Stop, compile_workflow, expand_script};
use flow_plan::Compiled;
use flow_reason::why_bad;
use flow_record::{cut, print_pieces, read_journal};
use flow_run_why_words::{Line, bad_object, bad_words, lines_said, without_divider};
use flow_trace::{Checked, check_trace};
use flow_why_cli::{Form, explain_stop, script_of};
use flow_workflow::Workflow;
use std::alloc::{AllocError, Global};

/// What is told of a journal that is bad at a place.
fn bad_text(
    alloc: Global,
    text: &[u8],
    core: &mut Core,
    lines: &[Line<'_>],
    leaves: &[u32],
    place: u32,
    form: Form,
) -> Result<Vec<u8>, AllocError>
    requires { core.old.history ≡ [] }
    ensures { IfOk result (λ words. BeginsInWords form words.items (checked_text (variants.Bad place))) }
{
    let bad = why_bad(alloc, core, leaves, place as usize)?;
    if let Form::Json = form {
        return bad_object(alloc, core, lines, place, &bad);
    }
    let told = print_checked(alloc, Checked::Bad(place))?;
    let more = bad_words(alloc, text, core, lines, place as usize, &bad)?;
    print_pieces(alloc, &[&told, &more])
}

/// What is told of a journal that is an execution, or the front of one.
fn good_text(alloc: Global, checked: Checked, form: Form) -> Result<Vec<u8>, AllocError>
    ensures { IfOk result (λ words. BeginsInWords form words.items (checked_text checked)) }
{
    if form != Form::Json {
        return print_checked(alloc, checked);
    }
    match checked {
        Checked::Execution => Vec::from_slice(alloc, b"{\"verdict\":\"execution\"}\n"),
        _ => Vec::from_slice(alloc, b"{\"verdict\":\"prefix\"}\n"),
    }
}

/// The status of what a journal is.
fn status_of_checked(checked: Checked) -> Status
    ensures { result ≡ status_of_checked checked }
{
    match checked {
        Checked::Execution => Status::Fine,
        Checked::Prefix | Checked::Bad(_) => Status::No,
    }
}

/// What is told of leaves of which it is known what they are.
fn tell_checked(
    alloc: Global,
    text: &[u8],
    workflow: Workflow,
    compiled: Compiled,
    lines: &[Line<'_>],
    leaves: &[u32],
    checked: Checked,
    form: Form,
) -> Result<Output, AllocError>
    requires { IsCompiled (schema_of workflow) compiled }
    ensures { IfOk result (λ output. TellsAnswer (answer_of_checked checked) form output.status output.text.items) }
{
    let status = status_of_checked(checked);
    let Checked::Bad(place) = checked else {
        let text = good_text(alloc, checked, form)?;
        return Ok(Output { status, text });
    };
    let mut core = Core::start(alloc, workflow, compiled, STEPS)?;
    let text = bad_text(alloc, text, &mut core, lines, leaves, place, form);
    drop(core);
    Ok(Output {
        status,
        text: text?,
    })
}

/// What is told of leaves, the journal of a workflow that is compiled.
fn tell_leaves(
    alloc: Global,
    text: &[u8],
    workflow: Workflow,
    compiled: Compiled,
    lines: &[Line<'_>],
    leaves: &[u32],
    form: Form,
) -> Result<Output, AllocError>
    requires { IsCompiled (schema_of workflow) compiled }
    ensures { IfOk result (λ output. (checked : Checked) × TellsOfTrace (schema_of workflow) leaves.now checked
        × TellsAnswer (answer_of_checked checked) form output.status output.text.items) }
{
    let checked = check_trace(alloc, &workflow, &compiled, leaves)?;
    tell_checked(
        alloc, text, workflow, compiled, lines, leaves, checked, form,
    )
}

/// Checks leaves, the journal of a workflow.
fn trace_leaves(
    alloc: Global,
    text: &[u8],
    workflow: Workflow,
    lines: &[Line<'_>],
    leaves: &[u32],
    form: Form,
) -> Result<Output, Stop>
    ensures { Tells form (TracesLeaves workflow leaves.now) result }
{
    match compile_workflow(alloc, &workflow) {
        Ok(compiled) => Ok(tell_leaves(alloc, text, workflow, compiled, lines, leaves, form)?),
        Err(stop) => {
            drop(workflow);
            Err(stop)
        }
    }
}

/// Checks the journal of a text against a workflow. The lines are its lines.
fn trace_workflow(
    alloc: Global,
    text: &[u8],
    workflow: Workflow,
    journal: &[u8],
    lines: &[Line<'_>],
    form: Form,
) -> Result<Output, Stop>
    ensures { Tells form (TracesWorkflow workflow journal.now) result }
{
    match read_journal(alloc, &workflow, journal) {
        Ok(leaves) => trace_leaves(alloc, text, workflow, lines, &leaves, form),
        Err(refusal) => {
            drop(workflow);
            Err(Stop::from(refusal))
        }
    }
}

/// Checks the journal of a text against what a script says, which is expanded first: the labels of its lines are those of its leaves.
fn trace_text(
    alloc: Global,
    text: &[u8],
    script: &Script,
    journal: &[u8],
    lines: &[Line<'_>],
    form: Form,
) -> Result<Output, Stop>
    requires { IsClosed (said script.now) }
    ensures { Tells form (TracesText journal.now (said script.now)) result }
{
    let workflow = expand_script(alloc, script)?;
    trace_workflow(alloc, text, workflow, journal, lines, form)
}

/// What is told of what a script says, and a journal of it.
fn explain_leaves(
    alloc: Global,
    text: &[u8],
    script: &Script,
    journal: &[u8],
    form: Form,
) -> Result<Output, AllocError>
    requires { IsClosed (said script.now) }
    ensures { IfOk result (λ output. IsToldOf (event_names (said script.now).decls) (TracesText (part_of journal.now) (said script.now)) form output.status output.text.items) }
{
    let lines = lines_said(alloc, journal)?;
    let part = without_divider(journal);
    match trace_text(alloc, text, script, part, &lines, form) {
        Ok(output) => Ok(output),
        Err(stop) => tell_stop(alloc, text, journal, script, stop, form),
    }
}

/// Where a journal stops being the front of an execution, why, and what could have come there. The status is that of `flow trace`.
pub fn explain_journal(
    alloc: Global,
    text: &[u8],
    journal: &[u8],
    form: Form,
) -> Result<Output, AllocError>
    ensures { IfOk result (λ output. IsExplainedWith (TracesText (part_of journal.now)) text.now form output.status output.text.items) }
{
    let (end, _) = cut(text);
    let part = &text[..end];
    match script_of(alloc, text) {
        Ok(script) => {
            let output = explain_leaves(alloc, part, &script, journal, form);
            drop(script);
            output
        }
        Err(stop) => explain_stop(alloc, part, stop, None, form),
    }
}
