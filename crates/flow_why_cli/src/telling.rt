ghost use Rattle.std.specs.Prelude.{IfOk, Some, codes};
ghost use Rattle.flow_form.specs.Script.{said};
ghost use Rattle.flow_form.specs.Names.{IsClosed};
ghost use Rattle.flow_front.specs.Stop.{IsStop};
ghost use Rattle.flow_findings.specs.Refusing.{named_by, IsTold};
ghost use Rattle.flow_why_cli.specs.Explained.{BeginsInWords, first_lines, IsExplained, IsExplainedOf, IsExplainedWorkflow, IsExplainedStop, TellsFirst};

use crate::conflict_words::conflict_words;
use crate::json::{conflict_object, refusal_object};
use crate::refusal_words::words_of;
use crate::source::script_of;
use flow_excise::{CompileRefusal, Dropped};
use flow_findings::print_refused;
use flow_form::Script;
use flow_front::{Output, Refused, Status, Stop, compile_workflow, expand_script};
use flow_record::{cut, print_pieces};
use flow_why::why_not;
use flow_workflow::Workflow;
use std::alloc::{AllocError, Global};

/// How it is told what is wrong with a text.
#[derive(Clone, Copy, PartialEq, Eq, Debug)]
pub enum Form {
    /// In words.
    Words,
    /// In words, with the circle of each option of an inconsistent workflow.
    WithCircles,
    /// As a JSON object on a line.
    Json,
}

/// What is wrong with a workflow's text. The status is that of `flow check`. In words, the line that `flow` writes of a refusal stands
/// first.
pub fn explain(alloc: Global, text: &[u8], form: Form) -> Result<Output, AllocError>
    ensures { IfOk result (λ output. IsExplained text.now form output.status output.text.items) }
{
    let (end, _) = cut(text);
    let part = &text[..end];
    match script_of(alloc, text) {
        Ok(script) => {
            let output = explain_script(alloc, part, &script, form);
            drop(script);
            output
        }
        Err(stop) => explain_stop(alloc, part, stop, None, form),
    }
}

/// What is wrong with what a text says.
pub fn explain_script(
    alloc: Global,
    text: &[u8],
    script: &Script,
    form: Form,
) -> Result<Output, AllocError>
    requires { IsClosed (said script.now) }
    ensures { IfOk result (λ output. IsExplainedOf (said script.now) form output.status output.text.items) }
{
    match expand_script(alloc, script) {
        Ok(workflow) => {
            let output = explain_workflow(alloc, text, script, &workflow, form);
            drop(workflow);
            output
        }
        Err(stop) => explain_stop(alloc, text, stop, Some(script), form),
    }
}

/// What is wrong with a workflow.
fn explain_workflow(
    alloc: Global,
    text: &[u8],
    script: &Script,
    workflow: &Workflow,
    form: Form,
) -> Result<Output, AllocError>
    ensures { IfOk result (λ output. IsExplainedWorkflow (named_by (Some script.entry)) workflow.now form output.status output.text.items) }
{
    match compile_workflow(alloc, workflow) {
        Ok(compiled) => {
            drop(compiled);
            Ok(Output {
                status: Status::Fine,
                text: consistent(alloc, form)?,
            })
        }
        Err(stop) => explain_uncompiled(alloc, text, script, workflow, stop, form),
    }
}

/// What is wrong with a workflow that is not compiled.
pub fn explain_uncompiled(
    alloc: Global,
    text: &[u8],
    script: &Script,
    workflow: &Workflow,
    stop: Stop,
    form: Form,
) -> Result<Output, AllocError>
    requires { IsStop (IsTold (named_by (Some script))) stop }
    ensures { IfOk result (λ output. IsExplainedStop (named_by (Some script.entry)) stop form output.status output.text.items) }
{
    match stop {
        Stop::Refused(Refused::Compile(CompileRefusal::Inconsistent { dropped })) => {
            let text = explain_conflict(alloc, text, workflow, &dropped, form);
            drop(dropped);
            Ok(Output {
                status: Status::No,
                text: text?,
            })
        }
        stop => explain_stop(alloc, text, stop, Some(script), form),
    }
}

/// What is told where some execution meets all constraints.
fn consistent(alloc: Global, form: Form) -> Result<Vec<u8>, AllocError>
    ensures { IfOk result (λ text. BeginsInWords form text.items (codes "consistent\n")) }
{
    match form {
        Form::Words | Form::WithCircles => Vec::from_slice(alloc, b"consistent\n"),
        Form::Json => Vec::from_slice(alloc, b"{\"verdict\":\"consistent\"}\n"),
    }
}

/// Which constraints no execution meets together.
fn explain_conflict(
    alloc: Global,
    text: &[u8],
    workflow: &Workflow,
    dropped: &[Dropped],
    form: Form,
) -> Result<Vec<u8>, AllocError>
    ensures { IfOk result (λ words. BeginsInWords form words.items (codes "inconsistent\n")) }
{
    let Some(conflict) = why_not(alloc, workflow, &[])? else {
        return Vec::from_slice(alloc, b"inconsistent\n");
    };
    let more = match form {
        Form::Words => conflict_words(alloc, text, workflow, &conflict, &[])?,
        Form::WithCircles => conflict_words(alloc, text, workflow, &conflict, dropped)?,
        Form::Json => return conflict_object(alloc, text, &conflict),
    };
    print_pieces(alloc, &[b"inconsistent\n", &more])
}

/// What is told of a stop, of a text or of its workflow.
pub fn explain_stop(
    alloc: Global,
    text: &[u8],
    stop: Stop,
    script: Option<&Script>,
    form: Form,
) -> Result<Output, AllocError>
    requires { IsStop (IsTold (named_by script)) stop }
    ensures { IfOk result (λ output. IsExplainedStop (named_by script.entry) stop form output.status output.text.items) }
{
    match stop {
        Stop::Refused(refused) => explain_refused(alloc, text, refused, script, form),
        Stop::NoMemory => Err(AllocError),
    }
}

/// What is told of a refusal.
fn explain_refused(
    alloc: Global,
    text: &[u8],
    refused: Refused,
    script: Option<&Script>,
    form: Form,
) -> Result<Output, AllocError>
    requires { IsTold (named_by script) refused }
    ensures { IfOk result (λ output. TellsFirst (named_by script.entry) refused form output.status output.text.items) }
{
    let status = Status::of(&refused);
    let text = refusal_text(alloc, text, &refused, script, form)?;
    Ok(Output { status, text })
}

/// The text of a refusal.
fn refusal_text(
    alloc: Global,
    text: &[u8],
    refused: &Refused,
    script: Option<&Script>,
    form: Form,
) -> Result<Vec<u8>, AllocError>
    requires { IsTold (named_by script) refused.now }
    ensures { IfOk result (λ words. BeginsInWords form words.items (first_lines (named_by script.entry) refused.now)) }
{
    if let Form::Json = form {
        return refusal_object(alloc, text, refused);
    }
    let told = print_refused(alloc, refused, script)?;
    let more = words_of(alloc, text, refused)?;
    print_pieces(alloc, &[&told, &more])
}
