//! What is told of what stops a call.
ghost use Rattle.std.specs.Prelude.{IfOk, Some};
ghost use Rattle.flow_form.specs.Script.{said};
ghost use Rattle.flow_form.specs.Names.{IsClosed};
ghost use Rattle.flow_findings.specs.Refusing.{named_by, IsTold};
ghost use Rattle.flow_front.specs.Stop.{IsStop};
ghost use Rattle.flow_why_cli.specs.Explained.{BeginsInWords, first_lines, IsExplainedStop, TellsFirst};

use flow_findings::print_refused;
use flow_form::Script;
use flow_front::{Output, Refused, Status, Stop, expand_script};
use flow_record::print_pieces;
use flow_run_why_words::{second_object, second_words};
use flow_why_cli::{Form, explain_stop, explain_uncompiled};
use std::alloc::{AllocError, Global};

/// Whether what is refused stands behind the workflow.
fn is_of_second(refused: &Refused) -> bool {
    matches!(
        refused,
        Refused::Query(_) | Refused::Policy(_) | Refused::Record(_) | Refused::NoRule(_)
    )
}

/// The text of a refusal of what stands behind a workflow.
fn second_text(
    alloc: Global,
    second: &[u8],
    refused: &Refused,
    script: &Script,
    form: Form,
) -> Result<Vec<u8>, AllocError>
    requires closed { IsClosed (said script.now) }
    requires told { IsTold (named_by (Some script)) refused.now }
    ensures { IfOk result (λ words. BeginsInWords form words.items (first_lines (named_by (Some script.entry)) refused.now)) }
{
    if let Form::Json = form {
        return second_object(alloc, second, refused);
    }
    let told = print_refused(alloc, refused, Some(script))?;
    let more = second_words(alloc, second, refused, script)?;
    print_pieces(alloc, &[&told, &more])
}

/// What is told of a refusal of what stands behind a workflow.
fn tell_second(
    alloc: Global,
    second: &[u8],
    refused: Refused,
    script: &Script,
    form: Form,
) -> Result<Output, AllocError>
    requires closed { IsClosed (said script.now) }
    requires told { IsTold (named_by (Some script)) refused }
    ensures { IfOk result (λ output. TellsFirst (named_by (Some script.entry)) refused form output.status output.text.items) }
{
    let status = Status::of(&refused);
    let text = second_text(alloc, second, &refused, script, form)?;
    Ok(Output { status, text })
}

/// What is told of a workflow that is refused.
fn tell_first(
    alloc: Global,
    text: &[u8],
    script: &Script,
    stop: Stop,
    form: Form,
) -> Result<Output, AllocError>
    requires closed { IsClosed (said script.now) }
    requires told { IsStop (IsTold (named_by (Some script))) stop }
    ensures { IfOk result (λ output. IsExplainedStop (named_by (Some script.entry)) stop form output.status output.text.items) }
{
    match expand_script(alloc, script) {
        Ok(workflow) => {
            let output = explain_uncompiled(alloc, text, script, &workflow, stop, form);
            drop(workflow);
            output
        }
        Err(again) => {
            drop(again);
            explain_stop(alloc, text, stop, Some(script), form)
        }
    }
}

/// What is told of what stops a call: a refusal of the workflow that the text says, or of the second text, which stands behind it.
pub(crate) fn tell_stop(
    alloc: Global,
    text: &[u8],
    second: &[u8],
    script: &Script,
    stop: Stop,
    form: Form,
) -> Result<Output, AllocError>
    requires closed { IsClosed (said script.now) }
    requires told { IsStop (IsTold (named_by (Some script))) stop }
    ensures { IfOk result (λ output. IsExplainedStop (named_by (Some script.entry)) stop form output.status output.text.items) }
{
    let Stop::Refused(refused) = stop else {
        return Err(AllocError);
    };
    if is_of_second(&refused) {
        tell_second(alloc, second, refused, script, form)
    } else {
        tell_first(alloc, text, script, Stop::Refused(refused), form)
    }
}
