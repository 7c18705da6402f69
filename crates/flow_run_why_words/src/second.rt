//! What is told in words of a refusal of what stands behind a workflow: where it is, what is met there, and what may help.
ghost use Rattle.std.specs.Prelude.{OnOk};
ghost use Rattle.flow_model.specs.Lists.{Begins};
ghost use Rattle.flow_form.specs.Script.{said};
ghost use Rattle.flow_form.specs.Names.{IsClosed};

use crate::line_words::push_line_refusal;
use crate::lines::{Line, line_refused, lines_before, lines_of, without_divider};
use crate::policy_words::push_policy_refusal;
use flow_fault::fault_of;
use flow_form::{Script, TextRefusal};
use flow_front::{Refused, expand_script};
use flow_record::{RecordRefusal, push_leaf_line, split_word};
use flow_why_cli::{push_fault, push_hint, push_near_in};
use flow_workflow::Workflow;
use flow_writer::Writer;
use std::alloc::{AllocError, Global};

/// Adds what is wrong where a query asks nothing.
fn push_query_refusal(
    writer: &mut Writer,
    query: &[u8],
    refusal: &TextRefusal,
    script: &Script,
) -> Result<(), AllocError> {
    let text = without_divider(query);
    push_fault(
        writer,
        &fault_of(text, refusal),
        lines_before(query),
        refusal,
    )?;
    push_meant(writer, script, refusal)
}

/// Adds which name was perhaps meant in place of one that is unknown.
fn push_meant(writer: &mut Writer, script: &Script, refusal: &TextRefusal) -> Result<(), AllocError>
    ensures { OnOk result (Begins writer.new.text.items writer.old.text.items) }
{
    match refusal {
        TextRefusal::Unknown { name, .. } => push_near_in(writer, script, name.bytes()),
        _ => Ok(()),
    }
}

/// The leaf whose number stands at the front of the line, if one does.
fn leaf_noted(line: &[u8]) -> Option<u32> {
    let (digits, _) = split_word(line);
    match str::from_utf8(digits) {
        Ok(digits) => digits.parse::<u32>().ok(),
        Err(_) => None,
    }
}

/// Adds which label the leaf has that stands on the line.
fn push_label_of(writer: &mut Writer, workflow: &Workflow, line: Line<'_>) -> Result<(), AllocError>
    ensures { OnOk result (Begins writer.new.text.items writer.old.text.items) }
{
    match leaf_noted(line.text) {
        Some(leaf) if leaf < workflow.tree().leaves() => {
            writer.words("the line of that leaf is: ")?;
            push_leaf_line(&mut writer.text, workflow, leaf)
        }
        _ => writer.words("the goal has no such leaf\n"),
    }
}

/// Adds which label the leaf has that stands on the line that is refused for its label.
fn push_label(
    writer: &mut Writer,
    alloc: Global,
    script: &Script,
    journal: &[u8],
    refusal: RecordRefusal,
) -> Result<(), AllocError>
    requires { IsClosed (said script.now) }
{
    let lines = lines_of(alloc, journal)?;
    let (RecordRefusal::Label { .. }, Some(line)) = (refusal, line_refused(&lines, refusal)) else {
        return Ok(());
    };
    match expand_script(alloc, script) {
        Ok(workflow) => {
            let told = push_label_of(writer, &workflow, line);
            drop(workflow);
            told
        }
        Err(stop) => {
            drop(stop);
            Ok(())
        }
    }
}

/// Adds which line of a session or a journal is refused, and what a line is.
fn push_record_refusal(
    writer: &mut Writer,
    alloc: Global,
    script: &Script,
    text: &[u8],
    refusal: RecordRefusal,
) -> Result<(), AllocError>
    requires { IsClosed (said script.now) }
{
    push_line_refusal(writer, alloc, text, refusal)?;
    push_label(writer, alloc, script, text, refusal)
}

/// What is told of a refusal of the second text besides flow's own line.
pub fn second_words(
    alloc: Global,
    second: &[u8],
    refused: &Refused,
    script: &Script,
) -> Result<Vec<u8>, AllocError>
    requires { IsClosed (said script.now) }
{
    let mut writer = Writer::new(alloc);
    match refused {
        Refused::Query(refusal) => push_query_refusal(&mut writer, second, refusal, script)?,
        Refused::Policy(refusal) => push_policy_refusal(&mut writer, second, refusal, script)?,
        Refused::Record(refusal) => {
            push_record_refusal(&mut writer, alloc, script, second, *refusal)?
        }
        Refused::NoRule(_) => push_hint(
            &mut writer,
            "constraints are counted from 0, in the order of the text",
        )?,
        _ => {}
    }
    Ok(writer.text)
}
