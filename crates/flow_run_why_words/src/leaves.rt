//! Leaves of a run that are told of, each with its reason.
ghost use Rattle.std.specs.Prelude.{◌≡◌, ◌++◌, OnOk};
ghost use Rattle.std.specs.List.{find};
ghost use Rattle.std.specs.Option.{option_copied};
ghost use Rattle.flow_fault.specs.Near.{is_near};
ghost use Rattle.flow_run_why_words.specs.Reasons.{is_waiting};
ghost use Rattle.flow_run_why_words.specs.Leaves.{over_text};

use crate::reason_json::push_reason_members;
use crate::reason_words::push_reason;
use flow_core::Core;
use flow_fault::is_near;
use flow_reason::{Reason, why_leaf};
use flow_why_cli::{Form, WrittenRule};
use flow_workflow::{Workflow, push_leaf_label};
use flow_writer::Writer;
use std::alloc::{AllocError, Global};

/// The number that the word is, if it is one.
fn number_of(word: &[u8]) -> Option<u32> {
    match str::from_utf8(word) {
        Ok(digits) => digits.parse::<u32>().ok(),
        Err(_) => None,
    }
}

/// Whether the leaf has that label.
fn has_label(
    alloc: Global,
    workflow: &Workflow,
    leaf: u32,
    label: &[u8],
) -> Result<bool, AllocError> {
    let mut own = Vec::new(alloc);
    push_leaf_label(&mut own, workflow, leaf)?;
    Ok(own.as_slice() == label)
}
/// The leaves that a word means: the one of that number, or those with that label.
fn leaves_meant(alloc: Global, workflow: &Workflow, word: &[u8]) -> Result<Vec<u32>, AllocError> {
    let mut meant = Vec::new(alloc);
    if let Some(leaf) = number_of(word) {
        meant.push(leaf)?;
        return Ok(meant);
    }
    for leaf in 0..workflow.tree().leaves() {
        if has_label(alloc, workflow, leaf, word)? {
            meant.push(leaf)?;
        }
    }
    Ok(meant)
}

/// Adds the reason of a leaf.
fn push_leaf(
    writer: &mut Writer,
    alloc: Global,
    text: &[u8],
    rules: &[WrittenRule],
    core: &Core,
    leaf: u32,
    reason: &Reason,
    form: Form,
) -> Result<(), AllocError> {
    match form {
        Form::Json => {
            writer.words("{")?;
            push_reason_members(writer, alloc, core, leaf, reason)?;
            writer.words("}\n")
        }
        Form::Words | Form::WithCircles => {
            push_reason(writer, alloc, text, rules, core, leaf, reason)
        }
    }
}

/// Adds that no leaf has that label, and which event is perhaps meant.
fn push_unknown(
    writer: &mut Writer,
    workflow: &Workflow,
    word: &[u8],
    form: Form,
) -> Result<(), AllocError> {
    match form {
        Form::Json => writer.words("{\"reason\":\"no_leaf\"}\n"),
        Form::Words | Form::WithCircles => {
            writer.words("no leaf has the label ")?;
            writer.shown(word)?;
            push_near(writer, workflow, word)
        }
    }
}

/// Adds the first event whose name is near the word, if there is one.
fn push_near(writer: &mut Writer, workflow: &Workflow, word: &[u8]) -> Result<(), AllocError> {
    match near_event(workflow, word) {
        Some(name) => {
            writer.words(": did you mean ")?;
            writer.bytes(name)?;
            writer.words("?\n")
        }
        None => writer.words("\n"),
    }
}

/// The name of the first event that is near the word.
fn near_event<'a>(workflow: &'a Workflow, word: &[u8]) -> Option<&'a [u8]>
    ensures { option_copied result ≡ find (λ name. is_near name word.now) workflow.now.events }
{
    for name in workflow.events() {
        if is_near(name.bytes(), word) {
            return Some(name.bytes());
        }
    }
    None
}

/// Adds a leaf with its reason.
fn push_why(
    writer: &mut Writer,
    alloc: Global,
    text: &[u8],
    rules: &[WrittenRule],
    core: &Core,
    leaf: u32,
    form: Form,
) -> Result<(), AllocError> {
    let reason = why_leaf(alloc, core, leaf)?;
    push_leaf(writer, alloc, text, rules, core, leaf, &reason, form)
}

/// Adds leaves, each with its reason.
fn push_each(
    writer: &mut Writer,
    alloc: Global,
    text: &[u8],
    rules: &[WrittenRule],
    core: &Core,
    leaves: &[u32],
    form: Form,
) -> Result<(), AllocError> {
    for leaf in leaves {
        push_why(writer, alloc, text, rules, core, *leaf, form)?;
    }
    Ok(())
}

/// Adds the leaves that the word means, each with its reason. Where it means none, it adds that.
pub fn push_meant(
    writer: &mut Writer,
    alloc: Global,
    text: &[u8],
    rules: &[WrittenRule],
    core: &Core,
    word: &[u8],
    form: Form,
) -> Result<(), AllocError> {
    let meant = leaves_meant(alloc, core.workflow(), word)?;
    if meant.is_empty() {
        return push_unknown(writer, core.workflow(), word, form);
    }
    push_each(writer, alloc, text, rules, core, &meant, form)
}

/// Whether the leaf waits: it is not done, and can neither be taken nor done now.
fn is_waiting(reason: &Reason) -> bool
    ensures { result ≡ is_waiting reason.now }
{
    !matches!(reason, Reason::Free | Reason::Done { .. } | Reason::Over)
}

/// Adds a leaf with its reason, if it waits.
fn push_if_waiting(
    writer: &mut Writer,
    alloc: Global,
    text: &[u8],
    rules: &[WrittenRule],
    core: &Core,
    leaf: u32,
    form: Form,
) -> Result<(), AllocError> {
    let reason = why_leaf(alloc, core, leaf)?;
    if is_waiting(&reason) {
        push_leaf(writer, alloc, text, rules, core, leaf, &reason, form)
    } else {
        Ok(())
    }
}

/// Adds the reasons of all leaves that wait. Of a run that is over none does.
pub fn push_waiting(
    writer: &mut Writer,
    alloc: Global,
    text: &[u8],
    rules: &[WrittenRule],
    core: &Core,
    form: Form,
) -> Result<(), AllocError> {
    if core.committed() {
        return push_over(writer, form);
    }
    push_all_waiting(writer, alloc, text, rules, core, form)
}

/// Adds that the run is over: in JSON nothing.
fn push_over(writer: &mut Writer, form: Form) -> Result<(), AllocError>
    ensures { OnOk result (writer.new.text.items ≡ writer.old.text.items ++ over_text form) }
{
    match form {
        Form::Json => Ok(()),
        Form::Words | Form::WithCircles => writer.words("the run is over\n"),
    }
}

/// Adds the reasons of all leaves that wait, of a run that goes on.
fn push_all_waiting(
    writer: &mut Writer,
    alloc: Global,
    text: &[u8],
    rules: &[WrittenRule],
    core: &Core,
    form: Form,
) -> Result<(), AllocError> {
    for leaf in 0..core.workflow().tree().leaves() {
        push_if_waiting(writer, alloc, text, rules, core, leaf, form)?;
    }
    Ok(())
}
