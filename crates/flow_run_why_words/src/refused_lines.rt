//! Lines of a session that are refused, and why.
ghost use Rattle.std.specs.Prelude.{◌≡◌, ◌++◌, OnOk};
ghost use Rattle.flow_run_why_words.specs.Lines.{shape_of};
ghost use Rattle.flow_run_why_words.specs.Refused.{line_start};

use crate::asked::{has_reason, leaf_asked, meaning_of};
use crate::lines::{Line, push_line};
use crate::reason_json::push_reason_members;
use crate::reason_words::push_reason;
use flow_ask::{Ask, Refusal};
use flow_core::Core;
use flow_reason::why_leaf;
use flow_reply::print_answer;
use flow_why_cli::{Form, WrittenRule};
use flow_writer::Writer;
use std::alloc::{AllocError, Global};

/// Adds why an ask is refused, in words.
fn push_why_words(
    writer: &mut Writer,
    alloc: Global,
    text: &[u8],
    rules: &[WrittenRule],
    core: &Core,
    ask: Ask,
    refusal: Refusal,
) -> Result<(), AllocError> {
    match leaf_asked(ask) {
        Some(leaf) if has_reason(refusal) => {
            let reason = why_leaf(alloc, core, leaf)?;
            push_reason(writer, alloc, text, rules, core, leaf, &reason)
        }
        _ => {
            writer.words(meaning_of(refusal))?;
            writer.words("\n")
        }
    }
}

/// Adds why a line is refused, in words.
fn push_words(
    writer: &mut Writer,
    alloc: Global,
    text: &[u8],
    rules: &[WrittenRule],
    core: &Core,
    line: Line<'_>,
    ask: Ask,
    refusal: Refusal,
) -> Result<(), AllocError> {
    let answer = print_answer(alloc, core, ask, &Err(refusal))?;
    push_line(writer, line)?;
    writer.words("  ")?;
    writer.bytes(&answer)?;
    writer.words("\n  ")?;
    push_why_words(writer, alloc, text, rules, core, ask, refusal)
}

/// Adds why an ask is refused, as members of an object: of a leaf the reason.
fn push_why_object(
    writer: &mut Writer,
    alloc: Global,
    core: &Core,
    ask: Ask,
    refusal: Refusal,
) -> Result<(), AllocError> {
    match leaf_asked(ask) {
        Some(leaf) if has_reason(refusal) => {
            let reason = why_leaf(alloc, core, leaf)?;
            writer.words(",")?;
            push_reason_members(writer, alloc, core, leaf, &reason)
        }
        _ => Ok(()),
    }
}

/// Begins the object of a line: its number, and the line.
fn push_line_start(writer: &mut Writer, line: Line<'_>) -> Result<(), AllocError>
    ensures { OnOk result (writer.new.text.items ≡ writer.old.text.items ++ line_start (shape_of line.entry)) }
{
    writer.words("{\"line\":")?;
    writer.number(line.number as u64)?;
    writer.text_member("text", line.text)
}

/// Adds why a line is refused, as an object.
fn push_object(
    writer: &mut Writer,
    alloc: Global,
    core: &Core,
    line: Line<'_>,
    ask: Ask,
    refusal: Refusal,
) -> Result<(), AllocError> {
    let answer = print_answer(alloc, core, ask, &Err(refusal))?;
    push_line_start(writer, line)?;
    writer.text_member("reply", &answer)?;
    push_why_object(writer, alloc, core, ask, refusal)?;
    writer.words("}\n")
}

/// Adds a line whose ask is refused: the line, what the run answers, and why.
pub fn push_refused(
    writer: &mut Writer,
    alloc: Global,
    text: &[u8],
    rules: &[WrittenRule],
    core: &Core,
    line: Line<'_>,
    ask: Ask,
    refusal: Refusal,
    form: Form,
) -> Result<(), AllocError> {
    match form {
        Form::Json => push_object(writer, alloc, core, line, ask, refusal),
        Form::Words | Form::WithCircles => {
            push_words(writer, alloc, text, rules, core, line, ask, refusal)
        }
    }
}

/// Adds a line that is refused since it calls a user whom the policy does not have.
pub fn push_no_user(writer: &mut Writer, line: Line<'_>, form: Form) -> Result<(), AllocError> {
    match form {
        Form::Json => {
            push_line_start(writer, line)?;
            writer.text_member("reply", b"refused user")?;
            writer.words("}\n")
        }
        Form::Words | Form::WithCircles => {
            push_line(writer, line)?;
            writer.words("  refused user\n  the policy gives no user of that name a role\n")
        }
    }
}
