//! A journal that is bad at a place: its line, why its leaf may not come there, and what could have come.
ghost use Rattle.std.specs.Prelude.{◌≡◌, ◌++◌, OnOk};
ghost use Rattle.std.specs.List.{flat_map};
ghost use Rattle.flow_run_why_words.specs.Bad.{instead_line, objects_from};

use crate::lines::{Line, push_line, push_line_members};
use crate::reason_json::{push_leaf_members, push_reason_members};
use crate::reason_words::push_reason;
use flow_core::Core;
use flow_reason::Bad;
use flow_record::push_leaf_line;
use flow_why_cli::written_rules;
use flow_workflow::Workflow;
use flow_writer::Writer;
use std::alloc::{AllocError, Global};

/// Adds the line, if there is one.
fn push_shown(writer: &mut Writer, line: Option<Line<'_>>) -> Result<(), AllocError> {
    match line {
        Some(line) => push_line(writer, line),
        None => Ok(()),
    }
}

/// Adds leaves, each on a line.
fn push_leaves(writer: &mut Writer, workflow: &Workflow, leaves: &[u32]) -> Result<(), AllocError>
    ensures { OnOk result (writer.new.text.items ≡ writer.old.text.items ++ flat_map (instead_line workflow.now) leaves.now) }
{
    for leaf in leaves {
        writer.words("  ")?;
        push_leaf_line(&mut writer.text, workflow, *leaf)?;
    }
    Ok(())
}

/// Adds what could have come at a place.
fn push_instead(
    writer: &mut Writer,
    workflow: &Workflow,
    leaves: &[u32],
) -> Result<(), AllocError> {
    match leaves {
        [] => writer.words("nothing could have come there\n"),
        _ => {
            writer.words("could have come there:\n")?;
            push_leaves(writer, workflow, leaves)
        }
    }
}

/// Adds why the leaf may not come there, and what could have come, in words.
fn push_bad(
    writer: &mut Writer,
    alloc: Global,
    text: &[u8],
    core: &Core,
    bad: &Bad,
) -> Result<(), AllocError> {
    let rules = written_rules(alloc, text)?;
    push_reason(writer, alloc, text, &rules, core, bad.leaf, &bad.reason)?;
    push_instead(writer, core.workflow(), &bad.instead)
}

/// What is told in words of a journal that is bad at a place, besides flow's own line: the line there, why its leaf may not come, and what
/// could have come.
pub fn bad_words(
    alloc: Global,
    text: &[u8],
    core: &Core,
    lines: &[Line<'_>],
    place: usize,
    bad: &Option<Bad>,
) -> Result<Vec<u8>, AllocError> {
    let mut writer = Writer::new(alloc);
    push_shown(&mut writer, lines.get(place).copied())?;
    if let Some(bad) = bad {
        push_bad(&mut writer, alloc, text, core, bad)?;
    }
    Ok(writer.text)
}

/// Adds leaves as objects, with commas between them.
fn push_objects(
    writer: &mut Writer,
    alloc: Global,
    workflow: &Workflow,
    leaves: &[u32],
) -> Result<(), AllocError>
    ensures { OnOk result (writer.new.text.items ≡ writer.old.text.items ++ objects_from workflow.now 0 leaves.now) }
{
    for (index, leaf) in leaves.iter().enumerate() {
        writer.between(index, ",")?;
        writer.words("{")?;
        push_leaf_members(writer, alloc, workflow, *leaf)?;
        writer.words("}")?;
    }
    Ok(())
}

/// Adds why the leaf may not come there, and what could have come, as members of an object.
fn push_bad_members(
    writer: &mut Writer,
    alloc: Global,
    core: &Core,
    bad: &Option<Bad>,
) -> Result<(), AllocError> {
    let Some(bad) = bad else {
        return Ok(());
    };
    writer.words(",")?;
    push_reason_members(writer, alloc, core, bad.leaf, &bad.reason)?;
    writer.words(",\"instead\":[")?;
    push_objects(writer, alloc, core.workflow(), &bad.instead)?;
    writer.words("]")
}

/// A journal that is bad at a place, as an object.
pub fn bad_object(
    alloc: Global,
    core: &Core,
    lines: &[Line<'_>],
    place: u32,
    bad: &Option<Bad>,
) -> Result<Vec<u8>, AllocError> {
    let mut writer = Writer::new(alloc);
    writer.words("{\"verdict\":\"bad\"")?;
    writer.number_member("place", u64::from(place))?;
    push_line_members(&mut writer, lines.get(place as usize).copied())?;
    push_bad_members(&mut writer, alloc, core, bad)?;
    writer.words("}\n")?;
    Ok(writer.text)
}
