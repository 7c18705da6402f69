//! Which constraints no execution meets together, in words.
ghost use Rattle.std.specs.Prelude.{◌≡◌, ◌++◌, ℕ, List, OnOk, slice_get};
ghost use Rattle.flow_why_cli.specs.Words.{IsRuleLine, IsWritten, IsWrittenAt};

use crate::rule_words::{WrittenRule, written_rules};
use flow_excise::Dropped;
use flow_fault::spot_of;
use flow_why::Conflict;
use flow_workflow::{Workflow, push_leaf_label};
use flow_writer::Writer;
use std::alloc::{AllocError, Global};

/// Adds the line of a constraint in the text, and what is written there.
fn push_written_at(writer: &mut Writer, text: &[u8], rule: &WrittenRule) -> Result<(), AllocError>
    ensures { OnOk result ((written : List ℕ) × IsWrittenAt text.now rule.now written × (writer.new.text.items ≡ writer.old.text.items ++ written)) }
{
    let spot = spot_of(text, text.len().min(rule.place));
    writer.words(", line ")?;
    writer.number(spot.line as u64)?;
    writer.words(": ")?;
    writer.bytes(&rule.text)
}

/// Adds the same, if the text has the constraint.
fn push_written(
    writer: &mut Writer,
    text: &[u8],
    rules: &[WrittenRule],
    number: u32,
) -> Result<(), AllocError>
    ensures { OnOk result ((written : List ℕ) × IsWritten text.now (slice_get rules.now number) written
        × (writer.new.text.items ≡ writer.old.text.items ++ written)) }
{
    match rules.get(number as usize) {
        Some(rule) => push_written_at(writer, text, rule),
        None => Ok(()),
    }
}

/// Adds a constraint: its line and what is written there.
pub fn push_rule(
    writer: &mut Writer,
    text: &[u8],
    rules: &[WrittenRule],
    number: u32,
) -> Result<(), AllocError>
    ensures { OnOk result ((line : List ℕ) × IsRuleLine text.now (slice_get rules.now number) number line
        × (writer.new.text.items ≡ writer.old.text.items ++ line)) }
{
    writer.words("  constraint ")?;
    writer.number(u64::from(number))?;
    push_written(writer, text, rules, number)?;
    writer.words("\n")
}

/// Adds a conflict: the constraints, and which of them are perhaps not needed.
fn push_conflict(
    writer: &mut Writer,
    text: &[u8],
    rules: &[WrittenRule],
    conflict: &Conflict,
) -> Result<(), AllocError> {
    match conflict.members.len() {
        1 => writer.words("no execution meets this constraint:\n")?,
        _ => writer.words("no execution meets these constraints together:\n")?,
    }
    for member in &conflict.members {
        push_rule(writer, text, rules, *member)?;
    }
    if conflict.undecided.is_empty() {
        return match conflict.members.len() {
            1 => Ok(()),
            _ => writer.words(
                "each of them is needed for that: without it some execution meets the others\n",
            ),
        };
    }
    writer.words("perhaps not needed, since to see it passes the limits:\n")?;
    for member in &conflict.undecided {
        push_rule(writer, text, rules, *member)?;
    }
    Ok(())
}

/// Adds the circle of an option, its leaves with their labels.
fn push_circle(
    writer: &mut Writer,
    workflow: &Workflow,
    dropped: &Dropped,
) -> Result<(), AllocError> {
    writer.words("resolution ")?;
    writer.number(dropped.resolution)?;
    writer.words(", way ")?;
    writer.number(dropped.way)?;
    writer.words(": circle")?;
    for leaf in dropped.circle.leaves() {
        writer.words(" ")?;
        writer.number(u64::from(*leaf))?;
        writer.words(" ")?;
        push_leaf_label(&mut writer.text, workflow, *leaf)?;
    }
    writer.words("\n")
}

/// Why no execution meets the constraints of a workflow, in words.
pub(crate) fn conflict_words(
    alloc: Global,
    text: &[u8],
    workflow: &Workflow,
    conflict: &Conflict,
    circles: &[Dropped],
) -> Result<Vec<u8>, AllocError> {
    let rules = written_rules(alloc, text)?;
    let mut writer = Writer::new(alloc);
    push_conflict(&mut writer, text, &rules, conflict)?;
    for option in circles {
        push_circle(&mut writer, workflow, option)?;
    }
    Ok(writer.text)
}
