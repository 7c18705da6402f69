//! Answers in words.

use crate::asked::entries;
use crate::lines::{deed_of, label, user_name};
use crate::subject::Subject;
use flow_model::Entry;
use flow_questions::{Manning, Shared};
use flow_writer::Writer;
use std::alloc::{AllocError, Global};

/// Where an option has such a run, which could not be made.
const UNMADE: &str =
    "unmade: such a run was found, but could not be made (a fault of this program: please report it)\n";

/// Adds the line of an entry: who makes it, what it does, and what stands at its leaf.
fn push_entry(
    writer: &mut Writer,
    alloc: Global,
    subject: &Subject,
    place: usize,
    entry: &Entry,
) -> Result<(), AllocError> {
    let (deed, leaf) = deed_of(subject, place, entry);
    writer.words("  ")?;
    if entry.by > 0 {
        writer.bytes(user_name(subject, entry.by))?;
        writer.words(" ")?;
    }
    writer.words(deed)?;
    writer.words(" ")?;
    writer.bytes(&label(alloc, subject, leaf)?)?;
    writer.words("\n")
}

/// Adds the entries of the run.
fn push_run(writer: &mut Writer, alloc: Global, subject: &Subject) -> Result<(), AllocError> {
    for (place, entry) in entries(&subject.run).iter().enumerate() {
        push_entry(writer, alloc, subject, place, entry)?;
    }
    Ok(())
}

/// Adds that nothing was found among so many states.
fn push_undecided(writer: &mut Writer, looked: u64) -> Result<(), AllocError> {
    writer.words("undecided: no such run found among ")?;
    writer.number(looked)?;
    writer.words(" states (there may be one)\n")
}

/// What is found of one user who has both events.
pub(crate) fn shared(
    alloc: Global,
    subject: &Subject,
    names: (&[u8], &[u8]),
    told: Shared,
) -> Result<Vec<u8>, AllocError> {
    let mut writer = Writer::new(alloc);
    match told {
        Shared::By(user) => {
            writer.words("yes: ")?;
            writer.bytes(user_name(subject, user))?;
            writer.words(" can take ")?;
            writer.bytes(names.0)?;
            writer.words(" and ")?;
            writer.bytes(names.1)?;
            writer.words(" in one run:\n")?;
            push_run(&mut writer, alloc, subject)?;
        }
        Shared::Never => {
            writer.words("never: nobody can take ")?;
            writer.bytes(names.0)?;
            writer.words(" and ")?;
            writer.bytes(names.1)?;
            writer.words(" in one run\n")?;
        }
        Shared::Undecided(looked) => push_undecided(&mut writer, looked)?,
        Shared::Unmade => writer.words(UNMADE)?,
    }
    Ok(writer.text)
}

/// Behind which run it is so.
fn behind_what(subject: &Subject) -> &'static str {
    if entries(&subject.run).is_empty() {
        ", at the start\n"
    } else {
        " behind this run:\n"
    }
}

/// What is found of an event that nobody may take.
pub(crate) fn manned(
    alloc: Global,
    subject: &Subject,
    told: Manning,
) -> Result<Vec<u8>, AllocError> {
    let mut writer = Writer::new(alloc);
    match told {
        Manning::Unmanned(leaf) => {
            writer.words("nobody may take ")?;
            writer.bytes(&label(alloc, subject, leaf)?)?;
            writer.words(behind_what(subject))?;
            push_run(&mut writer, alloc, subject)?;
        }
        Manning::Always => {
            writer.words("always: whatever may be begun, there is somebody who may take it\n")?;
        }
        Manning::Undecided(looked) => push_undecided(&mut writer, looked)?,
        Manning::Unmade => writer.words(UNMADE)?,
    }
    Ok(writer.text)
}
