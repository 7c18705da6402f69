//! Answers as JSON objects.

use crate::asked::entries;
use crate::lines::{deed_of, label, user_name};
use crate::subject::Subject;
use flow_model::Entry;
use flow_questions::{Manning, Shared};
use flow_writer::Writer;
use std::alloc::{AllocError, Global};

/// Where an option has such a run, which could not be made.
const UNMADE: &str = "{\"answer\":\"unmade\"}\n";

/// Adds an entry as an object.
fn push_entry(
    writer: &mut Writer,
    alloc: Global,
    subject: &Subject,
    place: usize,
    entry: &Entry,
) -> Result<(), AllocError> {
    let (deed, leaf) = deed_of(subject, place, entry);
    writer.words("{\"entry\":\"")?;
    writer.words(deed)?;
    writer.words("\",\"leaf\":")?;
    writer.number(u64::from(leaf))?;
    writer.words(",\"label\":")?;
    writer.quoted(&label(alloc, subject, leaf)?)?;
    if entry.by > 0 {
        writer.words(",\"by\":")?;
        writer.quoted(user_name(subject, entry.by))?;
    }
    writer.words("}")
}

/// Adds the entries of the run, and ends the object.
fn push_run(writer: &mut Writer, alloc: Global, subject: &Subject) -> Result<(), AllocError> {
    writer.words(",\"run\":[")?;
    let mut before = "";
    for (place, entry) in entries(&subject.run).iter().enumerate() {
        writer.words(before)?;
        push_entry(writer, alloc, subject, place, entry)?;
        before = ",";
    }
    writer.words("]}\n")
}

/// Adds that nothing was found among so many states.
fn push_undecided(writer: &mut Writer, looked: u64) -> Result<(), AllocError> {
    writer.words("{\"answer\":\"undecided\",\"states\":")?;
    writer.number(looked)?;
    writer.words("}\n")
}

/// What is found of one user who has both events.
pub(crate) fn shared(
    alloc: Global,
    subject: &Subject,
    told: Shared,
) -> Result<Vec<u8>, AllocError> {
    let mut writer = Writer::new(alloc);
    match told {
        Shared::By(user) => {
            writer.words("{\"answer\":\"yes\",\"user\":")?;
            writer.quoted(user_name(subject, user))?;
            push_run(&mut writer, alloc, subject)?;
        }
        Shared::Never => writer.words("{\"answer\":\"never\"}\n")?,
        Shared::Undecided(looked) => push_undecided(&mut writer, looked)?,
        Shared::Unmade => writer.words(UNMADE)?,
    }
    Ok(writer.text)
}

/// What is found of an event that nobody may take.
pub(crate) fn manned(
    alloc: Global,
    subject: &Subject,
    told: Manning,
) -> Result<Vec<u8>, AllocError> {
    let mut writer = Writer::new(alloc);
    match told {
        Manning::Unmanned(leaf) => {
            writer.words("{\"answer\":\"no\",\"task\":")?;
            writer.quoted(&label(alloc, subject, leaf)?)?;
            push_run(&mut writer, alloc, subject)?;
        }
        Manning::Always => writer.words("{\"answer\":\"always\"}\n")?,
        Manning::Undecided(looked) => push_undecided(&mut writer, looked)?,
        Manning::Unmade => writer.words(UNMADE)?,
    }
    Ok(writer.text)
}
