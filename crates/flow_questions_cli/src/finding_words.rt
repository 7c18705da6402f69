//! What to look at in a policy, in words: a line for each finding.

use crate::policy_places::{Places, are_separate, event_name};
use crate::subject::Subject;
use flow_policy_lint::PolicyFindings;
use flow_writer::Writer;
use std::alloc::{AllocError, Global};

/// Adds a place in the policy's file.
fn push_spot(writer: &mut Writer, spot: (usize, usize)) -> Result<(), AllocError> {
    writer.words("line ")?;
    writer.number(spot.0 as u64)?;
    writer.words(", column ")?;
    writer.number(spot.1 as u64)?;
    writer.words(": ")
}

/// Adds that no user may take the event.
fn push_untaken(writer: &mut Writer, subject: &Subject, event: u32) -> Result<(), AllocError> {
    writer.words("nobody may take ")?;
    writer.bytes(event_name(subject, event))?;
    writer.words(": no user has a role that is allowed it\n")
}

/// Adds that the role of the statement of that number is allowed nothing.
fn push_idle_role(writer: &mut Writer, places: &Places<'_>, number: u32) -> Result<(), AllocError> {
    let (role, spot) = places.first_name(number);
    push_spot(writer, spot)?;
    writer.words("the role ")?;
    writer.bytes(role)?;
    writer.words(" is allowed no event\n")
}

/// Adds two events that are tied so.
fn push_tied(
    writer: &mut Writer,
    subject: &Subject,
    word: &str,
    pair: (u32, u32),
) -> Result<(), AllocError> {
    writer.words(word)?;
    writer.words(" ")?;
    writer.bytes(event_name(subject, pair.0))?;
    writer.words(" ")?;
    writer.bytes(event_name(subject, pair.1))
}

/// Adds that no one user may have both bound events.
fn push_unmet_bind(
    writer: &mut Writer,
    subject: &Subject,
    places: &Places<'_>,
    pair: (u32, u32),
) -> Result<(), AllocError> {
    push_spot(writer, places.bind(subject, pair.0, pair.1))?;
    push_tied(writer, subject, "bind", pair)?;
    if are_separate(subject, pair.0, pair.1) {
        writer.words(": the two are separate too\n")
    } else {
        writer.words(": no user has roles for both\n")
    }
}

/// Adds that no two users may have the separate events.
fn push_unmet_separate(
    writer: &mut Writer,
    subject: &Subject,
    places: &Places<'_>,
    pair: (u32, u32),
) -> Result<(), AllocError> {
    push_spot(writer, places.separate(subject, pair.0, pair.1))?;
    push_tied(writer, subject, "separate", pair)?;
    writer.words(": no two users have roles for them\n")
}

/// Adds that a task behind a final event has no way out where it fails.
fn push_stuck(writer: &mut Writer, subject: &Subject, pair: (u32, u32)) -> Result<(), AllocError> {
    writer.words("stuck behind ")?;
    writer.bytes(event_name(subject, pair.0))?;
    writer.words(": ")?;
    writer.bytes(event_name(subject, pair.1))?;
    writer.words(" may fail, and the last choice lies before it\n")
}

/// Adds what is found of events and roles.
fn push_of_roles(
    writer: &mut Writer,
    subject: &Subject,
    places: &Places<'_>,
    found: &PolicyFindings,
) -> Result<(), AllocError> {
    for event in &found.untaken {
        push_untaken(writer, subject, *event)?;
    }
    for number in &found.idle_roles {
        push_idle_role(writer, places, *number)?;
    }
    Ok(())
}

/// Adds what is found of ties and of final events.
fn push_of_pairs(
    writer: &mut Writer,
    subject: &Subject,
    places: &Places<'_>,
    found: &PolicyFindings,
) -> Result<(), AllocError> {
    for pair in &found.unmet_binds {
        push_unmet_bind(writer, subject, places, *pair)?;
    }
    for pair in &found.unmet_separates {
        push_unmet_separate(writer, subject, places, *pair)?;
    }
    for pair in &found.stuck {
        push_stuck(writer, subject, *pair)?;
    }
    Ok(())
}

/// What is found, in words.
pub(crate) fn finding_lines(
    alloc: Global,
    subject: &Subject,
    places: &Places<'_>,
    found: &PolicyFindings,
) -> Result<Vec<u8>, AllocError> {
    let mut writer = Writer::new(alloc);
    push_of_roles(&mut writer, subject, places, found)?;
    push_of_pairs(&mut writer, subject, places, found)?;
    Ok(writer.text)
}
