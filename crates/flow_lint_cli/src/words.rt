use crate::things::Subject;
use flow_fault::spot_of;
use flow_lint::{Finding, Kind};
use flow_writer::Writer;
use std::alloc::{AllocError, Global};

/// What is said before the name of that of which a finding of the kind speaks, and behind it.
fn said_of(kind: Kind) -> (&'static str, &'static str) {
    match kind {
        Kind::NeverAdded => ("the fact ", " is tested and never added"),
        Kind::NeverTested => ("the fact ", " is added and never tested"),
        Kind::UnusedEvent => ("the event ", " is declared, and the goal does not have it"),
        Kind::UnusedFlow => ("the sub-workflow ", " is declared, and no goal names it"),
        Kind::DeadLeaf => ("no execution has ", " here"),
        Kind::Redundant => ("this constraint follows from the others", ""),
        Kind::Unsettled => (
            "whether this constraint follows from the others is not known: to see it passes the limits",
            "",
        ),
        Kind::Idle => (
            "this constraint names an event that the goal does not have",
            "",
        ),
        Kind::IdleNop => ("this nop changes nothing", ""),
        Kind::LoneIso => ("this iso changes nothing: one part alone is inside", ""),
    }
}

/// Adds the line of a finding.
fn push_line(
    writer: &mut Writer,
    alloc: Global,
    subject: &Subject<'_>,
    finding: Finding,
) -> Result<(), AllocError> {
    if let Some(place) = subject.place(alloc, finding)? {
        let spot = spot_of(subject.text, subject.text.len().min(place));
        writer.words("line ")?;
        writer.number(spot.line as u64)?;
        writer.words(", column ")?;
        writer.number(spot.column as u64)?;
        writer.words(": ")?;
    }
    let (before, behind) = said_of(finding.kind);
    writer.words(before)?;
    subject.push_name(&mut writer.text, finding)?;
    writer.words(behind)?;
    writer.words("\n")
}

/// Findings in words, a line each.
pub(crate) fn finding_lines(
    alloc: Global,
    subject: &Subject<'_>,
    findings: &[Finding],
) -> Result<Vec<u8>, AllocError> {
    let mut writer = Writer::new(alloc);
    for finding in findings {
        push_line(&mut writer, alloc, subject, *finding)?;
    }
    Ok(writer.text)
}
