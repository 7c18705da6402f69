use crate::things::Subject;
use flow_fault::spot_of;
use flow_lint::{Finding, Kind};
use flow_writer::Writer;
use std::alloc::{AllocError, Global};

/// The word of a kind.
fn kind_name(kind: Kind) -> &'static str {
    match kind {
        Kind::NeverAdded => "never_added",
        Kind::NeverTested => "never_tested",
        Kind::UnusedEvent => "unused_event",
        Kind::UnusedFlow => "unused_flow",
        Kind::DeadLeaf => "dead_leaf",
        Kind::Redundant => "redundant",
        Kind::Unsettled => "unsettled",
        Kind::Idle => "idle",
        Kind::IdleNop => "idle_nop",
        Kind::LoneIso => "lone_iso",
    }
}

/// Adds a finding as an object.
fn push_object(
    writer: &mut Writer,
    alloc: Global,
    subject: &Subject<'_>,
    finding: Finding,
) -> Result<(), AllocError> {
    writer.words("{\"finding\":")?;
    writer.quoted(kind_name(finding.kind).as_bytes())?;
    writer.number_member("number", u64::from(finding.number))?;
    if let Some(place) = subject.place(alloc, finding)? {
        let spot = spot_of(subject.text, subject.text.len().min(place));
        writer.number_member("line", spot.line as u64)?;
        writer.number_member("column", spot.column as u64)?;
    }
    let mut name = Vec::new(alloc);
    subject.push_name(&mut name, finding)?;
    if !name.is_empty() {
        writer.text_member("name", &name)?;
    }
    writer.words("}")
}

/// Findings as a list of objects, on a line.
pub(crate) fn finding_objects(
    alloc: Global,
    subject: &Subject<'_>,
    findings: &[Finding],
) -> Result<Vec<u8>, AllocError> {
    let mut writer = Writer::new(alloc);
    writer.words("{\"findings\":[")?;
    for (index, finding) in findings.iter().enumerate() {
        writer.between(index, ",")?;
        push_object(&mut writer, alloc, subject, *finding)?;
    }
    writer.words("]}\n")?;
    Ok(writer.text)
}
