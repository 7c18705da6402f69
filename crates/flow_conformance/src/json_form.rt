use crate::cause::Cause;
use crate::findings::place_of;
use crate::judge::Verdict;
use crate::page::{Answered, Labels, cause_word, push_number, write_full};
use crate::sums::{Sums, sums_of};
use std::alloc::{AllocError, Global};
use std::io::{self, Write};

/// The word for a verdict.
pub(crate) fn verdict_word(verdict: Verdict) -> &'static str {
    match verdict {
        Verdict::Execution => "execution",
        Verdict::Front => "front",
        Verdict::Deviates { .. } => "deviates",
        Verdict::Unknown { .. } => "unknown",
        Verdict::Undecided => "undecided",
    }
}

/// Adds a text as a JSON string.
fn push_quoted(page: &mut Vec<u8>, text: &[u8]) -> Result<(), AllocError> {
    page.push(b'"')?;
    for byte in text {
        match *byte {
            b'"' | b'\\' => page.extend_from_slice(&[b'\\', *byte])?,
            0..=31 => {
                page.extend_from_slice(b"\\u00")?;
                page.push(b"01"[(*byte / 16) as usize])?;
                page.push(b"0123456789abcdef"[(*byte % 16) as usize])?;
            }
            other => page.push(other)?,
        }
    }
    page.push(b'"')?;
    Ok(())
}

/// Adds a key and a number.
fn push_field(page: &mut Vec<u8>, key: &str, number: u64) -> Result<(), AllocError> {
    page.extend_from_slice(b",\"")?;
    page.extend_from_slice(key.as_bytes())?;
    page.extend_from_slice(b"\":")?;
    push_number(page, number)
}

/// Adds why a case deviates.
fn push_reason(page: &mut Vec<u8>, labels: &Labels, cause: Cause) -> Result<(), AllocError> {
    page.extend_from_slice(b",\"reason\":{\"kind\":\"")?;
    page.extend_from_slice(cause_word(cause).as_bytes())?;
    page.push(b'"')?;
    if let Cause::Before(other) | Cause::After(other) = cause {
        page.extend_from_slice(b",\"event\":")?;
        push_quoted(page, labels.name(other))?;
    }
    page.push(b'}')?;
    Ok(())
}

/// Adds where and why a case deviates.
fn push_deviation(
    page: &mut Vec<u8>,
    answered: Answered<'_>,
    case: usize,
    at: u32,
) -> Result<(), AllocError> {
    push_field(page, "at", u64::from(at).saturating_add(1))?;
    if let Some(event) = answered.found.event_of(case) {
        page.extend_from_slice(b",\"event\":")?;
        push_quoted(page, answered.labels.name(event))?;
    }
    if let Some(line) = answered.found.lines.get(case) {
        push_field(page, "line", u64::from(*line))?;
    }
    Ok(())
}

/// Adds the object of a case.
fn push_case(page: &mut Vec<u8>, answered: Answered<'_>, case: usize) -> Result<(), AllocError> {
    let Some(finding) = answered.found.of_case(case) else {
        return Ok(());
    };
    page.extend_from_slice(b"{\"case\":")?;
    if let Some(name) = answered.reading.log.cases().get(case) {
        push_quoted(page, name)?;
    }
    page.extend_from_slice(b",\"verdict\":\"")?;
    page.extend_from_slice(verdict_word(finding.verdict).as_bytes())?;
    page.push(b'"')?;
    if let Some(at) = place_of(&finding) {
        push_deviation(page, answered, case, at)?;
    }
    if let Some(cause) = finding.cause {
        push_reason(page, answered.labels, cause)?;
    }
    page.extend_from_slice(b"}\n")?;
    Ok(())
}

/// Adds the object of the sums.
fn push_sums(page: &mut Vec<u8>, sums: &Sums, left_out: u64) -> Result<(), AllocError> {
    page.extend_from_slice(b"{\"cases\":")?;
    push_number(page, sums.cases)?;
    push_field(page, "events", sums.events)?;
    push_field(page, "sequences", sums.sequences)?;
    push_field(page, "execution", sums.execution)?;
    push_field(page, "front", sums.front)?;
    push_field(page, "deviates", sums.deviates)?;
    push_field(page, "unknown", sums.unknown)?;
    push_field(page, "undecided", sums.undecided)?;
    push_field(page, "rows_left_out", left_out)?;
    page.extend_from_slice(b"}\n")
}

/// Writes an object a line for each case, in the order in which they came, and then one with the sums.
pub fn write_json<W: Write>(alloc: Global, out: &mut W, answered: Answered<'_>) -> io::Result<()> {
    let mut page = Vec::new(alloc);
    for case in 0..answered.found.cases.of_cases.len() {
        push_case(&mut page, answered, case)?;
        write_full(out, &mut page)?;
    }
    let sums = sums_of(&answered.reading.log, answered.found);
    push_sums(&mut page, &sums, answered.reading.left_out)?;
    out.write_all(page.as_slice())
}
