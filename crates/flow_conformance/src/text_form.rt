use crate::findings::place_of;
use crate::kinds::{Kind, kinds_of};
use crate::page::{Answered, push_aligned, push_cause, push_number, write_full};
use crate::sums::{Sums, sums_of};
use flow_event_log::{BadRow, Flaw};
use std::alloc::{AllocError, Global};
use std::io::{self, Write};

/// Adds which columns were taken for what.
fn push_columns(page: &mut Vec<u8>, answered: Answered<'_>) -> Result<(), AllocError> {
    let columns = &answered.reading.columns;
    let header = answered.reading.header.as_slice();
    page.extend_from_slice(b"columns: case is ")?;
    push_name(page, header, columns.case)?;
    page.extend_from_slice(b", activity is ")?;
    push_name(page, header, columns.activity)?;
    match columns.time {
        Some(place) => {
            page.extend_from_slice(b", time is ")?;
            push_name(page, header, place)?;
        }
        None => page.extend_from_slice(b", no time")?,
    }
    if answered.reading.was_sorted {
        page.extend_from_slice(b"; events are in the order of their times")?;
    }
    page.push(b'\n')?;
    Ok(())
}

/// Adds the name of a column.
fn push_name(page: &mut Vec<u8>, header: &[Vec<u8>], place: usize) -> Result<(), AllocError> {
    match header.get(place) {
        Some(name) => page.extend_from_slice(name.as_slice()),
        None => Ok(()),
    }
}

/// What is wrong with a row.
fn flaw_words(flaw: Flaw) -> &'static str {
    match flaw {
        Flaw::TooFewFields => "too few fields",
        Flaw::Empty => "an empty case or activity",
        Flaw::NotText => "not UTF-8",
    }
}

/// Adds the rows that were left out.
fn push_bad_rows(page: &mut Vec<u8>, rows: &[BadRow], left_out: u64) -> Result<(), AllocError> {
    if left_out == 0 {
        return Ok(());
    }
    push_number(page, left_out)?;
    page.extend_from_slice(b" rows left out\n")?;
    for row in rows {
        page.extend_from_slice(b"  line ")?;
        push_number(page, row.line)?;
        page.extend_from_slice(b": ")?;
        page.extend_from_slice(flaw_words(row.flaw).as_bytes())?;
        page.push(b'\n')?;
    }
    if rows.len() as u64 != left_out {
        page.extend_from_slice(b"  ..\n")?;
    }
    Ok(())
}

/// Adds a number and what it counts.
fn push_sum(page: &mut Vec<u8>, words: &str, number: u64) -> Result<(), AllocError> {
    page.extend_from_slice(words.as_bytes())?;
    push_aligned(page, number, 10)?;
    page.push(b'\n')?;
    Ok(())
}

/// Adds the counts.
fn push_sums(page: &mut Vec<u8>, sums: &Sums) -> Result<(), AllocError> {
    push_number(page, sums.cases)?;
    page.extend_from_slice(b" cases, ")?;
    push_number(page, sums.events)?;
    page.extend_from_slice(b" events, ")?;
    push_number(page, sums.sequences)?;
    page.extend_from_slice(b" sequences\n")?;
    push_sum(page, "executions", sums.execution)?;
    push_sum(page, "unfinished", sums.front)?;
    push_sum(page, "deviations", sums.deviates)?;
    push_sum(page, "unknown   ", sums.unknown)?;
    push_sum(page, "undecided ", sums.undecided)
}

/// Adds a kind of deviation.
fn push_kind(page: &mut Vec<u8>, answered: Answered<'_>, kind: &Kind) -> Result<(), AllocError> {
    push_aligned(page, kind.cases, 9)?;
    page.extend_from_slice(b"  ")?;
    push_cause(page, answered.labels, kind.event, kind.cause)?;
    page.extend_from_slice(b"; case ")?;
    if let Some(name) = answered.reading.log.cases().get(kind.first) {
        page.extend_from_slice(name)?;
    }
    if let Some(finding) = answered.found.of_case(kind.first) {
        if let Some(at) = place_of(&finding) {
            page.extend_from_slice(b" at event ")?;
            push_number(page, u64::from(at).saturating_add(1))?;
        }
    }
    if let Some(line) = answered.found.lines.get(kind.first) {
        page.extend_from_slice(b", line ")?;
        push_number(page, u64::from(*line))?;
    }
    page.push(b'\n')?;
    Ok(())
}

/// Writes the counts, and a line for each kind of deviation.
pub fn write_text<W: Write>(alloc: Global, out: &mut W, answered: Answered<'_>) -> io::Result<()> {
    let mut page = Vec::new(alloc);
    push_columns(&mut page, answered)?;
    push_bad_rows(
        &mut page,
        answered.reading.bad_rows.as_slice(),
        answered.reading.left_out,
    )?;
    push_sums(&mut page, &sums_of(&answered.reading.log, answered.found))?;
    let kinds = kinds_of(alloc, answered.found)?;
    for kind in &kinds {
        push_kind(&mut page, answered, kind)?;
        write_full(out, &mut page)?;
    }
    out.write_all(page.as_slice())
}
