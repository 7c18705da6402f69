use crate::findings::place_of;
use crate::json_form::verdict_word;
use crate::page::{Answered, cause_word, push_cause, push_number, write_full};
use crate::sums::{Sums, sums_of};
use std::alloc::{AllocError, Global};
use std::io::{self, Write};

/// Adds a field, in quotes where its text needs them.
fn push_text(page: &mut Vec<u8>, text: &[u8]) -> Result<(), AllocError> {
    if !text
        .iter()
        .any(|byte| matches!(*byte, b',' | b'"' | b'\r' | b'\n'))
    {
        return page.extend_from_slice(text);
    }
    page.push(b'"')?;
    for byte in text {
        if *byte == b'"' {
            page.push(b'"')?;
        }
        page.push(*byte)?;
    }
    page.push(b'"')?;
    Ok(())
}

/// Adds the row of a case.
fn push_case(
    alloc: Global,
    page: &mut Vec<u8>,
    answered: Answered<'_>,
    case: usize,
) -> Result<(), AllocError> {
    let Some(finding) = answered.found.of_case(case) else {
        return Ok(());
    };
    if let Some(name) = answered.reading.log.cases().get(case) {
        push_text(page, name)?;
    }
    page.push(b',')?;
    page.extend_from_slice(verdict_word(finding.verdict).as_bytes())?;
    if let (Some(at), Some(event), Some(cause)) = (
        place_of(&finding),
        answered.found.event_of(case),
        finding.cause,
    ) {
        page.push(b',')?;
        push_number(page, u64::from(at).saturating_add(1))?;
        page.push(b',')?;
        push_text(page, answered.labels.name(event))?;
        page.push(b',')?;
        push_number(
            page,
            u64::from(answered.found.lines.get(case).copied().unwrap_or(0)),
        )?;
        page.push(b',')?;
        let mut words = Vec::new(alloc);
        push_cause(&mut words, answered.labels, event, cause)?;
        page.extend_from_slice(cause_word(cause).as_bytes())?;
        page.extend_from_slice(b",")?;
        push_text(page, words.as_slice())?;
        page.push(b'\n')?;
    } else {
        page.extend_from_slice(b",,,,,\n")?;
    }
    Ok(())
}

/// Adds a count as a row.
fn push_count(page: &mut Vec<u8>, word: &str, number: u64) -> Result<(), AllocError> {
    page.extend_from_slice(b",sum of ")?;
    page.extend_from_slice(word.as_bytes())?;
    page.push(b',')?;
    push_number(page, number)?;
    page.extend_from_slice(b",,,,\n")
}

/// Adds the sums, each as a row without a case.
fn push_sums(page: &mut Vec<u8>, sums: &Sums) -> Result<(), AllocError> {
    push_count(page, "cases", sums.cases)?;
    push_count(page, "events", sums.events)?;
    push_count(page, "sequences", sums.sequences)?;
    push_count(page, "execution", sums.execution)?;
    push_count(page, "front", sums.front)?;
    push_count(page, "deviates", sums.deviates)?;
    push_count(page, "unknown", sums.unknown)?;
    push_count(page, "undecided", sums.undecided)
}

/// Writes a row for each case, in the order in which they came, and then the sums.
pub fn write_csv<W: Write>(alloc: Global, out: &mut W, answered: Answered<'_>) -> io::Result<()> {
    let mut page = Vec::new(alloc);
    page.extend_from_slice(b"case,verdict,at,event,line,reason,words\n")?;
    for case in 0..answered.found.cases.of_cases.len() {
        push_case(alloc, &mut page, answered, case)?;
        write_full(out, &mut page)?;
    }
    push_sums(&mut page, &sums_of(&answered.reading.log, answered.found))?;
    out.write_all(page.as_slice())
}
