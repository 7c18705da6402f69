//! The tasks that are out.

use crate::history::told_at;
use crate::words::{label_of, number_text};
use flow_case_talk::{Book, Told};
use flow_facts::Name;
use flow_page::{Row, Section, row, tabled};
use flow_standing::{Out, claims_out};
use std::alloc::{AllocError, Global};

/// The section of what is out: the task, of whom, since when, and what names it.
pub(crate) fn out_section<B: Book>(
    alloc: Global,
    book: &B,
    tellings: &[Told<'_>],
) -> Result<Section, AllocError> {
    let mut rows = Vec::new(alloc);
    for out in claims_out(alloc, book.core())?.iter() {
        rows.push(out_row(alloc, book, told_at(tellings, out.place), out)?)?;
    }
    tabled(
        alloc,
        b"Out",
        &["task", "of", "from", "claim", "attempt", "key"],
        rows,
        b"Nothing is out.",
    )
}

fn out_row<B: Book>(alloc: Global, book: &B, told: Told<'_>, out: &Out) -> Result<Row, AllocError> {
    let label = label_of(alloc, book.core(), out.call.leaf)?;
    let mut key = Vec::from_slice(alloc, book.path().as_bytes())?;
    key.extend_from_slice(b"/")?;
    key.extend_from_slice(label.bytes())?;
    let mut cells = Vec::new(alloc);
    cells.push(Name::new(alloc, told.by.as_bytes())?)?;
    cells.push(Name::new(alloc, told.at.as_bytes())?)?;
    cells.push(number_text(alloc, out.call.claim as u64)?)?;
    cells.push(number_text(alloc, out.call.attempt as u64)?)?;
    cells.push(Name::new(alloc, &key)?)?;
    Ok(row(label, cells))
}
