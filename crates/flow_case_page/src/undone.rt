//! What steps back took, and what of it is undone outside.

use crate::history::told_at;
use crate::words::{label_of, number_text};
use flow_case_talk::{Book, Told};
use flow_facts::Name;
use flow_page::{Row, Section, row, tabled};
use flow_standing::{TakenBack, taken_back};
use std::alloc::{AllocError, Global};

/// The section of what was taken back: the task, its claim, who did it and when, and whether it is undone outside.
pub(crate) fn undone_section<B: Book>(
    alloc: Global,
    book: &B,
    tellings: &[Told<'_>],
) -> Result<Section, AllocError> {
    let mut rows = Vec::new(alloc);
    for taken in taken_back(alloc, book.core())?.iter() {
        rows.push(undone_row(alloc, book, told_at(tellings, taken.done), taken)?)?;
    }
    tabled(
        alloc,
        b"Taken back",
        &["task", "claim", "done by", "at", "outside"],
        rows,
        b"Nothing was taken back.",
    )
}

fn undone_row<B: Book>(
    alloc: Global,
    book: &B,
    told: Told<'_>,
    taken: &TakenBack,
) -> Result<Row, AllocError> {
    let mut cells = Vec::new(alloc);
    cells.push(number_text(alloc, taken.claim as u64)?)?;
    cells.push(Name::new(alloc, told.by.as_bytes())?)?;
    cells.push(Name::new(alloc, told.at.as_bytes())?)?;
    cells.push(Name::new(alloc, outside_words(book.is_ticked_off(taken.done)))?)?;
    Ok(row(label_of(alloc, book.core(), taken.leaf)?, cells))
}

/// Whether a task is undone outside, in words.
fn outside_words(is_undone: bool) -> &'static [u8] {
    if is_undone {
        b"undone"
    } else {
        b"to be undone"
    }
}
