//! What the boxes of a picture show of a case: who did or has each leaf, and when.

use crate::history::told_at;
use crate::shown::tellings_of;
use crate::tasks::{Place, place_of, places_of};
use crate::words::text_of;
use flow_case_talk::{Book, Told};
use flow_draw::Piece;
use flow_facts::Name;
use std::alloc::{AllocError, Global};

/// Of each leaf that is done or out who did or has it, and when, to the minute. They are by the numbers of the leaves; of any other leaf
/// the note is empty.
pub fn leaf_notes<B: Book>(alloc: Global, book: &B) -> Result<Vec<Name>, AllocError> {
    let places = places_of(alloc, book.core())?;
    let tellings = tellings_of(alloc, book)?;
    let mut notes = Vec::new(alloc);
    for leaf in 0..book.core().workflow().tree().leaves() {
        notes.push(leaf_note(alloc, &places, &tellings, leaf)?)?;
    }
    Ok(notes)
}

fn leaf_note(
    alloc: Global,
    places: &[Place],
    tellings: &[Told<'_>],
    leaf: u32,
) -> Result<Name, AllocError> {
    match place_of(places, leaf) {
        Some(place) => note_of(alloc, told_at(tellings, place)),
        None => Name::new(alloc, b""),
    }
}

/// Who and when.
fn note_of(alloc: Global, told: Told<'_>) -> Result<Name, AllocError> {
    let by = Piece::Words(told.by.as_bytes());
    match minute_in(told.at.as_bytes()) {
        Some((day, minute)) => text_of(
            alloc,
            &[
                by,
                Piece::Words(b" "),
                Piece::Words(day),
                Piece::Words(b" "),
                Piece::Words(minute),
            ],
        ),
        None => text_of(
            alloc,
            &[by, Piece::Words(b" "), Piece::Words(told.at.as_bytes())],
        ),
    }
}

/// The day and the minute of a time as `2026-11-30T14:02:11Z`, if it is one.
fn minute_in(at: &[u8]) -> Option<(&[u8], &[u8])> {
    if at.len() > 16 && at[10] == b'T' && at[16] == b':' {
        Some((&at[..10], &at[11..16]))
    } else {
        None
    }
}
