//! Each leaf of the workflow, and where the run stands at it: what the picture shows, in words.

use crate::history::told_at;
use crate::words::{label_of, number_text};
use flow_case_talk::{Book, Told};
use flow_core::Core;
use flow_facts::Name;
use flow_page::{Row, Section, row, tabled};
use flow_standing::{Doing, Standing, claims_out, doings, standings};
use std::alloc::{AllocError, Global};

/// The section of tasks and steps: each with its number, where the run stands at it, by whom and when.
pub(crate) fn tasks_section<B: Book>(
    alloc: Global,
    book: &B,
    tellings: &[Told<'_>],
) -> Result<Section, AllocError> {
    let core = book.core();
    let places = places_of(alloc, core)?;
    let standings = standings(alloc, core)?;
    let mut rows = Vec::new(alloc);
    for leaf in 0..core.workflow().tree().leaves() {
        let told = match place_of(&places, leaf) {
            Some(place) => told_at(tellings, place),
            None => told_at(&[], 0),
        };
        let standing = standing_at(&standings, leaf);
        rows.push(task_row(alloc, core, leaf, standing, told)?)?;
    }
    tabled(
        alloc,
        b"Tasks and steps",
        &["n", "task or step", "stands", "by", "at"],
        rows,
        b"The workflow has no task.",
    )
}

fn task_row(
    alloc: Global,
    core: &Core,
    leaf: u32,
    standing: Standing,
    told: Told<'_>,
) -> Result<Row, AllocError> {
    let mut cells = Vec::new(alloc);
    cells.push(label_of(alloc, core, leaf)?)?;
    cells.push(Name::new(alloc, standing_words(standing))?)?;
    cells.push(Name::new(alloc, told.by.as_bytes())?)?;
    cells.push(Name::new(alloc, told.at.as_bytes())?)?;
    Ok(row(number_text(alloc, leaf as u64)?, cells))
}

fn standing_at(standings: &[Standing], leaf: u32) -> Standing {
    match standings.get(leaf as usize) {
        Some(standing) => *standing,
        None => Standing::Plain,
    }
}

/// Where a run stands at a leaf, in words.
fn standing_words(standing: Standing) -> &'static [u8] {
    match standing {
        Standing::Done => b"done",
        Standing::Claimed => b"out",
        Standing::Next => b"next",
        Standing::Banned => b"given up",
        Standing::Failed => b"failed",
        Standing::Plain => b"",
    }
}

/// A leaf, and the place of the entry that put it on the journal or gave the claim on it.
#[derive(Clone, Copy)]
pub(crate) struct Place {
    leaf: u32,
    entry: usize,
}

/// The entries that the leaves stand by which are done or out.
pub(crate) fn places_of(alloc: Global, core: &Core) -> Result<Vec<Place>, AllocError> {
    let mut places = Vec::new(alloc);
    push_done(&mut places, &doings(alloc, core)?)?;
    for out in claims_out(alloc, core)?.iter() {
        places.push(Place {
            leaf: out.call.leaf,
            entry: out.place,
        })?;
    }
    Ok(places)
}

fn push_done(places: &mut Vec<Place>, done: &[Doing]) -> Result<(), AllocError> {
    for doing in done {
        places.push(Place {
            leaf: doing.leaf,
            entry: doing.place,
        })?;
    }
    Ok(())
}

pub(crate) fn place_of(places: &[Place], leaf: u32) -> Option<usize> {
    for place in places {
        if place.leaf == leaf {
            return Some(place.entry);
        }
    }
    None
}
