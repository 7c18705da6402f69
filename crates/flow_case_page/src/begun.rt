//! The tasks that may be begun: at once, or behind tests and updates that are done before.

use crate::words::{label_of, labels_of};
use flow_case_talk::Book;
use flow_core::Core;
use flow_facts::Name;
use flow_names::{State, Todo, waits_for_step};
use flow_page::{Row, Section, row, tabled};
use flow_reason::leaves_before;
use flow_staff::may_take;
use std::alloc::{AllocError, Global};

/// The section of what may be begun: the task, who may, and what is done before.
pub(crate) fn begun_section<B: Book>(
    alloc: Global,
    book: &mut B,
    todo: &Todo,
) -> Result<Section, AllocError> {
    let rows = match todo.state {
        State::Committed => Vec::new(alloc),
        _ => begun_rows(alloc, book, todo)?,
    };
    tabled(
        alloc,
        b"May be begun",
        &["task", "by", "after"],
        rows,
        b"Nothing may be begun now.",
    )
}

fn begun_rows<B: Book>(alloc: Global, book: &mut B, todo: &Todo) -> Result<Vec<Row>, AllocError> {
    let mut rows = Vec::new(alloc);
    for leaf in 0..book.core().workflow().tree().leaves() {
        if let Some(steps) = way_to(alloc, book, todo, leaf)? {
            rows.push(begun_row(alloc, book, leaf, &steps)?)?;
        }
    }
    Ok(rows)
}

fn begun_row<B: Book>(
    alloc: Global,
    book: &B,
    leaf: u32,
    steps: &[u32],
) -> Result<Row, AllocError> {
    let mut cells = Vec::new(alloc);
    cells.push(takers_text(alloc, book, leaf)?)?;
    cells.push(labels_of(alloc, book.core(), steps)?)?;
    Ok(row(label_of(alloc, book.core(), leaf)?, cells))
}

/// The steps behind which the leaf may be taken, if it may.
fn way_to<B: Book>(
    alloc: Global,
    book: &mut B,
    todo: &Todo,
    leaf: u32,
) -> Result<Option<Vec<u32>>, AllocError> {
    if todo.begin.contains(&leaf) {
        return Ok(Some(Vec::new(alloc)));
    }
    if !waits_for_steps_alone(alloc, book.core(), leaf)? {
        return Ok(None);
    }
    let steps = book.steps_to_take(alloc, leaf, 0)?;
    if steps.is_empty() {
        drop(steps);
        Ok(None)
    } else {
        Ok(Some(steps))
    }
}

/// Whether a test or an update stands before the task and may be done, and no other task must come before it.
fn waits_for_steps_alone(alloc: Global, core: &Core, leaf: u32) -> Result<bool, AllocError> {
    if !is_task(core, leaf) || core.journal().contains(&leaf) || !waits_for_step(core, leaf) {
        return Ok(false);
    }
    let before = leaves_before(alloc, core, leaf)?;
    Ok(!before.iter().any(|other| is_task(core, *other)))
}

fn is_task(core: &Core, leaf: u32) -> bool {
    core.workflow().tree().event(leaf).is_some()
}

/// The users to whom duties leave the leaf's task now, with commas between them.
fn takers_text<B: Book>(alloc: Global, book: &B, leaf: u32) -> Result<Name, AllocError> {
    let event = book.core().workflow().tree().event(leaf);
    let (Some(policy), Some(event)) = (book.policy(), event) else {
        return Name::new(alloc, b"anybody");
    };
    let mut text = Vec::new(alloc);
    for user in 0..book.users() {
        if may_take(book.core(), policy, event, user + 1) {
            if !text.is_empty() {
                text.extend_from_slice(b", ")?;
            }
            text.extend_from_slice(book.user_name(user + 1).as_bytes())?;
        }
    }
    if text.is_empty() {
        text.extend_from_slice(b"nobody now")?;
    }
    Name::new(alloc, &text)
}
