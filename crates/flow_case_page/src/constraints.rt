//! The constraints of a workflow.
use crate::words::number_text;
use flow_draw::notes_of;
use flow_facts::Name;
use flow_form::Script;
use flow_page::{Row, Section, row, tabled};
use flow_record::cut;
use flow_text::parse;
use std::alloc::{AllocError, Global};

/// The section of the constraints that the workflow's text has, each with its number.
pub(crate) fn constraints_section(alloc: Global, text: &[u8]) -> Result<Section, AllocError> {
    let mut rows = Vec::new(alloc);
    for (number, note) in notes_in(alloc, text)?.iter().enumerate() {
        rows.push(constraint_row(alloc, number as u64, note)?)?;
    }
    tabled(
        alloc,
        b"Constraints",
        &["n", "constraint"],
        rows,
        b"The workflow has no constraint.",
    )
}

fn constraint_row(alloc: Global, number: u64, note: &Name) -> Result<Row, AllocError> {
    let mut cells = Vec::new(alloc);
    cells.push(note.copy(alloc)?)?;
    Ok(row(number_text(alloc, number)?, cells))
}

/// The constraints of the workflow that stands in front of a line `%%`. There are none where the text says no workflow.
fn notes_in(alloc: Global, text: &[u8]) -> Result<Vec<Name>, AllocError> {
    let (end, _) = cut(text);
    match parse(alloc, &text[..end]) {
        Ok(script) => notes_of_script(alloc, script),
        Err(_) => Ok(Vec::new(alloc)),
    }
}

fn notes_of_script(alloc: Global, script: Script) -> Result<Vec<Name>, AllocError> {
    let Script { decls, goal, rules } = script;
    drop(decls);
    drop(goal);
    notes_of(alloc, rules)
}
