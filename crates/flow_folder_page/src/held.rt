//! What is out, of whom, and since when: the oldest first.
ghost use Rattle.std.specs.Prelude.{◌≡◌, ◌++◌, map, IfOk, OnOk};
ghost use Rattle.std.specs.List.{flat_map};
ghost use Rattle.flow_page.specs.Shown.{shown, shown_section};
ghost use Rattle.flow_folder_page.specs.Held.{held_by, held_of_case, IsOldestFirst, held_row, held_section};

use crate::data::{FolderCase, TaskHeld};
use flow_facts::Name;
use flow_page::{Row, Section, row, tabled};
use std::alloc::{AllocError, Global};

/// A task of a case that is out.
#[derive(Drop)]
pub(crate) struct Held {
    case: Name,
    task: Name,
    user: Name,
    since: Name,
}

fn held_by(alloc: Global, case: &Name, out: &TaskHeld) -> Result<Held, AllocError>
    ensures { IfOk result (λ held. held ≡ held_by case.now out.now) }
{
    let case = case.copy(alloc)?;
    let task = out.task.copy(alloc)?;
    let user = out.user.copy(alloc)?;
    let since = out.since.copy(alloc)?;
    Ok(Held {
        case,
        task,
        user,
        since,
    })
}

/// Adds what is out in a case.
fn push_held(
    alloc: Global,
    held: &mut Vec<Held>,
    case: &Name,
    out: &[TaskHeld],
) -> Result<(), AllocError>
    ensures { OnOk result (held.new.items ≡ held.old.items ++ map (held_by case.now) out.now) }
{
    for one in out {
        held.push(held_by(alloc, case, one)?)?;
    }
    Ok(())
}

/// What is out in the cases.
fn held_in(alloc: Global, cases: &[FolderCase]) -> Result<Vec<Held>, AllocError>
    ensures { IfOk result (λ held. held.items ≡ flat_map held_of_case cases.now) }
{
    let mut held = Vec::new(alloc);
    for case in cases {
        push_held(alloc, &mut held, &case.case, &case.out)?;
    }
    Ok(held)
}

/// What is out in the cases, the oldest first.
pub(crate) fn oldest_first(alloc: Global, cases: &[FolderCase]) -> Result<Vec<Held>, AllocError>
    ensures { IfOk result (λ held. IsOldestFirst (flat_map held_of_case cases.now) held.items) }
{
    let mut held = held_in(alloc, cases)?;
    held.sort_by(|one, other| one.since.bytes().cmp(other.since.bytes()))?;
    Ok(held)
}

fn held_row(alloc: Global, held: &Held) -> Result<Row, AllocError>
    ensures { IfOk result (λ row. shown row ≡ held_row held.now) }
{
    let mut cells = Vec::new(alloc);
    cells.push(held.task.copy(alloc)?)?;
    cells.push(held.user.copy(alloc)?)?;
    cells.push(held.since.copy(alloc)?)?;
    Ok(row(held.case.copy(alloc)?, cells))
}

fn held_rows(alloc: Global, held: &[Held]) -> Result<Vec<Row>, AllocError>
    ensures { IfOk result (λ rows. map shown rows.items ≡ map held_row held.now) }
{
    let mut rows = Vec::new(alloc);
    for one in held {
        rows.push(held_row(alloc, one)?)?;
    }
    Ok(rows)
}

/// The section of what is out.
pub(crate) fn held_section(alloc: Global, held: &[Held]) -> Result<Section, AllocError>
    ensures { IfOk result (λ section. shown_section section ≡ held_section held.now) }
{
    let rows = held_rows(alloc, held)?;
    tabled(
        alloc,
        b"Out, the oldest first",
        &["case", "task", "of", "since"],
        rows,
        b"Nothing is out.",
    )
}
