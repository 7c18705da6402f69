//! The cases that are stuck and what they wait for, and those that are damaged.
ghost use Rattle.std.specs.Prelude.{◌≡◌, ◌++◌, map, IfOk, OnOk};
ghost use Rattle.std.specs.List.{flat_map};
ghost use Rattle.flow_page.specs.Shown.{shown, shown_section};
ghost use Rattle.flow_folder_page.specs.Stuck.{is_stuck, barred_text, barred_task, waits_for, stuck_row, stuck_rows_of, stuck_section, damaged_row, damaged_section};

use crate::cells::{listed, text_of};
use crate::data::{DamagedCase, FolderCase, OpenTask};
use crate::free::push_copies;
use flow_case_state::CaseState;
use flow_draw::Piece;
use flow_facts::Name;
use flow_page::{Row, Section, row, tabled};
use std::alloc::{AllocError, Global};

/// Whether a case that stands so is stuck.
fn is_stuck(state: CaseState) -> bool
    ensures { result ≡ is_stuck state }
{
    match state {
        CaseState::StuckByFacts | CaseState::StuckByDuties => true,
        _ => false,
    }
}

/// Adds that somebody who may take the task is wanted, where duties leave it to nobody.
fn push_barred_task(
    alloc: Global,
    texts: &mut Vec<Name>,
    ready: &OpenTask,
) -> Result<(), AllocError>
    ensures { OnOk result (texts.new.items ≡ texts.old.items ++ barred_task ready.now) }
{
    match &ready.users {
        Some(users) if users.is_empty() => Ok(texts.push(barred_text(alloc, &ready.task)?)?),
        _ => Ok(()),
    }
}

fn barred_text(alloc: Global, task: &Name) -> Result<Name, AllocError>
    ensures { IfOk result (λ text. text ≡ barred_text task.now) }
{
    text_of(
        alloc,
        &[
            Piece::Words(b"somebody who may take "),
            Piece::Words(task.bytes()),
        ],
    )
}

fn barred_tasks(alloc: Global, begin: &[OpenTask]) -> Result<Vec<Name>, AllocError>
    ensures { IfOk result (λ texts. texts.items ≡ flat_map barred_task begin.now) }
{
    let mut texts = Vec::new(alloc);
    for ready in begin {
        push_barred_task(alloc, &mut texts, ready)?;
    }
    Ok(texts)
}

/// What the case waits for.
fn waits_for(alloc: Global, case: &FolderCase) -> Result<Vec<Name>, AllocError>
    ensures { IfOk result (λ texts. texts.items ≡ waits_for case.now) }
{
    let mut texts = barred_tasks(alloc, &case.begin)?;
    push_copies(alloc, &mut texts, &case.waiting)?;
    Ok(texts)
}

fn stuck_row(alloc: Global, case: &FolderCase) -> Result<Row, AllocError>
    ensures { IfOk result (λ row. shown row ≡ stuck_row case.now) }
{
    let texts = waits_for(alloc, case)?;
    let mut cells = Vec::new(alloc);
    cells.push(Name::new(alloc, case.state.word().as_bytes())?)?;
    cells.push(listed(alloc, &texts)?)?;
    cells.push(case.last.copy(alloc)?)?;
    Ok(row(case.case.copy(alloc)?, cells))
}

/// Adds the row of the case, where it is stuck.
fn push_stuck_row(alloc: Global, rows: &mut Vec<Row>, case: &FolderCase) -> Result<(), AllocError>
    ensures { OnOk result (map shown rows.new.items ≡ map shown rows.old.items ++ stuck_rows_of case.now) }
{
    if is_stuck(case.state) {
        rows.push(stuck_row(alloc, case)?)?;
    }
    Ok(())
}

fn stuck_rows(alloc: Global, cases: &[FolderCase]) -> Result<Vec<Row>, AllocError>
    ensures { IfOk result (λ rows. map shown rows.items ≡ flat_map stuck_rows_of cases.now) }
{
    let mut rows = Vec::new(alloc);
    for case in cases {
        push_stuck_row(alloc, &mut rows, case)?;
    }
    Ok(rows)
}

/// The section of the cases that are stuck.
pub(crate) fn stuck_section(alloc: Global, cases: &[FolderCase]) -> Result<Section, AllocError>
    ensures { IfOk result (λ section. shown_section section ≡ stuck_section cases.now) }
{
    let rows = stuck_rows(alloc, cases)?;
    tabled(
        alloc,
        b"Stuck",
        &["case", "state", "waits for", "last entry"],
        rows,
        b"No case is stuck.",
    )
}

fn damaged_row(alloc: Global, case: &DamagedCase) -> Result<Row, AllocError>
    ensures { IfOk result (λ row. shown row ≡ damaged_row case.now) }
{
    let mut cells = Vec::new(alloc);
    cells.push(case.why.copy(alloc)?)?;
    Ok(row(case.case.copy(alloc)?, cells))
}

fn damaged_rows(alloc: Global, damaged: &[DamagedCase]) -> Result<Vec<Row>, AllocError>
    ensures { IfOk result (λ rows. map shown rows.items ≡ map damaged_row damaged.now) }
{
    let mut rows = Vec::new(alloc);
    for case in damaged {
        rows.push(damaged_row(alloc, case)?)?;
    }
    Ok(rows)
}

/// The section of the cases that are damaged.
pub(crate) fn damaged_section(alloc: Global, damaged: &[DamagedCase]) -> Result<Section, AllocError>
    ensures { IfOk result (λ section. shown_section section ≡ damaged_section damaged.now) }
{
    let rows = damaged_rows(alloc, damaged)?;
    tabled(
        alloc,
        b"Damaged",
        &["case", "why"],
        rows,
        b"No case is damaged.",
    )
}
