//! What anybody may begin or do.
ghost use Rattle.std.specs.Prelude.{◌≡◌, ◌++◌, map, IfOk, OnOk};
ghost use Rattle.std.specs.List.{flat_map};
ghost use Rattle.flow_page.specs.Shown.{shown, shown_section};
ghost use Rattle.flow_folder_page.specs.Free.{free_task, free_texts, some_row, free_row, free_section};

use crate::cells::listed;
use crate::data::{FolderCase, OpenTask};
use flow_facts::Name;
use flow_page::{Row, Section, row, tabled};
use std::alloc::{AllocError, Global};

/// Adds copies of texts.
pub(crate) fn push_copies(
    alloc: Global,
    texts: &mut Vec<Name>,
    more: &[Name],
) -> Result<(), AllocError>
    ensures { OnOk result (texts.new.items ≡ texts.old.items ++ more.now) }
{
    for one in more {
        texts.push(one.copy(alloc)?)?;
    }
    Ok(())
}

/// Adds the task, where anybody may begin it.
fn push_free_task(alloc: Global, texts: &mut Vec<Name>, ready: &OpenTask) -> Result<(), AllocError>
    ensures { OnOk result (texts.new.items ≡ texts.old.items ++ free_task ready.now) }
{
    match &ready.users {
        Some(_) => Ok(()),
        None => Ok(texts.push(ready.task.copy(alloc)?)?),
    }
}

/// The tasks that anybody may begin.
fn free_tasks(alloc: Global, begin: &[OpenTask]) -> Result<Vec<Name>, AllocError>
    ensures { IfOk result (λ texts. texts.items ≡ flat_map free_task begin.now) }
{
    let mut texts = Vec::new(alloc);
    for ready in begin {
        push_free_task(alloc, &mut texts, ready)?;
    }
    Ok(texts)
}

/// What anybody may begin or do in the case.
fn free_texts(alloc: Global, case: &FolderCase) -> Result<Vec<Name>, AllocError>
    ensures { IfOk result (λ texts. texts.items ≡ free_texts case.now) }
{
    let mut texts = free_tasks(alloc, &case.begin)?;
    push_copies(alloc, &mut texts, &case.steps)?;
    Ok(texts)
}

/// Adds a row of texts about a case, where there are such.
fn push_some_row(
    alloc: Global,
    rows: &mut Vec<Row>,
    case: &Name,
    texts: &[Name],
) -> Result<(), AllocError>
    ensures { OnOk result (map shown rows.new.items ≡ map shown rows.old.items ++ some_row case.now texts.now) }
{
    if texts.is_empty() {
        return Ok(());
    }
    let mut cells = Vec::new(alloc);
    cells.push(listed(alloc, texts)?)?;
    rows.push(row(case.copy(alloc)?, cells))?;
    Ok(())
}

/// Adds the row of the case, where anybody may begin or do something.
fn push_free_row(alloc: Global, rows: &mut Vec<Row>, case: &FolderCase) -> Result<(), AllocError>
    ensures { OnOk result (map shown rows.new.items ≡ map shown rows.old.items ++ free_row case.now) }
{
    let texts = free_texts(alloc, case)?;
    push_some_row(alloc, rows, &case.case, &texts)
}

/// The rows of the cases in which anybody may begin or do something.
fn free_rows(alloc: Global, cases: &[FolderCase]) -> Result<Vec<Row>, AllocError>
    ensures { IfOk result (λ rows. map shown rows.items ≡ flat_map free_row cases.now) }
{
    let mut rows = Vec::new(alloc);
    for case in cases {
        push_free_row(alloc, &mut rows, case)?;
    }
    Ok(rows)
}

/// The section of what anybody may begin or do.
pub(crate) fn free_section(alloc: Global, cases: &[FolderCase]) -> Result<Section, AllocError>
    ensures { IfOk result (λ section. shown_section section ≡ free_section cases.now) }
{
    let rows = free_rows(alloc, cases)?;
    tabled(
        alloc,
        b"What anybody may do",
        &["case", "tasks and steps"],
        rows,
        b"Nothing waits for just anybody.",
    )
}
