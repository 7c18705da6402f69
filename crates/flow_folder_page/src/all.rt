//! All cases that are not damaged.
ghost use Rattle.std.specs.Prelude.{◌≡◌, map, IfOk};
ghost use Rattle.flow_page.specs.Shown.{shown, shown_section};
ghost use Rattle.flow_folder_page.specs.All.{open_task, task_held, begun_texts, case_row, all_section};

use crate::cells::listed;
use crate::data::{FolderCase, OpenTask, TaskHeld};
use crate::free::push_copies;
use flow_facts::Name;
use flow_page::{Row, Section, row, tabled};
use std::alloc::{AllocError, Global};

/// The tasks that may be begun.
fn open_tasks(alloc: Global, begin: &[OpenTask]) -> Result<Vec<Name>, AllocError>
    ensures { IfOk result (λ tasks. tasks.items ≡ map open_task begin.now) }
{
    let mut tasks = Vec::new(alloc);
    for ready in begin {
        tasks.push(ready.task.copy(alloc)?)?;
    }
    Ok(tasks)
}

/// What may be begun or done in the case.
fn begun_texts(alloc: Global, case: &FolderCase) -> Result<Vec<Name>, AllocError>
    ensures { IfOk result (λ texts. texts.items ≡ begun_texts case.now) }
{
    let mut texts = open_tasks(alloc, &case.begin)?;
    push_copies(alloc, &mut texts, &case.steps)?;
    Ok(texts)
}

/// The tasks that are out.
fn tasks_held(alloc: Global, out: &[TaskHeld]) -> Result<Vec<Name>, AllocError>
    ensures { IfOk result (λ tasks. tasks.items ≡ map task_held out.now) }
{
    let mut tasks = Vec::new(alloc);
    for one in out {
        tasks.push(one.task.copy(alloc)?)?;
    }
    Ok(tasks)
}

fn case_row(alloc: Global, case: &FolderCase) -> Result<Row, AllocError>
    ensures { IfOk result (λ row. shown row ≡ case_row case.now) }
{
    let begun = begun_texts(alloc, case)?;
    let held = tasks_held(alloc, &case.out)?;
    let mut cells = Vec::new(alloc);
    cells.push(Name::new(alloc, case.state.word().as_bytes())?)?;
    cells.push(listed(alloc, &begun)?)?;
    cells.push(listed(alloc, &held)?)?;
    cells.push(case.last.copy(alloc)?)?;
    Ok(row(case.case.copy(alloc)?, cells))
}

fn case_rows(alloc: Global, cases: &[FolderCase]) -> Result<Vec<Row>, AllocError>
    ensures { IfOk result (λ rows. map shown rows.items ≡ map case_row cases.now) }
{
    let mut rows = Vec::new(alloc);
    for case in cases {
        rows.push(case_row(alloc, case)?)?;
    }
    Ok(rows)
}

/// The section of all cases.
pub(crate) fn all_section(alloc: Global, cases: &[FolderCase]) -> Result<Section, AllocError>
    ensures { IfOk result (λ section. shown_section section ≡ all_section cases.now) }
{
    let rows = case_rows(alloc, cases)?;
    tabled(
        alloc,
        b"All cases",
        &["case", "state", "may be begun", "out", "last entry"],
        rows,
        b"There is no case that can be read.",
    )
}
