//! What waits for whom: the tasks that each user may begin.
ghost use Rattle.std.specs.Prelude.{◌≡◌, ◌++◌, [], length, map, IfOk, OnOk};
ghost use Rattle.std.specs.List.{flat_map};
ghost use Rattle.flow_page.specs.Shown.{shown, shown_section};
ghost use Rattle.flow_folder_page.specs.Waits.{wait_by, waits_on, waits_of_task, waits_of_case, has_name, with_name, users_in, with_task, tasks_for, is_of, cases_for, task_row, user_rows, wait_rows, wait_section};

use crate::cells::{listed, number_text};
use crate::data::{FolderCase, OpenTask};
use flow_facts::Name;
use flow_page::{Row, Section, row, tabled};
use std::alloc::{AllocError, Global};

/// A task of a case that a user may begin.
#[derive(Drop)]
struct Wait {
    user: Name,
    task: Name,
    case: Name,
}

fn wait_by(alloc: Global, case: &Name, task: &Name, user: &Name) -> Result<Wait, AllocError>
    ensures { IfOk result (λ wait. wait ≡ wait_by case.now task.now user.now) }
{
    let user = user.copy(alloc)?;
    let task = task.copy(alloc)?;
    let case = case.copy(alloc)?;
    Ok(Wait { user, task, case })
}

/// Adds that the task waits for each of the users.
fn push_waits_on(
    alloc: Global,
    waits: &mut Vec<Wait>,
    case: &Name,
    task: &Name,
    users: &[Name],
) -> Result<(), AllocError>
    ensures { OnOk result (waits.new.items ≡ waits.old.items ++ waits_on case.now task.now users.now) }
{
    for user in users {
        waits.push(wait_by(alloc, case, task, user)?)?;
    }
    Ok(())
}

/// Adds for whom the task waits, where duties name users.
fn push_waits_of_task(
    alloc: Global,
    waits: &mut Vec<Wait>,
    case: &Name,
    ready: &OpenTask,
) -> Result<(), AllocError>
    ensures { OnOk result (waits.new.items ≡ waits.old.items ++ waits_of_task case.now ready.now) }
{
    match &ready.users {
        Some(users) => push_waits_on(alloc, waits, case, &ready.task, users),
        None => Ok(()),
    }
}

/// Adds for whom the tasks of a case wait.
fn push_waits_of_case(
    alloc: Global,
    waits: &mut Vec<Wait>,
    case: &Name,
    begin: &[OpenTask],
) -> Result<(), AllocError>
    ensures { OnOk result (waits.new.items ≡ waits.old.items ++ flat_map (waits_of_task case.now) begin.now) }
{
    for ready in begin {
        push_waits_of_task(alloc, waits, case, ready)?;
    }
    Ok(())
}

/// For whom the tasks of the cases wait.
fn waits_of(alloc: Global, cases: &[FolderCase]) -> Result<Vec<Wait>, AllocError>
    ensures { IfOk result (λ waits. waits.items ≡ flat_map waits_of_case cases.now) }
{
    let mut waits = Vec::new(alloc);
    for case in cases {
        push_waits_of_case(alloc, &mut waits, &case.case, &case.begin)?;
    }
    Ok(waits)
}

/// Whether the name is among them.
fn has_name(names: &[Name], name: &Name) -> bool
    ensures { result ≡ has_name name.now names.now }
{
    for one in names {
        if one == name {
            return true;
        }
    }
    false
}

/// Adds the name that is not among them yet.
fn put_name(alloc: Global, names: &mut Vec<Name>, name: &Name) -> Result<(), AllocError>
    ensures { OnOk result (names.new.items ≡ with_name names.old.items name.now) }
{
    if has_name(names, name) {
        return Ok(());
    }
    names.push(name.copy(alloc)?)?;
    Ok(())
}

/// The users for whom something waits, each once.
fn users_in(alloc: Global, waits: &[Wait]) -> Result<Vec<Name>, AllocError>
    ensures { IfOk result (λ users. users.items ≡ users_in [] waits.now) }
{
    let mut users = Vec::new(alloc);
    for wait in waits {
        put_name(alloc, &mut users, &wait.user)?;
    }
    Ok(users)
}

/// Adds the task that waits, where it waits for the user.
fn put_task(
    alloc: Global,
    tasks: &mut Vec<Name>,
    wait: &Wait,
    user: &Name,
) -> Result<(), AllocError>
    ensures { OnOk result (tasks.new.items ≡ with_task user.now tasks.old.items wait.now) }
{
    if wait.user == *user {
        return put_name(alloc, tasks, &wait.task);
    }
    Ok(())
}

/// The tasks that wait for the user, each once.
fn tasks_for(alloc: Global, waits: &[Wait], user: &Name) -> Result<Vec<Name>, AllocError>
    ensures { IfOk result (λ tasks. tasks.items ≡ tasks_for user.now [] waits.now) }
{
    let mut tasks = Vec::new(alloc);
    for wait in waits {
        put_task(alloc, &mut tasks, wait, user)?;
    }
    Ok(tasks)
}

/// Whether it is this task that waits for this user.
fn is_of(wait: &Wait, user: &Name, task: &Name) -> bool
    ensures { result ≡ is_of user.now task.now wait.now }
{
    wait.user == *user && wait.task == *task
}

/// The cases in which the task waits for the user.
fn cases_for(
    alloc: Global,
    waits: &[Wait],
    user: &Name,
    task: &Name,
) -> Result<Vec<Name>, AllocError>
    ensures { IfOk result (λ cases. cases.items ≡ cases_for user.now task.now waits.now) }
{
    let mut cases = Vec::new(alloc);
    for wait in waits {
        if is_of(wait, user, task) {
            cases.push(wait.case.copy(alloc)?)?;
        }
    }
    Ok(cases)
}

/// The row of a task that waits for a user.
fn task_row(alloc: Global, waits: &[Wait], user: &Name, task: &Name) -> Result<Row, AllocError>
    ensures { IfOk result (λ row. shown row ≡ task_row waits.now user.now task.now) }
{
    let cases = cases_for(alloc, waits, user, task)?;
    let mut cells = Vec::new(alloc);
    cells.push(task.copy(alloc)?)?;
    cells.push(number_text(alloc, cases.len() as u64)?)?;
    cells.push(listed(alloc, &cases)?)?;
    Ok(row(user.copy(alloc)?, cells))
}

/// Adds the rows of the tasks that wait for a user.
fn push_task_rows(
    alloc: Global,
    rows: &mut Vec<Row>,
    waits: &[Wait],
    user: &Name,
    tasks: &[Name],
) -> Result<(), AllocError>
    ensures { OnOk result (map shown rows.new.items ≡ map shown rows.old.items ++ map (task_row waits.now user.now) tasks.now) }
{
    for task in tasks {
        rows.push(task_row(alloc, waits, user, task)?)?;
    }
    Ok(())
}

/// Adds the rows of a user.
fn push_user_rows(
    alloc: Global,
    rows: &mut Vec<Row>,
    waits: &[Wait],
    user: &Name,
) -> Result<(), AllocError>
    ensures { OnOk result (map shown rows.new.items ≡ map shown rows.old.items ++ user_rows waits.now user.now) }
{
    let tasks = tasks_for(alloc, waits, user)?;
    push_task_rows(alloc, rows, waits, user, &tasks)
}

/// The rows of the users.
fn rows_of(alloc: Global, waits: &[Wait], users: &[Name]) -> Result<Vec<Row>, AllocError>
    ensures { IfOk result (λ rows. map shown rows.items ≡ flat_map (user_rows waits.now) users.now) }
{
    let mut rows = Vec::new(alloc);
    for user in users {
        push_user_rows(alloc, &mut rows, waits, user)?;
    }
    Ok(rows)
}

/// The rows of what waits for whom.
fn wait_rows(alloc: Global, cases: &[FolderCase]) -> Result<Vec<Row>, AllocError>
    ensures { IfOk result (λ rows. map shown rows.items ≡ wait_rows (flat_map waits_of_case cases.now)) }
{
    let waits = waits_of(alloc, cases)?;
    let users = users_in(alloc, &waits)?;
    rows_of(alloc, &waits, &users)
}

/// The section of what waits for whom.
pub(crate) fn wait_section(alloc: Global, cases: &[FolderCase]) -> Result<Section, AllocError>
    ensures { IfOk result (λ section. shown_section section ≡ wait_section cases.now) }
{
    let rows = wait_rows(alloc, cases)?;
    tabled(
        alloc,
        b"What waits for whom",
        &["user", "task", "cases", "which"],
        rows,
        b"Nothing waits for a user.",
    )
}
