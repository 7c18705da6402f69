//! What is shown of a case, from its line.
ghost use Rattle.std.specs.Prelude.{◌≡◌, map, IfOk};
ghost use Rattle.std.specs.Option.{option_map};
ghost use Rattle.std.specs.String.{string_bytes};
ghost use Rattle.flow_list.specs.Words.{name_of};
ghost use Rattle.flow_folder_page.specs.Lines.{names_of, users_shown, named_users, open_shown, named_task, told_task, name_in_step, last_text, IsCaseOf};

use crate::data::{FolderCase, OpenTask, TaskHeld};
use flow_case_seen::SharedTexts;
use flow_facts::Name;
use flow_list::{Beginning, CaseLine, LeafName, TaskOut, name_of};
use std::alloc::{AllocError, Global};

/// The names of users.
fn names_of(alloc: Global, texts: &SharedTexts, numbers: &[u32]) -> Result<Vec<Name>, AllocError>
    ensures { IfOk result (λ names. names.items ≡ names_of texts.now.users numbers.now) }
{
    let mut names = Vec::new(alloc);
    for number in numbers {
        names.push(Name::new(alloc, name_of(texts, *number))?)?;
    }
    Ok(names)
}

/// The users to whom duties leave a task, if they do.
fn named_users(
    alloc: Global,
    texts: &SharedTexts,
    users: &Option<Vec<u32>>,
) -> Result<Option<Vec<Name>>, AllocError>
    ensures { IfOk result (λ named. users_shown named ≡ named_users texts.now.users users.now) }
{
    match users {
        Some(numbers) => Ok(Some(names_of(alloc, texts, numbers)?)),
        None => Ok(None),
    }
}

fn named_task(alloc: Global, texts: &SharedTexts, task: &Beginning) -> Result<OpenTask, AllocError>
    ensures { IfOk result (λ ready. open_shown ready ≡ named_task texts.now.users task.now) }
{
    let users = named_users(alloc, texts, &task.users)?;
    match Name::new(alloc, &task.task) {
        Ok(task) => Ok(OpenTask { task, users }),
        Err(error) => {
            drop(users);
            Err(error)
        }
    }
}

fn named_tasks(
    alloc: Global,
    texts: &SharedTexts,
    begin: &[Beginning],
) -> Result<Vec<OpenTask>, AllocError>
    ensures { IfOk result (λ tasks. map open_shown tasks.items ≡ map (named_task texts.now.users) begin.now) }
{
    let mut tasks = Vec::new(alloc);
    for task in begin {
        tasks.push(named_task(alloc, texts, task)?)?;
    }
    Ok(tasks)
}

fn told_task(alloc: Global, task: &TaskOut) -> Result<TaskHeld, AllocError>
    ensures { IfOk result (λ held. held ≡ told_task task.now) }
{
    let user = Name::new(alloc, task.user.as_bytes())?;
    let since = Name::new(alloc, task.since.as_bytes())?;
    let task = Name::new(alloc, &task.task)?;
    Ok(TaskHeld { task, user, since })
}

fn told_tasks(alloc: Global, out: &[TaskOut]) -> Result<Vec<TaskHeld>, AllocError>
    ensures { IfOk result (λ tasks. tasks.items ≡ map told_task out.now) }
{
    let mut tasks = Vec::new(alloc);
    for task in out {
        tasks.push(told_task(alloc, task)?)?;
    }
    Ok(tasks)
}

fn step_names(alloc: Global, steps: &[LeafName]) -> Result<Vec<Name>, AllocError>
    ensures { IfOk result (λ names. names.items ≡ map name_in_step steps.now) }
{
    let mut names = Vec::new(alloc);
    for step in steps {
        names.push(Name::new(alloc, &step.name)?)?;
    }
    Ok(names)
}

/// When the last entry was made.
fn last_text(alloc: Global, last: &Option<String>) -> Result<Name, AllocError>
    ensures { IfOk result (λ text. text ≡ last_text last.now) }
{
    match last {
        Some(last) => Name::new(alloc, last.as_bytes()),
        None => Name::new(alloc, b""),
    }
}

/// What is shown of the case of that name, whose line it is. The one error is want of memory.
pub fn folder_case(
    alloc: Global,
    texts: &SharedTexts,
    case: &str,
    line: &CaseLine,
) -> Result<FolderCase, AllocError>
    ensures { IfOk result (IsCaseOf texts.now.users case.now line.now) }
{
    let begin = named_tasks(alloc, texts, &line.tasks.begin)?;
    let out = told_tasks(alloc, &line.tasks.out)?;
    let steps = step_names(alloc, &line.steps.free)?;
    let waiting = step_names(alloc, &line.steps.waiting)?;
    let last = last_text(alloc, &line.last)?;
    let case = Name::new(alloc, case.as_bytes())?;
    Ok(FolderCase {
        case,
        state: line.state,
        begin,
        steps,
        out,
        waiting,
        last,
    })
}
