//! The tasks that may be begun: at once, or once the tests and updates before them are done.
ghost use Rattle.std.specs.Prelude.{◌≡◌};

use crate::book::Book;
use flow_core::Core;
use flow_names::{State, Todo, todo_of, waits_for_step};
use flow_reason::leaves_before;
use flow_staff::may_take;
use std::alloc::{AllocError, Global};

/// A task that may be begun.
#[derive(Drop)]
pub(crate) struct Beginning {
    pub(crate) leaf: u32,
    /// The tests and updates that are done before it is taken.
    pub(crate) steps: Vec<u32>,
}

/// What is to be done in a case.
#[derive(Drop)]
pub(crate) struct CaseTodo {
    pub(crate) begin: Vec<Beginning>,
    pub(crate) todo: Todo,
    /// Whether each task that may be begun is kept from each user by a duty, and nothing else can go on.
    pub(crate) is_barred: bool,
}

/// Looks what is to be done.
pub(crate) fn case_todo<B: Book>(alloc: Global, book: &mut B) -> Result<CaseTodo, AllocError>
    ensures { B.kept_case book.new ≡ B.kept_case book.old }
{
    book.look_ahead();
    let todo = todo_of(alloc, book.core())?;
    let begin = match todo.state {
        State::Committed => Vec::new(alloc),
        _ => beginnings(alloc, book, &todo)?,
    };
    let is_barred = is_barred(book, &todo, &begin);
    Ok(CaseTodo {
        begin,
        todo,
        is_barred,
    })
}

/// The tasks that may be begun, by their leaves, rising.
fn beginnings<B: Book>(
    alloc: Global,
    book: &mut B,
    todo: &Todo,
) -> Result<Vec<Beginning>, AllocError>
    ensures { B.kept_case book.new ≡ B.kept_case book.old }
{
    let mut begin = Vec::new(alloc);
    for leaf in 0..book.core().workflow().tree().leaves() {
        if let Some(steps) = way_to(alloc, book, todo, leaf)? {
            begin.push(Beginning { leaf, steps })?;
        }
    }
    Ok(begin)
}

/// The steps behind which the leaf may be taken, if there are such.
fn way_to<B: Book>(
    alloc: Global,
    book: &mut B,
    todo: &Todo,
    leaf: u32,
) -> Result<Option<Vec<u32>>, AllocError>
    ensures { B.kept_case book.new ≡ B.kept_case book.old }
{
    if todo.begin.contains(&leaf) {
        return Ok(Some(Vec::new(alloc)));
    }
    if !waits_for_steps_alone(alloc, book.core(), leaf)? {
        return Ok(None);
    }
    let steps = book.steps_to_take(alloc, leaf, 0)?;
    if steps.is_empty() {
        Ok(None)
    } else {
        Ok(Some(steps))
    }
}

/// Whether a test or an update stands before the task and may be done, and no other task must come before it.
fn waits_for_steps_alone(alloc: Global, core: &Core, leaf: u32) -> Result<bool, AllocError> {
    if !is_task(core, leaf) || core.journal().contains(&leaf) || !waits_for_step(core, leaf) {
        return Ok(false);
    }
    let before = leaves_before(alloc, core, leaf)?;
    Ok(!before.iter().any(|other| is_task(core, *other)))
}

/// Whether the leaf is that of a task.
pub(crate) fn is_task(core: &Core, leaf: u32) -> bool {
    core.workflow().tree().event(leaf).is_some()
}

/// The users to whom duties leave the leaf's task now, in a case with a policy.
pub(crate) fn takers<B: Book>(alloc: Global, book: &B, leaf: u32) -> Result<Vec<u32>, AllocError> {
    let mut takers = Vec::new(alloc);
    for user in 0..book.users() {
        if is_left_to(book, leaf, user + 1) {
            takers.push(user + 1)?;
        }
    }
    Ok(takers)
}

/// Whether duties leave the leaf's task to the user now.
fn is_left_to<B: Book>(book: &B, leaf: u32, user: u32) -> bool {
    match (book.policy(), book.core().workflow().tree().event(leaf)) {
        (Some(policy), Some(event)) => may_take(book.core(), policy, event, user),
        _ => true,
    }
}

/// Whether duties leave the leaf's task to nobody now.
pub(crate) fn is_left_to_nobody<B: Book>(book: &B, leaf: u32) -> bool {
    for user in 0..book.users() {
        if is_left_to(book, leaf, user + 1) {
            return false;
        }
    }
    true
}

/// Whether a case under a policy cannot go on: nothing is out, and of what can be taken or done there are just tasks that are left to
/// nobody, and the steps before them.
fn is_barred<B: Book>(book: &B, todo: &Todo, begin: &[Beginning]) -> bool {
    if book.policy().is_none() || !todo.out.is_empty() || begin.is_empty() {
        return false;
    }
    let is_free = begin.iter().any(|task| !is_left_to_nobody(book, task.leaf));
    !is_free && !is_other_step_free(book.core(), begin)
}

/// Whether a test or an update may be done that stands before none of these tasks.
fn is_other_step_free(core: &Core, begin: &[Beginning]) -> bool {
    for leaf in 0..core.workflow().tree().leaves() {
        let is_before = begin.iter().any(|task| task.steps.contains(&leaf));
        if !is_before && !is_task(core, leaf) && core.can_act(leaf) {
            return true;
        }
    }
    false
}

/// A task that waits for tasks that may be begun or are out, and for no others, as far as the goal tells.
#[derive(Drop)]
pub(crate) struct Later {
    pub(crate) leaf: u32,
    /// The tasks for which it waits.
    pub(crate) behind: Vec<u32>,
}

/// The tasks that come next behind those that may be begun or are out, rising.
pub(crate) fn later_tasks(
    alloc: Global,
    core: &Core,
    todo: &CaseTodo,
) -> Result<Vec<Later>, AllocError> {
    let mut later = Vec::new(alloc);
    for leaf in 0..core.workflow().tree().leaves() {
        if is_task(core, leaf) && !core.journal().contains(&leaf) {
            let behind = tasks_before(alloc, core, leaf)?;
            if !behind.is_empty() && behind.iter().all(|other| is_near(todo, *other)) {
                later.push(Later { leaf, behind })?;
            }
        }
    }
    Ok(later)
}

/// The tasks that are not done and must come before the leaf.
fn tasks_before(alloc: Global, core: &Core, leaf: u32) -> Result<Vec<u32>, AllocError> {
    let mut tasks = Vec::new(alloc);
    for other in leaves_before(alloc, core, leaf)?.iter() {
        if is_task(core, *other) {
            tasks.push(*other)?;
        }
    }
    Ok(tasks)
}

/// Whether the leaf's task may be begun, or is out.
fn is_near(todo: &CaseTodo, leaf: u32) -> bool {
    todo.begin.iter().any(|task| task.leaf == leaf)
        || todo.todo.out.iter().any(|task| task.call.leaf == leaf)
}
