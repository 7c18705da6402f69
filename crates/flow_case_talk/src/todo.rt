ghost use Rattle.std.specs.Prelude.{◌≡◌, IfOk};
ghost use Rattle.flow_case_talk.specs.Lines.{AreLines};

use crate::begun::{Beginning, CaseTodo, Later, case_todo, later_tasks, takers};
use crate::book::Book;
use crate::form::Form;
use crate::lines::whole_lines;
use crate::who::who_may;
use flow_core::Core;
use flow_model::Step;
use flow_names::{OutTask, State};
use flow_policy::Policy;
use flow_staff::is_for_nobody;
use flow_workflow::push_leaf_label;
use flow_writer::Writer;
use std::alloc::{AllocError, Global};

/// The word of how a case stands.
fn state_word(todo: &CaseTodo) -> &'static str {
    match todo.todo.state {
        State::Open if todo.is_barred => "stuck_by_duties",
        State::Open => "open",
        State::Waiting => "waiting",
        State::Finished => "finished",
        State::Stuck => "stuck",
        State::Committed => "committed",
    }
}

/// How a case stands, in words.
fn state_words(todo: &CaseTodo) -> &'static str {
    match todo.todo.state {
        State::Open if todo.is_barred => "stuck: duties leave to nobody what may be begun",
        State::Finished => "finished: nothing is left but to commit",
        State::Waiting => "waiting for what is out",
        State::Stuck => "stuck: only tests are left that do not hold",
        _ => state_word(todo),
    }
}

/// The label of a leaf.
pub(crate) fn label_of<B: Book>(alloc: Global, book: &B, leaf: u32) -> Result<Vec<u8>, AllocError> {
    let mut label = Vec::new(alloc);
    push_leaf_label(&mut label, book.core().workflow(), leaf)?;
    Ok(label)
}

/// The labels of leaves, with commas between them.
fn push_labels<B: Book>(
    alloc: Global,
    page: &mut Writer,
    book: &B,
    leaves: &[u32],
) -> Result<(), AllocError> {
    for (index, leaf) in leaves.iter().enumerate() {
        page.between(index, ", ")?;
        page.bytes(&label_of(alloc, book, *leaf)?)?;
    }
    Ok(())
}

/// A line that says what may be begun, and by whom.
pub fn begin_line<B: Book>(alloc: Global, book: &mut B) -> Result<Vec<u8>, AllocError>
    ensures lines { IfOk result (λ line. AreLines line.items) }
    ensures case { B.kept_case book.new ≡ B.kept_case book.old }
{
    let todo = case_todo(alloc, book)?;
    let mut page = Writer::new(alloc);
    match todo.todo.state {
        State::Committed => page.words("the case is committed")?,
        State::Finished => page.words("nothing is left but to commit")?,
        _ => push_begin(alloc, &mut page, book, &todo.begin)?,
    }
    page.words("\n")?;
    whole_lines(page.text)
}

/// The tasks of the workflow that nobody may take under the policy, a line each.
pub fn idle_lines<B: Book>(alloc: Global, book: &B) -> Result<Vec<u8>, AllocError>
    ensures { IfOk result (λ lines. AreLines lines.items) }
{
    let mut page = Writer::new(alloc);
    if let Some(policy) = book.policy() {
        push_idle(&mut page, book, policy)?;
    }
    whole_lines(page.text)
}

fn push_idle<B: Book>(page: &mut Writer, book: &B, policy: &Policy) -> Result<(), AllocError> {
    let workflow = book.core().workflow();
    let below = book.users().saturating_add(1);
    let events = u32::try_from(workflow.events().len()).unwrap_or(u32::MAX);
    for event in 0..events {
        if has_leaf(book.core(), event) && is_for_nobody(policy, event, below) {
            page.words("nobody may take ")?;
            page.bytes(workflow.event_name(event))?;
            page.words(": the policy allows it to no role that a user has\n")?;
        }
    }
    Ok(())
}

/// Whether the goal has a leaf of the event.
fn has_leaf(core: &Core, event: u32) -> bool {
    let tree = core.workflow().tree();
    for leaf in 0..tree.leaves() {
        if tree.event(leaf) == Some(event) {
            return true;
        }
    }
    false
}

fn push_begin<B: Book>(
    alloc: Global,
    page: &mut Writer,
    book: &B,
    begin: &[Beginning],
) -> Result<(), AllocError> {
    if begin.is_empty() {
        return page.words("nothing may be begun now");
    }
    page.words("may be begun: ")?;
    let mut who = Vec::new(alloc);
    for (index, task) in begin.iter().enumerate() {
        let whose = who_may(alloc, book, task.leaf)?;
        if index > 0 {
            push_between(page, &who, &whose)?;
        }
        page.bytes(&task_name(alloc, book, begin, task.leaf)?)?;
        who = whose;
    }
    push_in_brackets(page, &who)
}

/// Adds what stands between two tasks: who may take the first, where others may take the second.
fn push_between(page: &mut Writer, who: &[u8], next: &[u8]) -> Result<(), AllocError> {
    if who == next {
        return page.words(", ");
    }
    push_in_brackets(page, who)?;
    page.words("; ")
}

/// Adds who may take tasks, if that is said.
fn push_in_brackets(page: &mut Writer, who: &[u8]) -> Result<(), AllocError> {
    if who.is_empty() {
        return Ok(());
    }
    page.words(" (")?;
    page.bytes(who)?;
    page.words(")")
}

/// The name of a task that may be begun, with its leaf where another one has the same name.
fn task_name<B: Book>(
    alloc: Global,
    book: &B,
    begin: &[Beginning],
    leaf: u32,
) -> Result<Vec<u8>, AllocError> {
    let tree = book.core().workflow().tree();
    let mut page = Writer::new(alloc);
    page.bytes(&label_of(alloc, book, leaf)?)?;
    let event = tree.event(leaf);
    if begin
        .iter()
        .any(|task| task.leaf != leaf && tree.event(task.leaf) == event)
    {
        page.words("@")?;
        page.number(u64::from(leaf))?;
    }
    Ok(page.text)
}

/// What is to be done.
pub(crate) fn todo_text<B: Book>(
    alloc: Global,
    book: &mut B,
    form: Form,
) -> Result<Vec<u8>, AllocError>
    ensures { B.kept_case book.new ≡ B.kept_case book.old }
{
    let todo = case_todo(alloc, book)?;
    match form {
        Form::Words => todo_words(alloc, book, &todo),
        Form::Json => todo_object(alloc, book, &todo),
    }
}

fn todo_words<B: Book>(alloc: Global, book: &B, todo: &CaseTodo) -> Result<Vec<u8>, AllocError> {
    let mut page = Writer::new(alloc);
    for task in todo.begin.iter() {
        push_beginning(alloc, &mut page, book, &todo.begin, task)?;
    }
    for task in todo.todo.out.iter() {
        push_out(alloc, &mut page, book, task)?;
    }
    for task in later_tasks(alloc, book.core(), todo)?.iter() {
        push_later(alloc, &mut page, book, task)?;
    }
    page.words("the case is ")?;
    page.words(state_words(todo))?;
    page.words("\n")?;
    Ok(page.text)
}

/// Adds the line of a task that may be begun.
fn push_beginning<B: Book>(
    alloc: Global,
    page: &mut Writer,
    book: &B,
    begin: &[Beginning],
    task: &Beginning,
) -> Result<(), AllocError> {
    page.words("may be begun   ")?;
    let name = task_name(alloc, book, begin, task.leaf)?;
    let who = who_may(alloc, book, task.leaf)?;
    if who.is_empty() && task.steps.is_empty() {
        page.bytes(&name)?;
        return page.words("\n");
    }
    page.column(&name, 20)?;
    page.bytes(&who)?;
    if !task.steps.is_empty() {
        page.words(if who.is_empty() { "after " } else { "; after " })?;
        push_labels(alloc, page, book, &task.steps)?;
    }
    page.words("\n")
}

/// Adds the line of a task that is out.
fn push_out<B: Book>(
    alloc: Global,
    page: &mut Writer,
    book: &B,
    task: &OutTask,
) -> Result<(), AllocError> {
    page.words("out            ")?;
    page.column(&label_of(alloc, book, task.call.leaf)?, 20)?;
    page.words(book.user_name(task.holder.unwrap_or(0)))?;
    if let Some(at) = taken_at(book, task.call.claim) {
        page.words(" since ")?;
        page.words(at)?;
    }
    page.words(", claim ")?;
    page.number(u64::from(task.call.claim))?;
    page.words(", attempt ")?;
    page.number(u64::from(task.call.attempt))?;
    page.words(", key ")?;
    page.bytes(&key_of(alloc, book, task.call.leaf)?)?;
    page.words("\n")
}

/// Adds the line of a task that comes next.
fn push_later<B: Book>(
    alloc: Global,
    page: &mut Writer,
    book: &B,
    task: &Later,
) -> Result<(), AllocError> {
    page.words("later          ")?;
    page.column(&label_of(alloc, book, task.leaf)?, 20)?;
    page.words("after ")?;
    push_labels(alloc, page, book, &task.behind)?;
    page.words("\n")
}

/// When the claim was given.
fn taken_at<B: Book>(book: &B, claim: u32) -> Option<&str> {
    for (place, entry) in book.core().history().iter().enumerate() {
        match entry.step {
            Step::Took { claim: given, .. } if given == claim => {
                return Some(book.told(place)?.at);
            }
            _ => {}
        }
    }
    None
}

/// The key under which the leaf's task may be performed twice without harm.
pub(crate) fn key_of<B: Book>(alloc: Global, book: &B, leaf: u32) -> Result<Vec<u8>, AllocError> {
    let mut key = Writer::new(alloc);
    key.words(book.path())?;
    key.words("/")?;
    key.bytes(&label_of(alloc, book, leaf)?)?;
    Ok(key.text)
}

fn todo_object<B: Book>(alloc: Global, book: &B, todo: &CaseTodo) -> Result<Vec<u8>, AllocError> {
    let mut page = Writer::new(alloc);
    page.words("{\"begin\":[")?;
    for (index, task) in todo.begin.iter().enumerate() {
        page.between(index, ",")?;
        push_task(alloc, &mut page, book, task.leaf)?;
        push_steps(alloc, &mut page, book, &task.steps)?;
        push_task_users(alloc, &mut page, book, task.leaf)?;
        page.words("}")?;
    }
    page.words("],\"out\":[")?;
    for (index, task) in todo.todo.out.iter().enumerate() {
        page.between(index, ",")?;
        push_out_object(alloc, &mut page, book, task)?;
    }
    page.words("]")?;
    page.key("state")?;
    page.quoted_text(state_word(todo).as_bytes())?;
    page.words("}\n")?;
    Ok(page.text)
}

/// Adds the object of a task that is out.
fn push_out_object<B: Book>(
    alloc: Global,
    page: &mut Writer,
    book: &B,
    task: &OutTask,
) -> Result<(), AllocError> {
    push_task(alloc, page, book, task.call.leaf)?;
    page.key("claim")?;
    page.number(u64::from(task.call.claim))?;
    page.key("attempt")?;
    page.number(u64::from(task.call.attempt))?;
    page.key("key")?;
    page.quoted_text(&key_of(alloc, book, task.call.leaf)?)?;
    page.key("user")?;
    page.quoted_text(book.user_name(task.holder.unwrap_or(0)).as_bytes())?;
    if let Some(at) = taken_at(book, task.call.claim) {
        page.key("at")?;
        page.quoted_text(at.as_bytes())?;
    }
    page.words("}")
}

/// Adds the front of an object about a task.
fn push_task<B: Book>(
    alloc: Global,
    page: &mut Writer,
    book: &B,
    leaf: u32,
) -> Result<(), AllocError> {
    page.words("{\"leaf\":")?;
    page.number(u64::from(leaf))?;
    page.key("task")?;
    page.quoted_text(&label_of(alloc, book, leaf)?)
}

/// Adds the tests and updates that are done before a task is taken, if there are such.
fn push_steps<B: Book>(
    alloc: Global,
    page: &mut Writer,
    book: &B,
    steps: &[u32],
) -> Result<(), AllocError> {
    if steps.is_empty() {
        return Ok(());
    }
    page.key("steps")?;
    page.words("[")?;
    for (index, step) in steps.iter().enumerate() {
        page.between(index, ",")?;
        page.quoted_text(&label_of(alloc, book, *step)?)?;
    }
    page.words("]")
}

/// Adds the users who may begin a task, in a case with a policy.
fn push_task_users<B: Book>(
    alloc: Global,
    page: &mut Writer,
    book: &B,
    leaf: u32,
) -> Result<(), AllocError> {
    if book.policy().is_none() {
        return Ok(());
    }
    page.key("users")?;
    page.words("[")?;
    for (index, user) in takers(alloc, book, leaf)?.iter().enumerate() {
        page.between(index, ",")?;
        page.quoted_text(book.user_name(*user).as_bytes())?;
    }
    page.words("]")
}
