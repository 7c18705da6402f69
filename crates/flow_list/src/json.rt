//! Lines as objects of JSON.

use crate::line::CaseLine;
use crate::steps::LeafName;
use crate::taken::TaskOut;
use crate::tasks::Beginning;
use crate::words::name_of;
use flow_case_seen::SharedTexts;
use flow_writer::Writer;
use std::alloc::{AllocError, Global};

/// Adds a member whose value is a text in UTF-8.
fn write_text_member(line: &mut Writer, key: &str, text: &str) -> Result<(), AllocError> {
    line.key(key)?;
    line.quoted_text(text.as_bytes())
}

/// Adds the front of an object about a leaf.
fn write_leaf(line: &mut Writer, leaf: u32, key: &str, name: &[u8]) -> Result<(), AllocError> {
    line.words("{\"leaf\":")?;
    line.number(u64::from(leaf))?;
    line.text_member(key, name)
}

/// Adds the names of the users.
fn write_users(line: &mut Writer, texts: &SharedTexts, users: &[u32]) -> Result<(), AllocError> {
    line.key("users")?;
    line.words("[")?;
    for (index, number) in users.iter().enumerate() {
        line.between(index, ",")?;
        line.quoted(name_of(texts, *number))?;
    }
    line.words("]")
}

/// Adds a task that may be begun.
fn write_beginning(
    line: &mut Writer,
    texts: &SharedTexts,
    task: &Beginning,
) -> Result<(), AllocError> {
    write_leaf(line, task.leaf, "task", &task.task)?;
    if let Some(numbers) = &task.users {
        write_users(line, texts, numbers)?;
    }
    line.words("}")
}

/// Adds the tasks that may be begun.
fn write_begin(
    line: &mut Writer,
    texts: &SharedTexts,
    begin: &[Beginning],
) -> Result<(), AllocError> {
    line.key("begin")?;
    line.words("[")?;
    for (index, task) in begin.iter().enumerate() {
        line.between(index, ",")?;
        write_beginning(line, texts, task)?;
    }
    line.words("]")
}

/// Adds tests and updates, by their labels.
fn write_steps(line: &mut Writer, key: &str, steps: &[LeafName]) -> Result<(), AllocError> {
    line.key(key)?;
    line.words("[")?;
    for (index, step) in steps.iter().enumerate() {
        line.between(index, ",")?;
        write_leaf(line, step.leaf, "step", &step.name)?;
        line.words("}")?;
    }
    line.words("]")
}

/// Adds a task that is out.
fn write_task_out(line: &mut Writer, task: &TaskOut) -> Result<(), AllocError> {
    write_leaf(line, task.leaf, "task", &task.task)?;
    line.number_member("claim", u64::from(task.claim))?;
    line.number_member("attempt", u64::from(task.attempt))?;
    write_text_member(line, "user", task.user.as_str())?;
    write_text_member(line, "at", task.since.as_str())?;
    line.words("}")
}

/// Adds the tasks that are out.
fn write_out(line: &mut Writer, out: &[TaskOut]) -> Result<(), AllocError> {
    line.key("out")?;
    line.words("[")?;
    for (index, task) in out.iter().enumerate() {
        line.between(index, ",")?;
        write_task_out(line, task)?;
    }
    line.words("]")
}

/// Adds the front of the object of a case.
fn write_front(line: &mut Writer, case: &str, state: &str) -> Result<(), AllocError> {
    line.words("{\"case\":")?;
    line.quoted_text(case.as_bytes())?;
    write_text_member(line, "state", state)
}

/// The line of a case, as an object.
pub fn line_object(
    alloc: Global,
    texts: &SharedTexts,
    case: &str,
    told: &CaseLine,
) -> Result<Vec<u8>, AllocError> {
    let mut line = Writer::new(alloc);
    write_front(&mut line, case, told.state.word())?;
    write_begin(&mut line, texts, &told.tasks.begin)?;
    write_steps(&mut line, "steps", &told.steps.free)?;
    write_steps(&mut line, "waiting", &told.steps.waiting)?;
    write_out(&mut line, &told.tasks.out)?;
    if let Some(last) = &told.last {
        write_text_member(&mut line, "last", last.as_str())?;
    }
    line.words("}\n")?;
    Ok(line.text)
}

/// The line of a case that is damaged, as an object.
pub fn damaged_object(alloc: Global, case: &str, why: &str) -> Result<Vec<u8>, AllocError> {
    let mut line = Writer::new(alloc);
    write_front(&mut line, case, "damaged")?;
    write_text_member(&mut line, "why", why)?;
    line.words("}\n")?;
    Ok(line.text)
}
