//! Lines in words.
ghost use Rattle.std.specs.Prelude.{◌≡◌};
ghost use Rattle.flow_list.specs.Words.{name_of, user_name};

use crate::line::CaseLine;
use crate::steps::LeafName;
use crate::taken::TaskOut;
use crate::tasks::Beginning;
use flow_case::Users;
use flow_case_seen::SharedTexts;
use flow_case_state::CaseState;
use flow_writer::Writer;
use std::alloc::{AllocError, Global};

/// The width of the names of cases, and that of their states.
const NAME: usize = 24;

const STATE: usize = 10;

/// How a case stands, in words.
fn state_words(state: CaseState) -> &'static str {
    match state {
        CaseState::StuckByDuties => "stuck",
        _ => state.word(),
    }
}

/// The name of the user with that number.
pub fn name_of(texts: &SharedTexts, number: u32) -> &[u8]
    ensures { result.now ≡ name_of texts.now.users number }
{
    match texts.users() {
        Some(users) => user_name(users, number),
        None => b"nobody",
    }
}

#[tactic(auto, using(crate::proofs::NameLemmas::named_so, crate::proofs::NameLemmas::named_none))]
fn user_name(users: &Users, number: u32) -> &[u8]
    ensures { result.now ≡ user_name users.now number }
{
    match users.name_of(number) {
        Some(name) => name.bytes(),
        None => b"nobody",
    }
}

/// Adds what stands in front of one thing that is told: nothing before the first.
fn write_part(line: &mut Writer, is_first: &mut bool, word: &str) -> Result<(), AllocError> {
    if !*is_first {
        line.words("; ")?;
    }
    *is_first = false;
    line.words(word)
}

/// Adds the names of the users.
fn write_users(line: &mut Writer, texts: &SharedTexts, users: &[u32]) -> Result<(), AllocError> {
    for (index, number) in users.iter().enumerate() {
        line.between(index, ", ")?;
        line.bytes(name_of(texts, *number))?;
    }
    Ok(())
}

/// Adds a task that may be begun, with those who may begin it.
fn write_beginning(
    line: &mut Writer,
    texts: &SharedTexts,
    task: &Beginning,
) -> Result<(), AllocError> {
    line.bytes(&task.task)?;
    match &task.users {
        Some(users) => {
            line.words(" (")?;
            write_users(line, texts, users)?;
            line.words(")")
        }
        None => Ok(()),
    }
}

/// Adds the tasks that somebody may begin.
fn write_begin(
    line: &mut Writer,
    texts: &SharedTexts,
    begin: &[Beginning],
    is_first: &mut bool,
) -> Result<(), AllocError> {
    let mut count = 0usize;
    for task in begin {
        if !task.is_for_nobody() {
            if count == 0 {
                write_part(line, is_first, "may be begun: ")?;
            }
            line.between(count, ", ")?;
            write_beginning(line, texts, task)?;
            count = count.saturating_add(1);
        }
    }
    Ok(())
}

/// Adds the tasks that duties leave to nobody.
fn write_for_nobody(
    line: &mut Writer,
    begin: &[Beginning],
    is_first: &mut bool,
) -> Result<(), AllocError> {
    let mut count = 0usize;
    for task in begin {
        if task.is_for_nobody() {
            if count == 0 {
                write_part(line, is_first, "nobody may take ")?;
            }
            line.between(count, ", ")?;
            line.bytes(&task.task)?;
            count = count.saturating_add(1);
        }
    }
    Ok(())
}

/// Adds leaves by their labels, behind a word.
fn write_steps(
    line: &mut Writer,
    word: &str,
    steps: &[LeafName],
    is_first: &mut bool,
) -> Result<(), AllocError> {
    for (index, step) in steps.iter().enumerate() {
        if index == 0 {
            write_part(line, is_first, word)?;
        }
        line.between(index, ", ")?;
        line.bytes(&step.name)?;
    }
    Ok(())
}

/// Adds a task that is out, with who took it and when.
fn write_task_out(line: &mut Writer, task: &TaskOut) -> Result<(), AllocError> {
    line.bytes(&task.task)?;
    line.words(" (")?;
    line.words(task.user.as_str())?;
    line.words(" since ")?;
    line.words(task.since.as_str())?;
    line.words(")")
}

/// Adds the tasks that are out.
fn write_out(line: &mut Writer, out: &[TaskOut], is_first: &mut bool) -> Result<(), AllocError> {
    for (index, task) in out.iter().enumerate() {
        if index == 0 {
            write_part(line, is_first, "out: ")?;
        }
        line.between(index, ", ")?;
        write_task_out(line, task)?;
    }
    Ok(())
}

/// Adds what is told of a case behind its name and its state.
fn write_told(line: &mut Writer, texts: &SharedTexts, told: &CaseLine) -> Result<(), AllocError> {
    let mut is_first = true;
    write_begin(line, texts, &told.tasks.begin, &mut is_first)?;
    write_for_nobody(line, &told.tasks.begin, &mut is_first)?;
    write_steps(line, "may be done: ", &told.steps.free, &mut is_first)?;
    write_out(line, &told.tasks.out, &mut is_first)?;
    write_steps(line, "waits for ", &told.steps.waiting, &mut is_first)
}

/// The line of a case, in words.
pub fn line_words(
    alloc: Global,
    texts: &SharedTexts,
    case: &str,
    told: &CaseLine,
) -> Result<Vec<u8>, AllocError> {
    let mut line = Writer::new(alloc);
    line.column(case.as_bytes(), NAME)?;
    line.column(state_words(told.state).as_bytes(), STATE)?;
    write_told(&mut line, texts, told)?;
    line.words("\n")?;
    Ok(line.text)
}

/// The line of a case that is damaged, in words.
pub fn damaged_words(alloc: Global, case: &str, why: &str) -> Result<Vec<u8>, AllocError> {
    let mut line = Writer::new(alloc);
    line.column(case.as_bytes(), NAME)?;
    line.column("damaged".as_bytes(), STATE)?;
    line.words(why)?;
    line.words("\n")?;
    Ok(line.text)
}
