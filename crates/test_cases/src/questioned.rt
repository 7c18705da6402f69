//! Rows of questions to a policy, and of what to look at in it: the calls of `flow_questions_cli` on the texts of a workflow and a
//! policy.

use crate::explained::{has_word, word_behind};
use crate::rows::Row;
use anyhow::Result;
use flow_front::{Status, Stop};
use flow_questions_cli::{Form, Output, QuestionStop, tell_alone, tell_policy, tell_staffed};
use std::alloc::Global;

/// The status where a name is refused.
const NAME: u8 = 1;

/// The status where a text is refused.
const TEXT: u8 = 3;

/// The status where there was not enough memory.
const MEMORY: u8 = 6;

/// So many states are looked at where the row says nothing else.
const STATES: u64 = 1_000_000;

/// The word of that number.
fn word_at(words: &[String], number: usize) -> &[u8] {
    match words.get(number) {
        Some(word) => word.as_bytes(),
        None => &[],
    }
}

/// What is told of the texts.
fn told_of(
    alloc: Global,
    words: &[String],
    workflow: &[u8],
    policy: &[u8],
    states: u64,
) -> Result<Output, QuestionStop> {
    let form = if has_word(words, "--json") {
        Form::Json
    } else {
        Form::Words
    };
    if has_word(words, "alone") {
        let one = word_at(words, 2);
        let two = word_at(words, 3);
        tell_alone(alloc, workflow, policy, one, two, states, form)
    } else if has_word(words, "staffed") {
        tell_staffed(alloc, workflow, policy, states, form)
    } else {
        tell_policy(alloc, workflow, policy, 0, form)
    }
}

/// Which of the names is that of no event, and which was perhaps meant.
fn no_event(alloc: Global, second: bool, near: &[u8]) -> Result<Vec<u8>> {
    let mut text = Vec::new(alloc);
    let word: &str = if second {
        "second: no event"
    } else {
        "first: no event"
    };
    text.extend_from_slice(word.as_bytes())?;
    if !near.is_empty() {
        text.extend_from_slice(b", near ")?;
        text.extend_from_slice(near)?;
    }
    text.push(b'\n')?;
    Ok(text)
}

/// A status with a word.
fn word(alloc: Global, status: u8, word: &str) -> Result<(u8, Vec<u8>)> {
    let mut text = Vec::new(alloc);
    text.extend_from_slice(word.as_bytes())?;
    text.push(b'\n')?;
    Ok((status, text))
}

/// Why nothing is told.
fn stopped(alloc: Global, stop: QuestionStop) -> Result<(u8, Vec<u8>)> {
    match stop {
        QuestionStop::Workflow(Stop::Refused(refused)) => {
            word(alloc, Status::of(&refused).code(), "workflow")
        }
        QuestionStop::Policy(refusal) => {
            drop(refusal);
            word(alloc, TEXT, "policy")
        }
        QuestionStop::LongPolicy => word(alloc, TEXT, "long policy"),
        QuestionStop::NoEvent { second, near } => {
            let text = match &near {
                Some(near) => no_event(alloc, second, near.bytes())?,
                None => no_event(alloc, second, &[])?,
            };
            Ok((NAME, text))
        }
        QuestionStop::OneEvent => word(alloc, NAME, "one event"),
        QuestionStop::Workflow(Stop::NoMemory) | QuestionStop::NoMemory => {
            word(alloc, MEMORY, "memory")
        }
    }
}

/// The status of the call that a row describes, and what it tells.
pub(crate) fn questioned_by(
    alloc: Global,
    words: &[String],
    row: &Row<'_>,
) -> Result<(u8, Vec<u8>)> {
    let states = match word_behind(words, "--states") {
        Some(states) => states.parse::<u64>()?,
        None => STATES,
    };
    let policy = match &row.beside {
        Some(policy) => policy.as_slice(),
        None => &[],
    };
    match told_of(alloc, words, &row.input, policy, states) {
        Ok(output) => Ok((output.status.code(), output.text)),
        Err(stop) => stopped(alloc, stop),
    }
}
