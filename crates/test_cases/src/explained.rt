//! Rows of what is wrong with a workflow, a session, a journal, a policy or a query: the calls of `flow_why_cli` and
//! `flow_run_why_cli` on their texts.

use crate::rows::Row;
use anyhow::Result;
use flow_front::Output;
use flow_run_why_cli::{explain_journal, explain_query, explain_session};
use flow_why_cli::{Form, explain};
use std::alloc::Global;

/// Whether a word is among those of the call.
pub(crate) fn has_word(words: &[String], wanted: &str) -> bool {
    words.iter().any(|word| word.as_str() == wanted)
}

/// The word behind another one.
pub(crate) fn word_behind<'a>(words: &'a [String], wanted: &str) -> Option<&'a str> {
    let place = words.iter().position(|word| word.as_str() == wanted)?;
    let word = words.get(place.saturating_add(1))?;
    Some(word.as_str())
}

/// The form that the words ask for.
pub(crate) fn form_in(words: &[String]) -> Form {
    if has_word(words, "--json") {
        Form::Json
    } else if has_word(words, "--circles") {
        Form::WithCircles
    } else {
        Form::Words
    }
}

/// What stands before the first line `%%`, and what behind it. Without such a line it is all behind.
fn parted(text: &[u8]) -> (&[u8], &[u8]) {
    let (end, second) = flow_record::cut(text);
    if end < text.len() {
        (&text[..end], &text[second..])
    } else {
        (&[], text)
    }
}

/// What is told of a row's texts.
fn output_of(alloc: Global, words: &[String], row: &Row<'_>) -> Result<Output> {
    let form = form_in(words);
    let text = row.input.as_slice();
    let beside = match &row.beside {
        Some(beside) => beside.as_slice(),
        None => &[],
    };
    let leaf = match word_behind(words, "--leaf") {
        Some(leaf) => Some(leaf.as_bytes()),
        None => None,
    };
    if has_word(words, "--journal") {
        return Ok(explain_journal(alloc, text, beside, form)?);
    }
    if has_word(words, "--query") {
        return Ok(explain_query(alloc, text, beside, form)?);
    }
    if has_word(words, "--policy") {
        let (policy, session) = parted(beside);
        return Ok(explain_session(alloc, text, Some(policy), session, leaf, form)?);
    }
    if has_word(words, "--session") {
        return Ok(explain_session(alloc, text, None, beside, leaf, form)?);
    }
    Ok(explain(alloc, text, form)?)
}

/// The status of the call that a row describes, and what it tells.
pub(crate) fn explained_by(
    alloc: Global,
    words: &[String],
    row: &Row<'_>,
) -> Result<(u8, Vec<u8>)> {
    let output = output_of(alloc, words, row)?;
    Ok((output.status.code(), output.text))
}
