//! The texts under which a case is to go on.

use flow_call::{NO_MEMORY, read_file, say_unread};
use flow_call_cases::{FileCase, without_divider};
use flow_case_begin::CaseTexts;
use flow_case_files::GREATEST_TEXT;
use flow_case_talk::Book;
use std::alloc::{AllocError, Global};
use std::fs::File;
use std::rt::Files;

/// The new texts of a case.
#[derive(Drop)]
pub(crate) struct NewTexts {
    workflow: Vec<u8>,
    policy: Option<Vec<u8>>,
    /// How many lines of its file stand before the policy.
    pub(crate) before: usize,
}

impl NewTexts {
    pub(crate) fn lent(&self) -> CaseTexts<'_> {
        CaseTexts {
            workflow: &self.workflow,
            policy: match &self.policy {
                Some(policy) => Some(policy.as_slice()),
                None => None,
            },
        }
    }
}

fn copied(alloc: Global, text: &[u8]) -> Result<Vec<u8>, u8> {
    match Vec::from_slice(alloc, text) {
        Ok(copy) => Ok(copy),
        Err(AllocError) => Err(NO_MEMORY),
    }
}

fn read_text<R: Files<File = File> + AllocGlobal + Eprint>(
    rt: &R,
    file: &str,
) -> Result<Vec<u8>, u8> {
    match read_file(rt, file, GREATEST_TEXT) {
        Ok(text) => Ok(text),
        Err(error) => Err(say_unread(rt, file, error)),
    }
}

/// The text of the workflow: that of the words, or else that of the case.
fn new_workflow<R: Files<File = File> + AllocGlobal + Eprint>(
    rt: &R,
    file: Option<&str>,
    old: &[u8],
) -> Result<Vec<u8>, u8> {
    match file {
        Some(file) => read_text(rt, file),
        None => copied(rt.alloc(), old),
    }
}

/// The text of the policy: that of the words, or else that of the case.
fn new_policy<R: Files<File = File> + AllocGlobal + Eprint>(
    rt: &R,
    file: Option<&str>,
    old: Option<&[u8]>,
) -> Result<Option<Vec<u8>>, u8> {
    match (file, old) {
        (Some(file), _) => Ok(Some(read_text(rt, file)?)),
        (None, Some(old)) => Ok(Some(copied(rt.alloc(), old)?)),
        (None, None) => Ok(None),
    }
}

/// The policy without its first line, where that is `%%`, and how many lines were left out.
fn undivided(alloc: Global, text: Vec<u8>) -> Result<(Vec<u8>, usize), u8> {
    if without_divider(&text).len() == text.len() {
        return Ok((text, 0));
    }
    let policy = copied(alloc, without_divider(&text));
    drop(text);
    Ok((policy?, 1))
}

/// The new texts: those of the files, and for the rest those of the case.
pub(crate) fn new_texts<'x, R: Files<File = File> + AllocGlobal + Eprint>(
    rt: &R,
    workflow: Option<&str>,
    policy: Option<&str>,
    book: &FileCase<'x, R>,
) -> Result<NewTexts, u8> {
    let policy = match new_policy(rt, policy, book.policy_text())? {
        Some(text) => Some(undivided(rt.alloc(), text)?),
        None => None,
    };
    match new_workflow(rt, workflow, book.workflow_text()) {
        Ok(workflow) => Ok(texts_of(workflow, policy)),
        Err(status) => {
            drop(policy);
            Err(status)
        }
    }
}

fn texts_of(workflow: Vec<u8>, policy: Option<(Vec<u8>, usize)>) -> NewTexts {
    match policy {
        Some((policy, before)) => NewTexts {
            workflow,
            policy: Some(policy),
            before,
        },
        None => NewTexts {
            workflow,
            policy: None,
            before: 0,
        },
    }
}

/// Whether the case has these texts.
pub(crate) fn has_texts<'x, R: Files<File = File>>(
    book: &FileCase<'x, R>,
    texts: &NewTexts,
) -> bool {
    let policy = match (texts.lent().policy, book.policy_text()) {
        (Some(one), Some(other)) => one == other,
        (None, None) => true,
        _ => false,
    };
    policy && texts.workflow.as_slice() == book.workflow_text()
}
