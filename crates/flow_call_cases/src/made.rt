//! The folder of a case is made.

use crate::asked::{WAIT, opened, say_begin, say_idle};
use crate::faults::{say_folder, say_policy, say_stop};
use clap::ArgMatches;
use flow_call::{read_file, say_unread};
use flow_case_book::{CaseStop, CaseTexts, check_texts};
use flow_case_files::{GREATEST_TEXT, make_case};
use std::fs::File;
use std::rt::{Env, Files};
use std::time::{Clock, Duration};

/// Makes the folder of a case, and says which of its tasks nobody may take, and what may be begun in it.
pub fn make<R: Files<File = File> + Env + Clock + AllocGlobal + Print + Eprint>(
    rt: &R,
    words: &ArgMatches<'_>,
) -> u8 {
    let file = words.get_str("workflow").unwrap_or("");
    let workflow = match read_file(rt, file, GREATEST_TEXT) {
        Ok(text) => text,
        Err(error) => return say_unread(rt, file, error),
    };
    let policy = match words.get_str("policy") {
        Some(file) => match read_file(rt, file, GREATEST_TEXT) {
            Ok(text) => Some(text),
            Err(error) => return say_unread(rt, file, error),
        },
        None => None,
    };
    match &policy {
        Some(policy) => make_governed(rt, words, &workflow, policy),
        None => make_free(rt, words, &workflow),
    }
}

/// The text behind its first line, where that is `%%`: so a policy stands for `flow duty`.
pub fn without_divider(text: &[u8]) -> &[u8] {
    match text {
        [b'%', b'%', b'\n', rest @ ..] => rest,
        _ => text,
    }
}

/// Makes the folder of a case under a policy.
fn make_governed<'x, R: Files<File = File> + Clock + AllocGlobal + Print + Eprint>(
    rt: &R,
    words: &ArgMatches<'_>,
    workflow: &'x [u8],
    file: &'x [u8],
) -> u8 {
    let policy = without_divider(file);
    let before = if policy.len() < file.len() { 1 } else { 0 };
    let texts = CaseTexts {
        workflow,
        policy: Some(policy),
    };
    match check_texts(rt.alloc(), texts) {
        Ok(()) => make_checked(rt, words, texts),
        Err(CaseStop::Policy(refusal)) => {
            let file = words.get_str("policy").unwrap_or("");
            say_policy(rt, file, before, policy, &refusal)
        }
        Err(stop) => say_stop(rt, words.get_str("case").unwrap_or(""), stop),
    }
}

/// Makes the folder of a case without a policy.
fn make_free<R: Files<File = File> + Clock + AllocGlobal + Print + Eprint>(
    rt: &R,
    words: &ArgMatches<'_>,
    workflow: &[u8],
) -> u8 {
    let policy = None;
    let texts = CaseTexts { workflow, policy };
    match check_texts(rt.alloc(), texts) {
        Ok(()) => make_checked(rt, words, texts),
        Err(stop) => say_stop(rt, words.get_str("case").unwrap_or(""), stop),
    }
}

/// Makes the folder of a case of these texts, which are not refused.
fn make_checked<R: Files<File = File> + Clock + AllocGlobal + Print + Eprint>(
    rt: &R,
    words: &ArgMatches<'_>,
    texts: CaseTexts<'_>,
) -> u8 {
    let case = words.get_str("case").unwrap_or("");
    let tidied = words.get_flag("tidy");
    if let Err(fault) = make_case(rt, case, texts.workflow, texts.policy, tidied) {
        return say_folder(rt, case, fault);
    }
    match opened(rt, case, Duration::from_secs(WAIT), "") {
        Ok(mut book) => {
            let status = match say_idle(rt, &book) {
                0 => say_begin(rt, &mut book),
                fault => fault,
            };
            drop(book);
            status
        }
        Err(status) => status,
    }
}
