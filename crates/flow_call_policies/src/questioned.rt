//! Questions to a workflow and its policy, and what to look at in the policy.

use clap::builder::ValueParser;
use clap::{Arg, ArgMatches, Command};
use flow_call::{
    NO_MEMORY, REFUSED, WORDS, flag, is_folder, option, read_file, required, say_unread, write_out,
};
use flow_call_cases::{say_folder, say_policy, say_stop, without_divider};
use flow_case_book::CaseStop;
use flow_case_files::{CaseTexts, GREATEST_TEXT, read_case};
use flow_facts::Name;
use flow_questions_cli::{Form, Output, QuestionStop, tell_alone, tell_policy, tell_staffed};
use std::alloc::{AllocError, Global};
use std::fs::File;
use std::rt::Files;

/// So many states are looked at where the words say nothing else.
const STATES: u64 = 1_000_000;

/// The words of a question: the workflow, its policy, the limit of states and the form.
fn question<'a>(
    alloc: Global,
    name: &'static str,
    about: &'static str,
) -> Result<Command<'a>, AllocError> {
    let file = required(
        alloc,
        "file",
        "FILE",
        "the text of a workflow, or the folder of a case",
    );
    let policy = option(
        alloc,
        "policy",
        "POLICY",
        "who may do what; a case has its own",
    );
    let states = option(
        alloc,
        "states",
        "N",
        "looks at so many states at most, a million where this is left out",
    )
    .value_parser(ValueParser::Unsigned(1, u64::MAX));
    let json = flag(alloc, "json", "tells it as a JSON object on a line");
    Command::new(alloc, name)
        .about(about)
        .arg(file)?
        .arg(policy)?
        .arg(states)?
        .arg(json)
}

/// The words that ask for a run in which one user takes two events.
pub fn alone_command<'a>(alloc: Global) -> Result<Command<'a>, AllocError> {
    let one = event_arg(alloc, "one", "A");
    let two = event_arg(alloc, "two", "B");
    question(
        alloc,
        "alone",
        "Looks for a run in which one user takes two events",
    )?
    .arg(one)?
    .arg(two)
}

/// The words that ask for an event that nobody may take.
pub fn staffed_command<'a>(alloc: Global) -> Result<Command<'a>, AllocError> {
    question(
        alloc,
        "staffed",
        "Looks for an event that may be begun and that nobody may take",
    )
}

/// A word that is the name of an event.
fn event_arg<'a>(alloc: Global, name: &'a str, value: &'a str) -> Arg<'a> {
    required(alloc, name, value, "the name of an event")
}

/// The texts that the words name: a workflow and a policy, or those of a case.
fn texts<R: Files<File = File> + AllocGlobal + Print + Eprint>(
    rt: &R,
    words: &ArgMatches<'_>,
) -> Result<(Vec<u8>, Vec<u8>), u8> {
    let file = words.get_str("file").unwrap_or("");
    if is_folder(rt, file) {
        return case_texts(rt, file);
    }
    let Some(policy) = words.get_str("policy") else {
        let _ = eprintln!(rt; "{file}: --policy POLICY is wanted: it says who may take what");
        return Err(WORDS);
    };
    let workflow = match read_file(rt, file, GREATEST_TEXT) {
        Ok(text) => text,
        Err(error) => return Err(say_unread(rt, file, error)),
    };
    match read_file(rt, policy, GREATEST_TEXT) {
        Ok(text) => Ok((workflow, text)),
        Err(error) => Err(say_unread(rt, policy, error)),
    }
}

/// The texts of a case.
fn case_texts<R: Files<File = File> + AllocGlobal + Print + Eprint>(
    rt: &R,
    case: &str,
) -> Result<(Vec<u8>, Vec<u8>), u8> {
    let CaseTexts {
        workflow,
        policy,
        ..
    } = match read_case(rt, case) {
        Ok(texts) => texts,
        Err(fault) => return Err(say_folder(rt, case, fault)),
    };
    match policy {
        Some(policy) => Ok((workflow, policy)),
        None => {
            let _ = eprintln!(rt; "{case}: the case has no policy: everybody may take everything");
            Err(REFUSED)
        }
    }
}

/// Says that a name is that of no event, and which was perhaps meant, and gives the status.
fn say_no_event(rt: &impl Eprint, file: &str, name: &str, near: Option<Name>) -> u8 {
    match near {
        Some(near) => {
            let near = str::from_utf8(near.bytes()).unwrap_or("?");
            let _ = eprintln!(rt;
                "{file}: {name} is no event of the workflow: did you mean {near}?"
            );
        }
        None => {
            let _ = eprintln!(rt; "{file}: {name} is no event of the workflow");
        }
    }
    REFUSED
}

/// Says why nothing is told, and gives the status. So many lines of its file stand before the policy.
fn say_stopped(
    rt: &(impl AllocGlobal + Eprint),
    words: &ArgMatches<'_>,
    before: usize,
    policy: &[u8],
    stop: QuestionStop,
) -> u8 {
    let file = words.get_str("file").unwrap_or("");
    let name = words.get_str("policy").unwrap_or(file);
    match stop {
        QuestionStop::Workflow(stop) => say_stop(rt, file, CaseStop::Workflow(stop)),
        QuestionStop::Policy(refusal) => say_policy(rt, name, before, policy, &refusal),
        QuestionStop::LongPolicy => say_stop(rt, name, CaseStop::LongPolicy),
        QuestionStop::NoEvent { second, near } => {
            let word = if second { "two" } else { "one" };
            say_no_event(rt, file, words.get_str(word).unwrap_or(""), near)
        }
        QuestionStop::OneEvent => {
            let _ = eprintln!(rt; "{file}: two different events are wanted");
            REFUSED
        }
        QuestionStop::NoMemory => NO_MEMORY,
    }
}

/// The form that the words ask for.
fn form_in(words: &ArgMatches<'_>) -> Form {
    if words.get_flag("json") {
        Form::Json
    } else {
        Form::Words
    }
}

/// How many states are looked at.
fn states_in(words: &ArgMatches<'_>) -> u64 {
    match words.get_str("states") {
        Some(text) => text.parse::<u64>().unwrap_or(STATES),
        None => STATES,
    }
}

/// What is told of the question of that name. So many lines of its file stand before the policy.
fn told_of(
    rt: &impl AllocGlobal,
    name: &str,
    words: &ArgMatches<'_>,
    workflow: &[u8],
    policy: &[u8],
    before: usize,
) -> Result<Output, QuestionStop> {
    let form = form_in(words);
    if name == "alone" {
        let one = words.get_str("one").unwrap_or("").as_bytes();
        let two = words.get_str("two").unwrap_or("").as_bytes();
        tell_alone(
            rt.alloc(),
            workflow,
            policy,
            one,
            two,
            states_in(words),
            form,
        )
    } else if name == "staffed" {
        tell_staffed(rt.alloc(), workflow, policy, states_in(words), form)
    } else {
        tell_policy(rt.alloc(), workflow, policy, before, form)
    }
}

/// Answers the question of that name, `alone`, `staffed` or else what to look at in the policy, and gives the status.
pub fn answer<R: Files<File = File> + AllocGlobal + Print + Eprint>(
    rt: &R,
    name: &str,
    words: &ArgMatches<'_>,
) -> u8 {
    let (workflow, file) = match texts(rt, words) {
        Ok(texts) => texts,
        Err(status) => return status,
    };
    let policy = without_divider(&file);
    let before = if policy.len() < file.len() { 1 } else { 0 };
    match told_of(rt, name, words, &workflow, policy, before) {
        Ok(Output { status, text }) => match write_out(rt, &text) {
            0 => status.code(),
            fault => fault,
        },
        Err(stop) => say_stopped(rt, words, before, policy, stop),
    }
}
