use clap::{ArgMatches, Command};
use flow_call::{NO_MEMORY, flag, option, read_file, required, say_unread, write_out};
use flow_desk::GREATEST_INPUT;
use flow_front::Output;
use flow_run_why_cli::{explain_journal, explain_query, explain_session};
use flow_why_cli::{Form, explain};
use std::alloc::{AllocError, Global};
use std::fs::File;
use std::rt::Files;

/// The words that ask what is wrong with a workflow, or with what is asked of it.
pub fn explain_command<'a>(alloc: Global) -> Result<Command<'a>, AllocError> {
    let file = required(
        alloc,
        "file",
        "FILE",
        "the text of a workflow; what stands behind a line %% is not looked at",
    );
    let circles = flag(
        alloc,
        "circles",
        "tells the circle of each option of an inconsistent workflow, too",
    );
    let json = flag(
        alloc,
        "json",
        "tells it as JSON objects, each on a line, without circles",
    );
    let command = Command::new(alloc, "explain")
        .about("Tells why a workflow is refused or inconsistent, and why tasks wait")
        .arg(file)?
        .arg(circles)?
        .arg(json)?;
    with_texts(alloc, command)
}

/// The command with the options for what is asked of a workflow.
fn with_texts<'a>(alloc: Global, command: Command<'a>) -> Result<Command<'a>, AllocError> {
    let session = option(
        alloc,
        "session",
        "PATH",
        "the commands of flow drive: tells why each is refused that is, and which leaves wait then, and why",
    );
    let policy = option(
        alloc,
        "policy",
        "PATH",
        "a policy of flow duty: the session is one of its users",
    );
    let journal = option(
        alloc,
        "journal",
        "PATH",
        "a journal of flow trace: tells where it is bad, why, and what could have come there",
    );
    let query = option(
        alloc,
        "query",
        "PATH",
        "a query of flow verify: tells what is wrong with it",
    );
    let leaf = option(
        alloc,
        "leaf",
        "LEAF",
        "the number or the label of a leaf: tells why it waits, and of no other",
    );
    command
        .arg(session)?
        .arg(policy)?
        .arg(journal)?
        .arg(query)?
        .arg(leaf)
}

/// The form that is asked for.
fn form_in(matches: &ArgMatches<'_>) -> Form {
    if matches.get_flag("json") {
        Form::Json
    } else if matches.get_flag("circles") {
        Form::WithCircles
    } else {
        Form::Words
    }
}

/// The text of a file that the words name, or the status where it is not read. Without such a word there is none.
fn text_of<R: Files<File = File> + AllocGlobal + Eprint>(
    rt: &R,
    matches: &ArgMatches<'_>,
    name: &str,
) -> Result<Option<Vec<u8>>, u8> {
    let Some(path) = matches.get_str(name) else {
        return Ok(None);
    };
    match read_file(rt, path, GREATEST_INPUT) {
        Ok(text) => Ok(Some(text)),
        Err(error) => Err(say_unread(rt, path, error)),
    }
}

/// What is told, or the status where memory is refused.
fn told(output: Result<Output, AllocError>) -> Result<Output, u8> {
    match output {
        Ok(output) => Ok(output),
        Err(AllocError) => Err(NO_MEMORY),
    }
}

/// What is told of a session, or of a policy alone, where the words name one.
fn session_output<R: Files<File = File> + AllocGlobal + Eprint>(
    rt: &R,
    matches: &ArgMatches<'_>,
    text: &[u8],
) -> Result<Output, u8> {
    let form = form_in(matches);
    let session = text_of(rt, matches, "session")?;
    let policy = text_of(rt, matches, "policy")?;
    let leaf = match matches.get_str("leaf") {
        Some(leaf) => Some(leaf.as_bytes()),
        None => None,
    };
    let lines = match &session {
        Some(session) => session.as_slice(),
        None => &[],
    };
    if session.is_none() && policy.is_none() && leaf.is_none() {
        return told(explain(rt.alloc(), text, form));
    }
    told(match &policy {
        Some(policy) => explain_session(rt.alloc(), text, Some(policy), lines, leaf, form),
        None => explain_session(rt.alloc(), text, None, lines, leaf, form),
    })
}

/// What is told of a workflow, and of what is asked of it, or the status where a file is not read.
fn output_of<R: Files<File = File> + AllocGlobal + Eprint>(
    rt: &R,
    matches: &ArgMatches<'_>,
) -> Result<Output, u8> {
    let form = form_in(matches);
    let text = text_of(rt, matches, "file")?.unwrap_or(Vec::new(rt.alloc()));
    if let Some(journal) = text_of(rt, matches, "journal")? {
        return told(explain_journal(rt.alloc(), &text, &journal, form));
    }
    if let Some(query) = text_of(rt, matches, "query")? {
        return told(explain_query(rt.alloc(), &text, &query, form));
    }
    session_output(rt, matches, &text)
}

/// Tells what is wrong with the workflow that the words name, or with what is asked of it, and gives the status.
pub fn explain_file<R: Files<File = File> + AllocGlobal + Print + Eprint>(
    rt: &R,
    matches: &ArgMatches<'_>,
) -> u8 {
    match output_of(rt, matches) {
        Ok(output) => match write_out(rt, &output.text) {
            0 => output.status.code(),
            fault => fault,
        },
        Err(status) => status,
    }
}
