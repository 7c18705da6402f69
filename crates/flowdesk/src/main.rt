//! `flowdesk`: draws the workflow of a file, and where a run of it stands, to the standard output; tells what is wrong with it and
//! what to look at; and drives cases by names.
#![tactic(auto)]

mod words;

use clap::ArgMatches;
use flow_call::{NO_MEMORY, WORDS, is_folder};
use flow_call_cases::{
    ask_case, case_report, dialogue, draw_case, is_case_command, make, verify, write_page,
};
use flow_call_folders::{export, is_office, list, write_office};
use flow_call_logs::{draw_log, log_file};
use flow_call_move::move_case;
use flow_call_policies::answer;
use flow_call_texts::{draw_file, draw_file_with, explain_file, lint_file};
use std::alloc::AllocError;
use std::env;
use std::fs::File;
use std::io::{self, IsTerminal};
use std::process::ExitCode;
use std::random::RandomSource;
use std::rt::{Env, Files};
use std::thread::Threads;
use std::time::Clock;
use words::desk_command;

/// The words of the command line. Where one of them is no text there are none, which is no call either.
fn words_given(rt: &(impl Env + AllocGlobal)) -> Result<Vec<String>, AllocError> {
    match env::args(rt) {
        Ok(args) => Vec::from_iter(rt.alloc(), args),
        Err(error) if error.kind() == io::ErrorKind::OutOfMemory => Err(AllocError),
        Err(_) => Ok(Vec::new(rt.alloc())),
    }
}

/// Draws what the words ask for, a file, a case or how often cases of a log passed, and gives the status.
fn draw<
    R: Files<File = File>
        + Clock
        + Input
        + RandomSource
        + AllocGlobal
        + Print
        + Eprint
        + Threads
        + Sync,
>(rt: &R, words: &ArgMatches<'_>) -> u8 {
    if words.get_str("log").is_some() {
        return draw_log(rt, words);
    }
    let file = words.get_str("file").unwrap_or("");
    if is_folder(rt, file) {
        return draw_case(rt, file, words);
    }
    let journal = words.get_str("journal").unwrap_or("");
    if !is_folder(rt, journal) {
        return draw_file(rt, words);
    }
    match case_report(rt, journal) {
        Ok(report) => draw_file_with(rt, words, &report),
        Err(status) => status,
    }
}

/// Tells what to look at in a workflow, or in a policy where the words name one or a case, and gives the status.
fn lint<R: Files<File = File> + AllocGlobal + Print + Eprint>(
    rt: &R,
    words: &ArgMatches<'_>,
) -> u8 {
    if words.get_str("policy").is_some() || is_folder(rt, words.get_str("file").unwrap_or("")) {
        return answer(rt, "lint", words);
    }
    lint_file(rt, words)
}

/// Writes the page of a case, or of a folder of cases, and gives the status.
fn page<R: Files<File = File> + Clock + AllocGlobal + Print + Eprint + Clone + Drop>(
    rt: &R,
    words: &ArgMatches<'_>,
) -> u8 {
    if is_office(rt, words.get_str("case").unwrap_or("")) {
        return write_office(rt, words);
    }
    write_page(rt, words)
}

/// Does what the words of a subcommand ask for, and gives the status.
fn called<
    R: Files<File = File>
        + Env
        + Clock
        + Input
        + RandomSource
        + AllocGlobal
        + Print
        + Eprint
        + Threads
        + Sync
        + Clone
        + Drop,
>(rt: &R, name: &str, words: &ArgMatches<'_>, at_terminal: bool) -> u8 {
    match name {
        "draw" => draw(rt, words),
        "explain" => explain_file(rt, words),
        "lint" => lint(rt, words),
        "alone" | "staffed" => answer(rt, name, words),
        "log" => log_file(rt, words),
        "list" => list(rt, words),
        "export" => export(rt, words),
        "new" => make(rt, words),
        "move" => move_case(rt, words),
        "page" => page(rt, words),
        "verify" => verify(rt, words),
        "open" => dialogue(rt, words, rt.reader(), at_terminal),
        name if is_case_command(name) => ask_case(rt, name, words),
        _ => WORDS,
    }
}

/// Reads the words, does what they ask for, and gives the status.
fn desk<
    R: Files<File = File>
        + Env
        + Clock
        + Input
        + RandomSource
        + AllocGlobal
        + Print
        + Eprint
        + Threads
        + Sync
        + Clone
        + Drop,
>(rt: &R, at_terminal: bool) -> u8 {
    let Ok(words) = words_given(rt) else {
        return NO_MEMORY;
    };
    let Ok(command) = desk_command(rt.alloc()) else {
        return NO_MEMORY;
    };
    match command.try_get_matches_from(words.as_slice()) {
        Ok(matches) => match matches.subcommand() {
            Some((name, words)) => called(rt, name, words, at_terminal),
            None => WORDS,
        },
        Err(error) => {
            let status = if error.use_stderr() { WORDS } else { 0 };
            let _ = error.print(rt);
            status
        }
    }
}

fn main(rt: HostRuntime) -> ExitCode {
    let at_terminal = rt.stdin().is_terminal();
    ExitCode::from(desk(&rt, at_terminal))
}
