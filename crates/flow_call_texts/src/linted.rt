use clap::{ArgMatches, Command};
use flow_call::{NO_MEMORY, flag, option, read_file, required, say_unread, write_out};
use flow_desk::GREATEST_INPUT;
use flow_lint_cli::lint_text;
use flow_why_cli::Form;
use std::alloc::{AllocError, Global};
use std::fs::File;
use std::rt::Files;

/// The words that ask what to look at in a workflow.
pub fn lint_command<'a>(alloc: Global) -> Result<Command<'a>, AllocError> {
    let file = required(
        alloc,
        "file",
        "FILE",
        "the text of a workflow, of which what stands behind a line %% is not looked at; or the folder of a case, whose policy is looked at",
    );
    let policy = option(
        alloc,
        "policy",
        "POLICY",
        "tells what to look at in this policy of the workflow",
    );
    let json = flag(alloc, "json", "tells it as a JSON object on a line");
    Command::new(alloc, "lint")
        .about("Tells what in a workflow or its policy cannot happen, or changes nothing")
        .arg(file)?
        .arg(policy)?
        .arg(json)
}

/// Tells what to look at in the workflow that the words name, and gives the status.
pub fn lint_file<R: Files<File = File> + AllocGlobal + Print + Eprint>(
    rt: &R,
    matches: &ArgMatches<'_>,
) -> u8 {
    let file = matches.get_str("file").unwrap_or("");
    let text = match read_file(rt, file, GREATEST_INPUT) {
        Ok(text) => text,
        Err(error) => return say_unread(rt, file, error),
    };
    let form = if matches.get_flag("json") {
        Form::Json
    } else {
        Form::Words
    };
    match lint_text(rt.alloc(), &text, form) {
        Ok(output) => match write_out(rt, &output.text) {
            0 => output.status.code(),
            fault => fault,
        },
        Err(AllocError) => NO_MEMORY,
    }
}
