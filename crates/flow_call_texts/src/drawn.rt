use crate::kept::{is_kept, kept_report};
use clap::builder::ValueParser;
use clap::{ArgMatches, Command};
use flow_call::{
    flag, option, read_file, read_source, required, say_no_source, say_undrawn, say_unread,
    sheet_in, write_out,
};
use flow_desk::{GREATEST_INPUT, GREATEST_RUN, drawn};
use std::alloc::{AllocError, Global};
use std::fs::File;
use std::rt::Files;

/// The command with the words that say what a picture looks like on its page.
fn with_page<'a>(alloc: Global, command: Command<'a>) -> Result<Command<'a>, AllocError> {
    let fold = option(
        alloc,
        "fold",
        "WIDTH",
        "of SVG: rows of at most so many pixels, for paper",
    );
    command
        .arg(option(alloc, "title", "TEXT", "a title over the picture"))?
        .arg(fold)
}

/// The command with the words that ask for a picture.
pub fn drawing_arguments<'a>(
    alloc: Global,
    command: Command<'a>,
) -> Result<Command<'a>, AllocError> {
    let file = required(
        alloc,
        "file",
        "FILE",
        "the text of a workflow, of which what stands behind a line %% is not looked at; - is standard input; or the folder of a case",
    );
    let journal = option(
        alloc,
        "journal",
        "PATH",
        "a report of flow or flowkeep, a journal, the file of a kept run, or the folder of a case: marks where that run stands",
    );
    let form = option(alloc, "form", "FORM", "how the picture is written")
        .value_parser(ValueParser::Names(&["svg", "mermaid", "dot"]))
        .default_value("svg");
    let log = option(
        alloc,
        "log",
        "LOG",
        "an event log, a CSV file: shows how many of its cases passed each box",
    );
    let who = flag(
        alloc,
        "who",
        "of a case: shows who did or has each task, and when",
    );
    let command = command
        .arg(file)?
        .arg(journal)?
        .arg(log.conflicts_with("journal")?)?
        .arg(form)?
        .arg(who)?;
    with_page(alloc, command)
}

/// The bytes that tell the run in that file; else the status, when it is said why there are none.
fn run_in<R: Files<File = File> + AllocGlobal + Eprint>(
    rt: &R,
    path: &str,
    text: &[u8],
) -> Result<Vec<u8>, u8> {
    match read_file(rt, path, GREATEST_RUN) {
        // a longer one is told as such, as other files are
        Ok(bytes) if is_kept(&bytes) && bytes.len() <= GREATEST_RUN => kept_report(rt, path, text),
        Ok(bytes) => Ok(bytes),
        Err(error) => Err(say_unread(rt, path, error)),
    }
}

/// Draws the workflow of a file, with the run that the words name, and gives the status.
pub fn draw_file<R: Files<File = File> + Input + AllocGlobal + Print + Eprint>(
    rt: &R,
    words: &ArgMatches<'_>,
) -> u8 {
    let file = words.get_str("file").unwrap_or("");
    let text = match read_source(rt, file, GREATEST_INPUT) {
        Ok(text) => text,
        Err(error) => return say_no_source(rt, file, error),
    };
    let Some(journal) = words.get_str("journal") else {
        return draw_text(rt, words, &text, None);
    };
    match run_in(rt, journal, &text) {
        Ok(run) => draw_text(rt, words, &text, Some(&run)),
        Err(status) => status,
    }
}

/// Draws the workflow of a file with a run, and gives the status.
pub fn draw_file_with<R: Files<File = File> + Input + AllocGlobal + Print + Eprint>(
    rt: &R,
    words: &ArgMatches<'_>,
    run: &[u8],
) -> u8 {
    let file = words.get_str("file").unwrap_or("");
    match read_source(rt, file, GREATEST_INPUT) {
        Ok(text) => draw_text(rt, words, &text, Some(run)),
        Err(error) => say_no_source(rt, file, error),
    }
}

/// Draws the workflow of a text, and gives the status.
fn draw_text(
    rt: &(impl AllocGlobal + Print + Eprint),
    words: &ArgMatches<'_>,
    text: &[u8],
    run: Option<&[u8]>,
) -> u8 {
    let sheet = match sheet_in(rt, words) {
        Ok(sheet) => sheet,
        Err(status) => return status,
    };
    match drawn(rt.alloc(), text, run, &[], &sheet) {
        Ok(picture) => write_out(rt, &picture),
        Err(stop) => {
            let file = words.get_str("file").unwrap_or("");
            say_undrawn(
                rt,
                file,
                text,
                words.get_str("journal").unwrap_or(""),
                &stop,
            )
        }
    }
}
