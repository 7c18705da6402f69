use crate::status::{DISK, INPUT, NO_MEMORY, READ_FAULT};
use flow_desk::{DeskStop, GREATEST_RUN, Position, Telling, position_of};
use std::io;

/// Says that a file was not read, and gives the status.
pub fn say_unread(rt: &impl Eprint, path: &str, error: io::Error) -> u8 {
    let _ = eprintln!(rt; "{path}: {error}");
    DISK
}

/// Says that a file, or standard input, was not read, and gives the status.
pub fn say_no_source(rt: &impl Eprint, path: &str, error: io::Error) -> u8 {
    if path == "-" {
        let _ = eprintln!(rt; "standard input: {error}");
        READ_FAULT
    } else {
        say_unread(rt, path, error)
    }
}

/// Says a refusal of flow's, with its place in the workflow's text, and gives its status.
fn say_refusal(rt: &impl Eprint, file: &str, text: &[u8], telling: &Telling) -> u8 {
    let lines = str::from_utf8(&telling.text).unwrap_or("refused\n");
    match telling.place {
        Some(place) => {
            let Position { line, column } = position_of(text, place);
            let _ = eprint!(rt; "{file}:{line}:{column}: {lines}");
        }
        None => {
            let _ = eprint!(rt; "{file}: {lines}");
        }
    }
    telling.status.code()
}

/// Says what is wrong with a line of a run's file, counted from 0, and gives the status.
fn say_line(rt: &impl Eprint, run: &str, word: &str, line: usize) -> u8 {
    let number = line.saturating_add(1);
    let _ = eprintln!(rt; "{run}:{number}: refused: {word} {line}");
    INPUT
}

/// Says why nothing is drawn, and gives the status.
pub fn say_undrawn(rt: &impl Eprint, file: &str, text: &[u8], run: &str, stop: &DeskStop) -> u8 {
    match stop {
        DeskStop::Workflow(telling) => say_refusal(rt, file, text, telling),
        DeskStop::Line(line) => say_line(rt, run, "line", *line),
        DeskStop::Label(line) => say_line(rt, run, "label", *line),
        DeskStop::Illegal(line) => say_line(rt, run, "entry", *line),
        DeskStop::RunTooLong => {
            let _ = eprintln!(rt; "{run}: refused: too long {GREATEST_RUN}");
            INPUT
        }
        DeskStop::TooLarge => {
            let _ = eprintln!(rt; "{file}: refused: the picture would be too large");
            INPUT
        }
        DeskStop::NoMemory => {
            let _ = eprintln!(rt; "{file}: out of memory");
            NO_MEMORY
        }
    }
}
