//! A dialogue with a case: each line is answered before the next is read. At a terminal the case stands before each line.

use crate::asked::{FileCase, ask_line, asker_in, opened, wait_in};
use clap::ArgMatches;
use flow_call::{NO_MEMORY, READ_FAULT, REFUSED, stamp, write_out};
use std::alloc::AllocError;
use std::fs::File;
use std::io::BufRead;
use std::rt::{Env, Files};
use std::time::Clock;

/// Answers the lines of standard input, each before the next is read.
pub fn dialogue<
    R: Files<File = File> + Env + Clock + AllocGlobal + Print + Eprint,
    I: BufRead + Drop,
>(rt: &R, words: &ArgMatches<'_>, input: I, at_terminal: bool) -> u8 {
    let mut input = input;
    let prompts = at_terminal && !words.get_flag("json");
    let case = words.get_str("case").unwrap_or("");
    let Ok(first) = stamp(rt) else {
        return NO_MEMORY;
    };
    match opened(rt, case, wait_in(words), &first) {
        Ok(mut book) => {
            let status = answer_lines(rt, &mut book, words, &mut input, prompts);
            drop(book);
            status
        }
        Err(status) => status,
    }
}

/// Writes the case before a line is read, where that is wanted, and gives the status.
fn prompt(rt: &(impl AllocGlobal + Print + Eprint), words: &ArgMatches<'_>, is_wanted: bool) -> u8 {
    if !is_wanted {
        return 0;
    }
    let case = words.get_str("case").unwrap_or("");
    match format!(in rt.alloc(); "{case}> ") {
        Ok(text) => write_out(rt, text.as_bytes()),
        Err(AllocError) => NO_MEMORY,
    }
}

/// Answers line after line. A dialogue that comes to the end of its input has done all, whatever it replied.
fn answer_lines<'a, R: Files<File = File> + Env + Clock + AllocGlobal + Print + Eprint, I: BufRead>(
    rt: &R,
    book: &mut FileCase<'a, R>,
    words: &ArgMatches<'_>,
    input: &mut I,
    prompts: bool,
) -> u8 {
    let mut line = Vec::new(rt.alloc());
    for _ in 0..u64::MAX {
        let fault = prompt(rt, words, prompts);
        if fault != 0 {
            return fault;
        }
        line.clear();
        let status = match input.read_until(b'\n', &mut line) {
            Ok(0) => return 0,
            Ok(_) => answer_line(rt, book, words, trimmed(&line)),
            Err(error) => {
                let _ = eprintln!(rt; "flowdesk: standard input: {error}");
                return READ_FAULT;
            }
        };
        if status > REFUSED {
            return status;
        }
    }
    0
}

/// The line without its line feed.
fn trimmed(line: &[u8]) -> &[u8] {
    match line.split_last() {
        Some((b'\n', rest)) => rest,
        _ => line,
    }
}

/// Answers a line of a dialogue, and gives the status.
fn answer_line<'a, R: Files<File = File> + Env + Clock + AllocGlobal + Print + Eprint>(
    rt: &R,
    book: &mut FileCase<'a, R>,
    words: &ArgMatches<'_>,
    line: &[u8],
) -> u8 {
    match asker_in(rt, words) {
        Ok(asker) => ask_line(rt, book, words, &asker, line),
        Err(AllocError) => NO_MEMORY,
    }
}
