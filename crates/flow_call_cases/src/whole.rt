//! A case is checked.

use crate::asked::{FileCase, opened, wait_in};
use clap::ArgMatches;
use flow_call::{NO_MEMORY, REFUSED, say_unread, stamp, write_out};
use flow_case_book::VerifyRefusal;
use flow_case_files::{ENTRIES, TRAIL, bytes_behind};
use flow_case_talk::Book;
use std::alloc::AllocError;
use std::fs::File;
use std::rt::Files;
use std::time::Clock;

/// How many bytes an entry takes.
const RECORD: usize = 16;

/// The byte that ends the entries, and the one that ends the trail.
const END_OF_ENTRIES: u8 = 0;

const END_OF_TRAIL: u8 = b'\n';

/// Checks a case, and says where its trail ends, and what its files have that means nothing.
pub fn verify<R: Files<File = File> + Clock + AllocGlobal + Print + Eprint>(
    rt: &R,
    words: &ArgMatches<'_>,
) -> u8 {
    let case = words.get_str("case").unwrap_or("");
    let Ok(at) = stamp(rt) else {
        return NO_MEMORY;
    };
    match opened(rt, case, wait_in(words), &at) {
        Ok(book) => {
            let status = say_checked(rt, case, &book);
            drop(book);
            status
        }
        Err(status) => status,
    }
}

/// Says whether the trail tells just the entries.
fn say_checked<'a, R: Files<File = File> + AllocGlobal + Print + Eprint>(
    rt: &R,
    case: &str,
    book: &FileCase<'a, R>,
) -> u8 {
    match book.verify() {
        Ok(()) => say_whole(rt, case, book),
        Err(VerifyRefusal::NoMemory) => NO_MEMORY,
        Err(refusal) => match format!(in rt.alloc(); "{refusal}\n") {
            Ok(text) => match write_out(rt, text.as_bytes()) {
                0 => REFUSED,
                fault => fault,
            },
            Err(AllocError) => NO_MEMORY,
        },
    }
}

/// Says the last seal, and what the files have that means nothing.
fn say_whole<'a, R: Files<File = File> + AllocGlobal + Print + Eprint>(
    rt: &R,
    case: &str,
    book: &FileCase<'a, R>,
) -> u8 {
    let Ok(line) = whole_line(rt, book) else {
        return NO_MEMORY;
    };
    let fault = write_out(rt, line.as_bytes());
    if fault != 0 {
        return fault;
    }
    let entries = book.core().history().len().saturating_mul(RECORD);
    let fault = say_behind(rt, case, ENTRIES, entries, END_OF_ENTRIES);
    if fault != 0 {
        return fault;
    }
    let lines = usize::try_from(book.trail_bytes()).unwrap_or(usize::MAX);
    say_behind(rt, case, TRAIL, lines, END_OF_TRAIL)
}

fn whole_line<'a, R: Files<File = File> + AllocGlobal>(
    rt: &R,
    book: &FileCase<'a, R>,
) -> Result<String, AllocError> {
    let seal = book.seal(rt.alloc())?;
    format!(in rt.alloc(); "whole: the last seal is {seal}\n")
}

/// Says how many bytes a file of the case has that mean nothing, if it has such.
fn say_behind<R: Files<File = File> + AllocGlobal + Print + Eprint>(
    rt: &R,
    case: &str,
    name: &str,
    meant: usize,
    end: u8,
) -> u8 {
    let Ok(path) = format!(in rt.alloc(); "{case}/{name}") else {
        return NO_MEMORY;
    };
    let file = match File::open(rt, &path) {
        Ok(file) => file,
        Err(error) => return say_unread(rt, &path, error),
    };
    match bytes_behind(rt.alloc(), file, meant, end) {
        Ok(0) => 0,
        Ok(count) => say_count(rt, &path, count),
        Err(error) => say_unread(rt, &path, error),
    }
}

fn say_count(rt: &(impl AllocGlobal + Print + Eprint), path: &str, count: usize) -> u8 {
    match format!(in rt.alloc(); "{path}: bytes at its end that mean nothing: {count}\n") {
        Ok(text) => write_out(rt, text.as_bytes()),
        Err(AllocError) => NO_MEMORY,
    }
}
