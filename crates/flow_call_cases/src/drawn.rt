//! A case is drawn.

use crate::asked::{FileCase, WAIT, opened};
use crate::faults::say_folder;
use clap::ArgMatches;
use flow_call::{NO_MEMORY, say_undrawn, sheet_in, stamp, write_out};
use flow_case_book::Asker;
use flow_case_files::read_case;
use flow_case_page::leaf_notes;
use flow_case_talk::Form;
use flow_desk::drawn;
use flow_facts::Name;
use std::alloc::{AllocError, Global};
use std::fs::File;
use std::rt::Files;
use std::time::{Clock, Duration};

/// What a picture shows of a case: the report of its run, as flowkeep prints it, and the notes of its boxes.
#[derive(Drop)]
struct Shown {
    report: Vec<u8>,
    notes: Vec<Name>,
}

/// Draws the workflow of the case with marks where its run stands, and gives the status.
pub fn draw_case<R: Files<File = File> + Clock + AllocGlobal + Print + Eprint>(
    rt: &R,
    case: &str,
    words: &ArgMatches<'_>,
) -> u8 {
    let sheet = match sheet_in(rt, words) {
        Ok(sheet) => sheet,
        Err(status) => return status,
    };
    let text = match read_case(rt, case) {
        Ok(texts) => texts.workflow,
        Err(fault) => return say_folder(rt, case, fault),
    };
    let Shown { report, notes } = match shown_of(rt, case, words.get_flag("who")) {
        Ok(shown) => shown,
        Err(status) => return status,
    };
    match drawn(rt.alloc(), &text, Some(&report), &notes, &sheet) {
        Ok(picture) => write_out(rt, &picture),
        Err(stop) => say_undrawn(rt, case, &text, case, &stop),
    }
}

/// The report of the run of the case, as flowkeep prints it; else the status, when it is said why there is none.
pub fn case_report<R: Files<File = File> + Clock + AllocGlobal + Eprint>(
    rt: &R,
    case: &str,
) -> Result<Vec<u8>, u8> {
    let Shown { report, notes } = shown_of(rt, case, false)?;
    drop(notes);
    Ok(report)
}

/// What is shown of a case, with who and when where that is asked for.
fn shown_of<R: Files<File = File> + Clock + AllocGlobal + Eprint>(
    rt: &R,
    case: &str,
    with_who: bool,
) -> Result<Shown, u8> {
    let Ok(at) = stamp(rt) else {
        return Err(NO_MEMORY);
    };
    let mut book = opened(rt, case, Duration::from_secs(WAIT), &at)?;
    let shown = shown_in(rt.alloc(), &mut book, at.as_str(), with_who);
    drop(book);
    match shown {
        Ok(shown) => Ok(shown),
        Err(AllocError) => Err(NO_MEMORY),
    }
}

fn shown_in<'a, R: Files<File = File>>(
    alloc: Global,
    book: &mut FileCase<'a, R>,
    at: &str,
    with_who: bool,
) -> Result<Shown, AllocError> {
    let asker = Asker {
        name: "",
        at,
        note: "",
    };
    let reply = book.reply(asker, b"report", Form::Words)?;
    let notes = if with_who {
        leaf_notes(alloc, book)?
    } else {
        Vec::new(alloc)
    };
    Ok(Shown {
        report: reply.text,
        notes,
    })
}
