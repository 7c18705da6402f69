//! The page of a case.

use crate::asked::{FileCase, opened, wait_in};
use crate::faults::say_folder;
use clap::{ArgMatches, Command};
use flow_call::{NO_MEMORY, option, required, say_undrawn, stamp, write_out};
use flow_case_book::Asker;
use flow_case_files::read_case;
use flow_case_page::{CaseShown, case_page, leaf_notes};
use flow_case_talk::Form;
use flow_desk::{DeskStop, Format, Sheet, drawn};
use flow_facts::Name;
use flow_page::print_page;
use std::alloc::{AllocError, Global};
use std::fs::File;
use std::rt::Files;
use std::time::Clock;

/// The words that ask for the page of a case, or of a folder of cases.
pub fn page_command<'a>(alloc: Global) -> Result<Command<'a>, AllocError> {
    let case = required(
        alloc,
        "case",
        "CASE|FOLDER",
        "the folder of the case, or a folder whose folders are cases",
    );
    Command::new(alloc, "page")
        .about("Writes the page of a case as HTML, or that of a folder of cases")
        .arg(case)?
        .arg(option(alloc, "at", "TIME", "when; without it the system's time"))?
        .arg(option(
            alloc,
            "wait",
            "SECONDS",
            "how long to wait for another command on the case; 5 without it",
        ))
}

/// Writes the page of a case, and gives the status.
pub fn write_page<R: Files<File = File> + Clock + AllocGlobal + Print + Eprint>(
    rt: &R,
    words: &ArgMatches<'_>,
) -> u8 {
    let case = words.get_str("case").unwrap_or("");
    let Ok(now) = stamp(rt) else {
        return NO_MEMORY;
    };
    let at = words.get_str("at").unwrap_or(now.as_str());
    let text = match read_case(rt, case) {
        Ok(texts) => texts.workflow,
        Err(fault) => return say_folder(rt, case, fault),
    };
    match opened(rt, case, wait_in(words), at) {
        Ok(mut book) => {
            let status = show(rt, &mut book, case, &text, at);
            drop(book);
            status
        }
        Err(status) => status,
    }
}

/// Writes the page of a case that is open.
fn show<'a, R: Files<File = File> + AllocGlobal + Print + Eprint>(
    rt: &R,
    book: &mut FileCase<'a, R>,
    case: &str,
    text: &[u8],
    at: &str,
) -> u8 {
    let asker = Asker {
        name: "",
        at,
        note: "",
    };
    let Ok(report) = book.reply(asker, b"report", Form::Words) else {
        return NO_MEMORY;
    };
    let picture = match pictured(rt.alloc(), book, text, &report.text) {
        Ok(picture) => picture,
        Err(stop) => return say_undrawn(rt, case, text, case, &stop),
    };
    match printed(rt.alloc(), book, text, picture, at) {
        Ok(page) => write_out(rt, &page),
        Err(AllocError) => NO_MEMORY,
    }
}

/// The picture of a case, with who did or has each task, and when.
fn pictured<'a, R: Files<File = File>>(
    alloc: Global,
    book: &FileCase<'a, R>,
    text: &[u8],
    report: &[u8],
) -> Result<Vec<u8>, DeskStop> {
    let notes = leaf_notes(alloc, book)?;
    let sheet = Sheet {
        form: Format::Svg,
        title: Name::new(alloc, b"")?,
        fold: None,
    };
    drawn(alloc, text, Some(report), &notes, &sheet)
}

/// The page of a case, as HTML.
fn printed<'a, R: Files<File = File>>(
    alloc: Global,
    book: &mut FileCase<'a, R>,
    workflow: &[u8],
    picture: Vec<u8>,
    at: &str,
) -> Result<Vec<u8>, AllocError> {
    let seal = book.seal(alloc)?;
    let shown = CaseShown {
        workflow,
        picture,
        seal: seal.as_str(),
        at,
    };
    let page = case_page(alloc, book, shown)?;
    print_page(alloc, &page)
}
