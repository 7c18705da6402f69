//! Cases are read in one thread, a batch at a time, and looked at by several. What comes of them is written in their order.

use crate::exported::Log;
use crate::library::Library;
use crate::listed::Lines;
use crate::read::{ReadCase, read_cases};
use crate::unseen::Unseen;
use flow_call::{NO_MEMORY, REFUSED, write_out};
use flow_case_seen::{Cases, all_lines};
use std::alloc::{AllocError, Global};
use std::fs::File;
use std::rt::Files;
use std::sync::atomic::{AtomicBool, Ordering};
use std::thread::Threads;

/// How many cases are in memory at a time.
pub(crate) const BATCH: usize = 256;

/// What is asked of each case.
#[derive(Clone, Copy)]
pub(crate) enum Asked<'a> {
    Lines(Lines<'a>),
    Log(Log),
}

impl<'a> Asked<'a> {
    /// What is written of a case.
    fn text(self, alloc: Global, library: &Library, case: &ReadCase) -> Result<Vec<u8>, Unseen> {
        let (texts, files) = case.seen(alloc, library)?;
        match self {
            Asked::Lines(lines) => lines.text(alloc, case.path.as_str(), texts, files),
            Asked::Log(log) => log.text(alloc, case.path.as_str(), texts, files),
        }
    }

    /// What is written of a case that is damaged.
    fn damaged(self, alloc: Global, path: &str, why: &str) -> Result<Vec<u8>, AllocError> {
        match self {
            Asked::Lines(lines) => lines.damaged(alloc, path, why),
            Asked::Log(_) => Ok(Vec::new(alloc)),
        }
    }
}

/// Cases that were read, and what is asked of each.
#[derive(Drop)]
struct Office<'a> {
    asked: Asked<'a>,
    library: &'a Library,
    cases: &'a [ReadCase],
    /// Whether a case is damaged.
    is_damaged: &'a AtomicBool,
}

impl<'a> Cases for Office<'a> {
    // no contract says what a file holds
    ghost tells = { λ _ _ _. Unit {0} };

    fn line(&self, alloc: Global, place: usize) -> Result<Vec<u8>, AllocError> {
        let Some(case) = self.cases.get(place) else {
            return Ok(Vec::new(alloc));
        };
        match self.asked.text(alloc, self.library, case) {
            Ok(text) => Ok(text),
            Err(Unseen::Damaged(why)) => {
                self.is_damaged.store(true, Ordering::SeqCst);
                self.asked.damaged(alloc, case.path.as_str(), why.as_str())
            }
            Err(Unseen::NoMemory) => Err(AllocError),
        }
    }
}

/// What came of a batch of cases.
#[derive(Drop)]
struct Told {
    cases: Vec<ReadCase>,
    text: Vec<u8>,
    /// Whether a case is damaged.
    is_damaged: bool,
}

/// Reads the cases of a batch, and looks at them by several threads.
fn look<R: Files<File = File> + AllocGlobal + Threads + Sync>(
    rt: &R,
    library: &mut Library,
    paths: &[String],
    asked: Asked<'_>,
    jobs: u32,
) -> Result<Told, AllocError> {
    let cases = read_cases(rt, library, paths)?;
    let is_damaged = AtomicBool::new(false);
    let office = Office {
        asked,
        library,
        cases: &cases,
        is_damaged: &is_damaged,
    };
    let text = all_lines(rt, rt.alloc(), &office, cases.len(), jobs)?;
    let is_damaged = is_damaged.load(Ordering::SeqCst);
    Ok(Told {
        cases,
        text,
        is_damaged,
    })
}

/// Says which cases are damaged, where what is written does not.
fn say_damaged<R: AllocGlobal + Eprint>(
    rt: &R,
    library: &Library,
    cases: &[ReadCase],
    asked: Asked<'_>,
) {
    if let Asked::Log(_) = asked {
        for case in cases {
            if let Err(Unseen::Damaged(why)) = asked.text(rt.alloc(), library, case) {
                let _ = eprintln!(rt; "{}: {why}", case.path);
            }
        }
    }
}

/// Writes what comes of a batch of cases, and gives the status. A case that is damaged is read again once: a writer may have changed it
/// meanwhile.
fn write_batch<R: Files<File = File> + AllocGlobal + Print + Eprint + Threads + Sync>(
    rt: &R,
    library: &mut Library,
    paths: &[String],
    asked: Asked<'_>,
    jobs: u32,
) -> u8 {
    let told = match look(rt, library, paths, asked, jobs) {
        Ok(told) if told.is_damaged => look(rt, library, paths, asked, jobs),
        told => told,
    };
    let Ok(told) = told else {
        return NO_MEMORY;
    };
    match write_out(rt, &told.text) {
        0 if told.is_damaged => {
            say_damaged(rt, library, &told.cases, asked);
            REFUSED
        }
        status => status,
    }
}

/// Writes what comes of the cases, and gives the status. It goes on behind a case that is damaged.
pub(crate) fn write_cases<R: Files<File = File> + AllocGlobal + Print + Eprint + Threads + Sync>(
    rt: &R,
    paths: &[String],
    asked: Asked<'_>,
    jobs: u32,
) -> u8 {
    let mut library = Library::new(rt.alloc());
    let mut status = 0;
    for batch in paths.chunks(BATCH) {
        match write_batch(rt, &mut library, batch, asked, jobs) {
            0 => {}
            REFUSED => status = REFUSED,
            fault => return fault,
        }
    }
    status
}
