//! The page of a folder of cases. Files are only read, and no lock is taken.

use crate::cases::cases_in;
use crate::library::Library;
use crate::listed::line_of;
use crate::office::BATCH;
use crate::read::{ReadCase, read_cases};
use crate::unseen::Unseen;
use clap::ArgMatches;
use flow_call::{NO_MEMORY, REFUSED, say_unread, stamp, write_out};
use flow_facts::Name;
use flow_folder_page::{DamagedCase, Folder, FolderCase, folder_case, folder_page};
use flow_page::print_page;
use std::alloc::{AllocError, Global};
use std::fs::File;
use std::rt::Files;
use std::time::Clock;

/// The name of a case in its folder.
fn name_in(case: &str) -> &str {
    match case.rsplit_once('/') {
        Some((_, name)) => name,
        None => case,
    }
}

/// What is shown of a case.
fn shown(alloc: Global, library: &Library, case: &ReadCase) -> Result<FolderCase, Unseen> {
    let (texts, files) = case.seen(alloc, library)?;
    let line = line_of(alloc, texts, files)?;
    Ok(folder_case(alloc, texts, name_in(case.path.as_str()), &line)?)
}

/// The cases that can be read, and those that are damaged.
#[derive(Drop)]
struct Sorted {
    cases: Vec<FolderCase>,
    damaged: Vec<DamagedCase>,
}

impl Sorted {
    /// Adds a case where it belongs.
    fn add(&mut self, alloc: Global, library: &Library, case: &ReadCase) -> Result<(), AllocError> {
        match shown(alloc, library, case) {
            Ok(case) => self.cases.push(case)?,
            Err(Unseen::Damaged(why)) => self.damaged.push(DamagedCase {
                case: Name::new(alloc, name_in(case.path.as_str()).as_bytes())?,
                why: Name::new(alloc, why.as_bytes())?,
            })?,
            Err(Unseen::NoMemory) => return Err(AllocError),
        }
        Ok(())
    }

    /// Reads these cases, and adds each.
    fn add_batch<R: Files<File = File> + AllocGlobal>(
        &mut self,
        rt: &R,
        library: &mut Library,
        paths: &[String],
    ) -> Result<(), AllocError> {
        let cases = read_cases(rt, library, paths)?;
        for case in &cases {
            self.add(rt.alloc(), library, case)?;
        }
        Ok(())
    }
}

/// Reads the cases. Their order stays.
fn sorted_of<R: Files<File = File> + AllocGlobal>(
    rt: &R,
    paths: &[String],
) -> Result<Sorted, AllocError> {
    let mut library = Library::new(rt.alloc());
    let mut sorted = Sorted {
        cases: Vec::new(rt.alloc()),
        damaged: Vec::new(rt.alloc()),
    };
    for batch in paths.chunks(BATCH) {
        sorted.add_batch(rt, &mut library, batch)?;
    }
    Ok(sorted)
}

/// The page of these cases of a folder, as HTML, and whether one of them is damaged.
fn page_of<R: Files<File = File> + AllocGlobal>(
    rt: &R,
    folder: &str,
    at: &str,
    paths: &[String],
) -> Result<(Vec<u8>, bool), AllocError> {
    let sorted = sorted_of(rt, paths)?;
    let shown = Folder {
        path: folder,
        at,
        cases: &sorted.cases,
        damaged: &sorted.damaged,
    };
    let page = folder_page(rt.alloc(), &shown)?;
    Ok((print_page(rt.alloc(), &page)?, !sorted.damaged.is_empty()))
}

/// Whether the folder is no case, but folders in it are.
pub fn is_office<R: Files<File = File> + AllocGlobal + Clone + Drop>(rt: &R, folder: &str) -> bool {
    match cases_in(rt, folder) {
        Ok(cases) => match cases.first() {
            Some(case) => case.as_str() != folder,
            None => false,
        },
        Err(_) => false,
    }
}

/// Writes the page of a folder of cases, and gives the status.
pub fn write_office<R: Files<File = File> + Clock + AllocGlobal + Print + Eprint + Clone + Drop>(
    rt: &R,
    words: &ArgMatches<'_>,
) -> u8 {
    let folder = words.get_str("case").unwrap_or("");
    let Ok(now) = stamp(rt) else {
        return NO_MEMORY;
    };
    let at = words.get_str("at").unwrap_or(now.as_str());
    let cases = match cases_in(rt, folder) {
        Ok(cases) => cases,
        Err(error) => return say_unread(rt, folder, error),
    };
    match page_of(rt, folder, at, &cases) {
        Ok((text, is_damaged)) => match write_out(rt, &text) {
            0 if is_damaged => REFUSED,
            status => status,
        },
        Err(AllocError) => NO_MEMORY,
    }
}
