//! The cases of a folder.

use std::alloc::{AllocError, Global};
use std::fs::{self, File};
use std::io;
use std::rt::Files;

/// Whether the folder is to be a case: it has the text of a workflow.
fn has_workflow<R: Files<File = File>>(rt: &R, alloc: Global, folder: &str) -> bool {
    match format!(in alloc; "{folder}/workflow.flow") {
        Ok(path) => fs::metadata(rt, path.as_str()).is_ok(),
        Err(AllocError) => false,
    }
}

/// Whether the folder is one in which a case is being made, or moved beside the case as it was.
fn is_unfinished<R: Files<File = File>>(rt: &R, alloc: Global, folder: &str) -> bool {
    match folder.strip_suffix(".moving") {
        Some(case) => has_workflow(rt, alloc, case),
        None => folder.ends_with(".new"),
    }
}

/// The cases of a folder by their names, rising; or the folder alone, where it is a case. A case that is being made is left out, and so is
/// one that is being moved, while the case as it was is there.
pub(crate) fn cases_in<R: Files<File = File> + AllocGlobal + Clone + Drop>(
    rt: &R,
    folder: &str,
) -> io::Result<Vec<String>> {
    let alloc = rt.alloc();
    let mut cases = Vec::new(alloc);
    if has_workflow(rt, alloc, folder) {
        cases.push(String::from_str(alloc, folder)?)?;
        return Ok(cases);
    }
    for entry in fs::read_dir(rt, folder)? {
        let entry = entry?;
        let path = entry.path();
        let name = path.as_str();
        if has_workflow(rt, alloc, name) && !is_unfinished(rt, alloc, name) {
            cases.push(String::from_str(alloc, name)?)?;
        }
    }
    cases.sort()?;
    Ok(cases)
}
