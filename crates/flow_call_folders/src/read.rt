//! Cases are read: of each its texts, its entries and its trail.

use crate::library::Library;
use crate::unseen::{Unseen, why_unread};
use flow_case_files::{ENTRIES, FolderFault, TRAIL, read_case};
use flow_case_seen::SharedTexts;
use std::alloc::{AllocError, Global};
use std::fs::{self, File};
use std::rt::Files;

/// The files of a case.
#[derive(Drop)]
pub(crate) struct CaseFiles {
    /// The place of its texts in the library.
    texts: usize,
    pub(crate) entries: Vec<u8>,
    pub(crate) trail: Vec<u8>,
}

/// A case as it was when it was read.
#[derive(Drop)]
pub(crate) struct ReadCase {
    pub(crate) path: String,
    /// Its files, or why it is damaged, in words.
    files: Result<CaseFiles, String>,
}

impl ReadCase {
    /// The texts and the files of the case, or why it is damaged.
    pub(crate) fn seen<'a>(
        &'a self,
        alloc: Global,
        library: &'a Library,
    ) -> Result<(&'a SharedTexts, &'a CaseFiles), Unseen> {
        match &self.files {
            Ok(files) => match library.get(files.texts) {
                Some(texts) => Ok((texts, files)),
                None => Err(Unseen::Damaged(format!(in alloc; "its texts are not read")?)),
            },
            Err(why) => Err(Unseen::Damaged(format!(in alloc; "{why}")?)),
        }
    }
}

/// A file of a case, as it is now.
fn read_file<R: Files<File = File> + AllocGlobal>(
    rt: &R,
    case: &str,
    name: &str,
) -> Result<Vec<u8>, Unseen> {
    let alloc = rt.alloc();
    let path = format!(in alloc; "{case}/{name}")?;
    match fs::read(rt, path.as_str()) {
        Ok(bytes) => Ok(bytes),
        Err(error) => Err(why_unread(alloc, &FolderFault::System(error))),
    }
}

/// Reads a case. Its entries are read before its trail, so that no entry is read whose line is not.
fn read_files<R: Files<File = File> + AllocGlobal>(
    rt: &R,
    library: &mut Library,
    case: &str,
) -> Result<CaseFiles, Unseen> {
    let texts = match read_case(rt, case) {
        Ok(texts) => library.place(rt.alloc(), texts)?,
        Err(fault) => return Err(why_unread(rt.alloc(), &fault)),
    };
    let entries = read_file(rt, case, ENTRIES)?;
    let trail = read_file(rt, case, TRAIL)?;
    Ok(CaseFiles {
        texts,
        entries,
        trail,
    })
}

/// Reads a case. One that is damaged is told as such.
fn read_one<R: Files<File = File> + AllocGlobal>(
    rt: &R,
    library: &mut Library,
    case: &str,
) -> Result<ReadCase, AllocError> {
    let path = String::from_str(rt.alloc(), case)?;
    match read_files(rt, library, case) {
        Ok(files) => Ok(ReadCase {
            path,
            files: Ok(files),
        }),
        Err(Unseen::Damaged(why)) => Ok(ReadCase {
            path,
            files: Err(why),
        }),
        Err(Unseen::NoMemory) => Err(AllocError),
    }
}

/// Reads the cases of these paths, in order. What was read before is not to be looked at any more: its texts may be forgotten.
pub(crate) fn read_cases<R: Files<File = File> + AllocGlobal>(
    rt: &R,
    library: &mut Library,
    paths: &[String],
) -> Result<Vec<ReadCase>, AllocError> {
    library.make_room();
    let mut cases = Vec::with_capacity(rt.alloc(), paths.len())?;
    for path in paths {
        cases.push(read_one(rt, library, path.as_str())?)?;
    }
    Ok(cases)
}
