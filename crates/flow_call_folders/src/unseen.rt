//! Why a case is not looked at, in words.

use flow_case_begin::CaseStop;
use flow_case_files::FolderFault;
use std::alloc::{AllocError, Global};

/// Why a case is not looked at.
#[derive(Drop)]
pub(crate) enum Unseen {
    /// Its files are no case's: why, in words.
    Damaged(String),
    NoMemory,
}

impl From<AllocError> for Unseen {
    fn from(_error: AllocError) -> Unseen {
        Unseen::NoMemory
    }
}

/// The words, if there was memory for them.
fn damaged(words: Result<String, AllocError>) -> Unseen {
    match words {
        Ok(words) => Unseen::Damaged(words),
        Err(AllocError) => Unseen::NoMemory,
    }
}

/// Why a folder is not read.
pub(crate) fn why_unread(alloc: Global, fault: &FolderFault) -> Unseen {
    match fault {
        FolderFault::NoCase(name) => {
            damaged(format!(in alloc; "it is no case: there is no file {name} in it"))
        }
        FolderFault::System(error) => damaged(format!(in alloc; "{error}")),
        FolderFault::NoMemory => Unseen::NoMemory,
        FolderFault::Exists | FolderFault::InUse => {
            damaged(format!(in alloc; "it cannot be read"))
        }
    }
}

/// Why files are no case's.
pub(crate) fn why_stopped(alloc: Global, stop: &CaseStop) -> Unseen {
    match stop {
        CaseStop::Workflow(_) => damaged(format!(in alloc; "the workflow is refused")),
        CaseStop::Policy(refusal) => {
            damaged(format!(in alloc; "the policy is refused: {refusal}"))
        }
        CaseStop::LongPolicy => {
            damaged(format!(in alloc; "the policy has more than 1048576 bytes"))
        }
        CaseStop::Foreign(index) => damaged(format!(in alloc;
            "entry {index} of run.keep, from 0, is not legal in this workflow"
        )),
        CaseStop::Trail(refusal) => damaged(format!(in alloc; "{refusal}")),
        CaseStop::Disk => {
            damaged(format!(in alloc; "run.keep has more entries than a case may have"))
        }
        CaseStop::NoMemory => Unseen::NoMemory,
    }
}
