//! The file of a kept run, as a report of it.

use flow_call::{DISK, INPUT, NO_MEMORY};
use flow_disk::{Disk, DiskFailed, FileDisk};
use flow_front::Prepared;
use flow_keep::{KeepRefusal, read_kept};
use flow_log_cli::workflow_of;
use flow_model::{Entry, MOST_ENTRIES};
use flow_record::print_history;
use std::alloc::{AllocError, Global};
use std::fs::File;
use std::rt::Files;

/// Whether the bytes are those of a kept run: it begins with the gate of its first record, and no text begins so.
pub(crate) fn is_kept(bytes: &[u8]) -> bool {
    matches!(bytes.first(), Some(0 | 1))
}

/// The report of a run, as far as a picture needs it: its history.
fn report_of(alloc: Global, history: &[Entry]) -> Result<Vec<u8>, AllocError> {
    let count = history.len();
    let mut report = format!(in alloc; "history {count}\n")?.into_bytes();
    report.extend_from_slice(&print_history(alloc, history)?)?;
    Ok(report)
}

/// Says why a kept run is not read, and gives the status.
fn say_refused(rt: &impl Eprint, path: &str, refusal: KeepRefusal) -> u8 {
    match refusal {
        KeepRefusal::DiskFault => {
            let _ = eprintln!(rt; "{path}: could not be read");
            DISK
        }
        KeepRefusal::Foreign { index } => {
            let _ = eprintln!(rt;
                "{path}: refused: record {index} tells no entry that may be made in this workflow"
            );
            INPUT
        }
        KeepRefusal::NoMemory => NO_MEMORY,
    }
}

/// The report of the run of a workflow that a file keeps; else the status, when it is said why there is none. Of a workflow that is
/// refused it is empty: who draws that tells why.
pub(crate) fn kept_report<R: Files<File = File> + AllocGlobal + Eprint>(
    rt: &R,
    path: &str,
    text: &[u8],
) -> Result<Vec<u8>, u8> {
    let Ok(Prepared { workflow, compiled }) = workflow_of(rt.alloc(), text) else {
        return Ok(Vec::new(rt.alloc()));
    };
    let mut disk = FileDisk::new(rt);
    if let Err(DiskFailed) = disk.open(path) {
        drop(workflow);
        drop(compiled);
        let _ = eprintln!(rt; "{path}: could not be opened: another process may have it");
        return Err(DISK);
    }
    match read_kept(rt.alloc(), workflow, compiled, MOST_ENTRIES, &mut disk) {
        Ok(core) => report_of(rt.alloc(), core.history()).map_err(|_| NO_MEMORY),
        Err(refusal) => Err(say_refused(rt, path, refusal)),
    }
}
