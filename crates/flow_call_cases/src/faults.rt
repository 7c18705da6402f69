//! Why a case is not made, read or opened, in words.

use flow_call::{BUSY, DISK, INPUT, NO_MEMORY, REFUSED};
use flow_case::CasePolicyRefusal;
use flow_case_book::CaseStop;
use flow_case_files::FolderFault;
use flow_case_why::{policy_place, push_policy_fault};
use flow_desk::{Position, position_of};
use flow_front::{Status, Stop};
use std::alloc::AllocError;

/// Says why the folder of a case is not read or opened, and gives the status.
pub fn say_folder(rt: &impl Eprint, case: &str, fault: FolderFault) -> u8 {
    match fault {
        FolderFault::Exists => {
            let _ = eprintln!(rt; "{case}: there is something of that name, or of {case}.new");
            DISK
        }
        FolderFault::NoCase(name) => {
            let _ = eprintln!(rt; "{case}: it is no case: there is no file {name} in it");
            DISK
        }
        FolderFault::InUse => {
            let _ = eprintln!(rt; "{case} is in use");
            BUSY
        }
        FolderFault::System(error) => {
            let _ = eprintln!(rt; "{case}: {error}");
            DISK
        }
        FolderFault::NoMemory => NO_MEMORY,
    }
}

/// Says that the workflow is refused, and gives the status.
fn say_workflow(rt: &impl Eprint, case: &str, stop: &Stop) -> u8 {
    match stop {
        Stop::Refused(refused) => {
            let _ = eprintln!(rt;
                "{case}: the workflow is refused: `flowdesk explain FILE` tells why"
            );
            Status::of(refused).code()
        }
        Stop::NoMemory => NO_MEMORY,
    }
}

/// Says where and why the policy in a file is refused, and gives the status. So many lines of the file stand before the policy.
pub fn say_policy(
    rt: &(impl AllocGlobal + Eprint),
    file: &str,
    before: usize,
    policy: &[u8],
    refusal: &CasePolicyRefusal,
) -> u8 {
    let Some(place) = policy_place(refusal) else {
        return NO_MEMORY;
    };
    let Position { line, column } = position_of(policy, place);
    let line = line.saturating_add(before);
    let mut words = Vec::new(rt.alloc());
    match push_policy_fault(&mut words, policy, refusal) {
        Ok(()) => {
            let words = str::from_utf8(&words).unwrap_or("\n");
            let _ = eprint!(rt; "{file}:{line}:{column}: the policy is refused: {words}");
            INPUT
        }
        Err(AllocError) => NO_MEMORY,
    }
}

/// Says why a case is not opened or made, and gives the status.
pub fn say_stop(rt: &impl Eprint, case: &str, stop: CaseStop) -> u8 {
    match stop {
        CaseStop::Workflow(stop) => say_workflow(rt, case, &stop),
        CaseStop::Policy(refusal) => {
            let _ = eprintln!(rt; "{case}: the policy is refused: {refusal}");
            INPUT
        }
        CaseStop::LongPolicy => {
            let _ = eprintln!(rt; "{case}: the policy has more than 1048576 bytes");
            INPUT
        }
        CaseStop::Foreign(index) => {
            let _ = eprintln!(rt;
                "{case}: entry {index} of run.keep, from 0, is not legal in this workflow"
            );
            REFUSED
        }
        CaseStop::Trail(refusal) => {
            let _ = eprintln!(rt; "{case}: {refusal}");
            REFUSED
        }
        CaseStop::Disk => {
            let _ = eprintln!(rt; "{case}: a file could not be read or written");
            DISK
        }
        CaseStop::NoMemory => NO_MEMORY,
    }
}
