//! The run of a case, from the bytes of its entries.
ghost use Rattle.std.specs.Prelude.{◌≡◌, IfOk};
ghost use Rattle.flow_form.specs.Script.{said};
ghost use Rattle.flow_form.specs.Names.{IsClosed};
ghost use Rattle.flow_expand.specs.Workflows.{IsExpanded};
ghost use Rattle.flow_case.specs.declared.case_run.CaseRun.{CaseRun as Case};
ghost use Rattle.flow_case.specs.CaseRun.{case_with};
ghost use Rattle.flow_keep.specs.Records.{Keeps};
ghost use Rattle.flow_case_begin.specs.declared.texts.TheConstants.{MOST_STEPS};
ghost use Rattle.flow_case_begin.specs.Begun.{IsBegun};
ghost use Rattle.flow_case_seen.specs.Kept.{IsKeptCase};

use crate::texts::SharedTexts;
use flow_case::CaseRun;
use flow_case_begin::{CaseStop, MOST_STEPS, case_begun};
use flow_core::Core;
use flow_disk::{Disk, MemDisk};
use flow_form::Script;
use flow_front::{Prepared, prepare};
use flow_keep::read_kept;
use flow_model::Entry;
use std::alloc::Global;

/// The most reads of a file in memory: one for each entry.
const MOST_READS: u32 = 65_536;

/// A file in memory, which is only read.
fn in_memory(alloc: Global, bytes: Vec<u8>) -> Result<MemDisk, CaseStop>
    ensures seen { IfOk result (λ disk. ⟦<MemDisk as Disk>⟧.seen disk ≡ bytes.items) }
    ensures faults { IfOk result (λ disk. ⟦<MemDisk as Disk>⟧.faults disk ≡ 0) }
{
    let room = bytes.len();
    match MemDisk::new(alloc, bytes, room, MOST_READS) {
        Ok(disk) => Ok(disk),
        Err(error) => Err(CaseStop::from(error)),
    }
}

/// The run that the file keeps, of the script's workflow, whatever a policy says.
fn run_on(alloc: Global, script: &Script, disk: &mut MemDisk) -> Result<Core, CaseStop>
    requires closed { IsClosed (said script.now) }
    requires faults { ⟦<MemDisk as Disk>⟧.faults disk.old ≡ 0 }
    ensures workflow { IfOk result (λ core. IsExpanded (said script.now) core.definition) }
    ensures limit { IfOk result (λ core. core.limit ≡ MOST_STEPS) }
    ensures history { IfOk result (λ core. Keeps core.history (⟦<MemDisk as Disk>⟧.seen disk.old)) }
{
    let Prepared { workflow, compiled } = prepare(alloc, script)?;
    match read_kept(alloc, workflow, compiled, MOST_STEPS, disk) {
        Ok(core) => Ok(core),
        Err(why) => Err(CaseStop::from(why)),
    }
}

/// The run that the bytes keep, of the script's workflow, whatever a policy says.
fn kept_run(alloc: Global, script: &Script, entries: Vec<u8>) -> Result<Core, CaseStop>
    requires { IsClosed (said script.now) }
    ensures workflow { IfOk result (λ core. IsExpanded (said script.now) core.definition) }
    ensures limit { IfOk result (λ core. core.limit ≡ MOST_STEPS) }
    ensures history { IfOk result (λ core. Keeps core.history entries.items) }
{
    let mut disk = in_memory(alloc, entries)?;
    let run = run_on(alloc, script, &mut disk);
    drop(disk);
    run
}

/// The case under the policy that makes these entries from its beginning.
fn follow(
    alloc: Global,
    script: &Script,
    policy: &[u8],
    entries: &[Entry],
) -> Result<CaseRun, CaseStop>
    requires { IsClosed (said script.now) }
    ensures { IfOk result (λ c. (begun : Case) × IsBegun (said script.now) (Some policy.now) begun × (c ≡ case_with begun entries.now)) }
{
    let (run, users) = case_begun(alloc, script, Some(policy))?;
    drop(users);
    let mut run = run;
    match run.follow(entries) {
        Ok(()) => Ok(run),
        Err(index) => {
            drop(run);
            Err(CaseStop::Foreign(index))
        }
    }
}

/// The case under the policy with the history of the run.
fn governed(alloc: Global, script: &Script, policy: &[u8], core: Core) -> Result<CaseRun, CaseStop>
    requires { IsClosed (said script.now) }
    ensures { IfOk result (λ c. (begun : Case) × IsBegun (said script.now) (Some policy.now) begun × (c ≡ case_with begun core.history)) }
{
    let run = follow(alloc, script, policy, core.history());
    drop(core);
    run
}

/// The case of the texts whose entries the bytes keep. An entry that is of no run of the workflow, or that duties or rules forbid, is
/// told by its place.
pub(crate) fn kept_case(
    alloc: Global,
    texts: &SharedTexts,
    entries: Vec<u8>,
) -> Result<CaseRun, CaseStop>
    ensures { IfOk result (IsKeptCase texts.now.workflow texts.now.policy entries.items) }
{
    let script = texts.script();
    let core = kept_run(alloc, script, entries)?;
    match texts.policy() {
        Some(policy) => governed(alloc, script, policy, core),
        None => Ok(CaseRun::Free(core)),
    }
}
