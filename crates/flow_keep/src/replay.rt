ghost use Rattle.std.specs.Prelude.{◌≡◌, ◌↔◌, ◌-◌, ◌^◌, ◌<◌, ◌≤◌, ℕ, [], IfOk, IfErr, OnOk};
ghost use Rattle.flow_plan.specs.Compilation.{IsCompiled};
ghost use Rattle.flow_model.specs.declared.limits.TheConstants.{MOST_ENTRIES};
ghost use Rattle.flow_model.specs.Lists.{Each};
ghost use Rattle.flow_record.specs.History.{IsSmall};
ghost use Rattle.flow_workflow.specs.Definition.{schema_of};
ghost use Rattle.flow_core.specs.Run.{schema};
ghost use Rattle.flow_disk.specs.Disk.{Rests};
ghost use Rattle.flow_keep.specs.Records.{records, Keeps};
ghost use Rattle.flow_keep.specs.Opened.{IsForeign, HasNoForeign, OnForeign, CountsRefusal};
ghost use Rattle.flow_keep.specs.declared.refusal.KeepRefusal.TheVariants.{DiskFault, Foreign, NoMemory};

use crate::refusal::KeepRefusal;
use crate::slot::{Slot, read_slot};
use flow_core::Core;
use flow_disk::Disk;
use flow_plan::Compiled;
use flow_workflow::Workflow;
use std::alloc::Global;

/// Makes a run that has no entry again from the records of a file, one after another.
pub(crate) fn replay<D: Disk>(disk: &mut D, core: &mut Core) -> Result<(), KeepRefusal>
    requires faults { D.faults disk.old < 2 ^ 64 - 1 }
    requires first { core.old.history ≡ [] }
    ensures cause { CountsRefusal (D.faults disk.old) (D.faults disk.new) result }
    ensures same_file { D.chosen disk.new ≡ D.chosen disk.old }
    ensures rests { D.tells → Rests (D.moment disk.old) (D.moment disk.new) (D.seen disk.old) (D.seen disk.new)
        (D.image disk.old) (D.image disk.new) (D.synced disk.old) (D.synced disk.new) }
    ensures definition { OnOk result (core.new.definition ≡ core.old.definition) }
    ensures limit { OnOk result (core.new.limit ≡ core.old.limit) }
    ensures small { OnOk result (Each IsSmall core.new.history) }
    ensures history { D.tells → OnOk result (Keeps core.new.history (D.seen disk.old)) }
    ensures all { D.tells → OnOk result (HasNoForeign (schema core.old) core.old.limit (records (D.seen disk.old))) }
    ensures foreign { D.tells → OnForeign (IsForeign (schema core.old) core.old.limit (records (D.seen disk.old))) result }
{
    let limit = u64::from(core.limit());
    for index in 0..limit + 1 {
        // the history so far is legal
        let _ = core.history();
        let Ok(slot) = read_slot(disk, index) else {
            return Err(KeepRefusal::DiskFault);
        };
        let entry = match slot {
            Slot::Shut => return Ok(()),
            Slot::Unreadable => return Err(KeepRefusal::Foreign {
                index: index as u32,
            }),
            Slot::Holds(entry) => entry,
        };
        if !core.make(entry) {
            return Err(KeepRefusal::Foreign {
                index: index as u32,
            });
        }
    }
    // a history is no longer than its limit
    let _ = core.history();
    unreachable!()
}

/// The run that a file keeps, for a picture, an audit or a copy. Nothing is written, and nothing synced: what was read may still be
/// lost in a crash, where another call wrote it and did not sync.
pub fn read_kept<D: Disk>(
    alloc: Global,
    workflow: Workflow,
    compiled: Compiled,
    limit: u32,
    disk: &mut D,
) -> Result<Core, KeepRefusal>
    requires compiled { IsCompiled (schema_of workflow) compiled }
    requires some { 1 ≤ limit }
    requires few { limit ≤ MOST_ENTRIES }
    requires faults { D.faults disk.old < 2 ^ 64 - 1 }
    ensures same_file { D.chosen disk.new ≡ D.chosen disk.old }
    ensures rests { D.tells → Rests (D.moment disk.old) (D.moment disk.new) (D.seen disk.old) (D.seen disk.new)
        (D.image disk.old) (D.image disk.new) (D.synced disk.old) (D.synced disk.new) }
    // the run is what the file keeps
    ensures definition { IfOk result (λ core. core.definition ≡ workflow) }
    ensures limit { IfOk result (λ core. core.limit ≡ limit) }
    ensures small { IfOk result (λ core. Each IsSmall core.history) }
    ensures no_fault { IfOk result (λ core. D.faults disk.new ≡ D.faults disk.old) }
    ensures history { D.tells → IfOk result (λ core. Keeps core.history (D.seen disk.old)) }
    ensures all { D.tells → IfOk result (λ core. HasNoForeign (schema_of workflow) limit (records (D.seen disk.old))) }
    // it is refused
    ensures fault { IfErr result (λ why. (why ≡ DiskFault) ↔ (D.faults disk.old < D.faults disk.new)) }
    ensures foreign { D.tells → IfErr result (λ why. (index : ℕ) → why ≡ Foreign index →
        IsForeign (schema_of workflow) limit (records (D.seen disk.old)) index) }
    ensures no_memory { IfErr result (λ why. why ≡ NoMemory → disk.new ≡ disk.old) }
{
    let Ok(mut core) = Core::start(alloc, workflow, compiled, limit) else {
        return Err(KeepRefusal::NoMemory);
    };
    match replay(disk, &mut core) {
        Ok(()) => Ok(core),
        Err(why) => {
            drop(core);
            Err(why)
        }
    }
}
