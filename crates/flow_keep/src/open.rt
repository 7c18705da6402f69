ghost use Rattle.std.specs.Prelude.{◌≡◌, ◌↔◌, ◌-◌, ◌^◌, ◌<◌, ◌≤◌, List, ℕ, [], false, IfOk, IfErr, OnOk};
ghost use Rattle.flow_plan.specs.Compilation.{IsCompiled};
ghost use Rattle.flow_model.specs.declared.limits.TheConstants.{MOST_ENTRIES};
ghost use Rattle.flow_model.specs.Lists.{Each};
ghost use Rattle.flow_record.specs.History.{IsSmall};
ghost use Rattle.flow_workflow.specs.Definition.{schema_of};
ghost use Rattle.flow_core.specs.Run.{schema};
ghost use Rattle.flow_keep.specs.Records.{records, Keeps};
ghost use Rattle.flow_keep.specs.Kept.{IsKept};
ghost use Rattle.flow_keep.specs.Opened.{SomeSince, KeepsRecords, KeepsSyncs, IsForeign, HasNoForeign, OnForeign, CountsRefusal};
ghost use Rattle.flow_keep.specs.declared.refusal.KeepRefusal.TheVariants.{DiskFault, Foreign, NoMemory};

use crate::close::close_end;
use crate::keep::Keep;
use crate::refusal::KeepRefusal;
use crate::replay::replay;
use flow_core::Core;
use flow_disk::Disk;
use flow_plan::Compiled;
use flow_workflow::Workflow;
use std::alloc::Global;

/// The disk of a keep that was not opened, and why it was not.
#[derive(Drop)]
pub struct Unopened<D: Disk> {
    pub disk: D,
    pub why: KeepRefusal,
}

/// Makes a run that has no entry again from a file's records, and then the file fit for the next.
#[tactic(auto, using(crate::proofs::OpenLemmas::syncs_then, crate::proofs::OpenLemmas::syncs_none, crate::proofs::OpenLemmas::syncs_now))]
fn restore<D: Disk>(disk: &mut D, core: &mut Core) -> Result<(), KeepRefusal>
    requires faults { D.faults disk.old < 2 ^ 64 - 1 }
    requires first { core.old.history ≡ [] }
    ensures cause { CountsRefusal (D.faults disk.old) (D.faults disk.new) result }
    ensures same_file { D.chosen disk.new ≡ D.chosen disk.old }
    ensures definition { OnOk result (core.new.definition ≡ core.old.definition) }
    ensures limit { OnOk result (core.new.limit ≡ core.old.limit) }
    ensures small { OnOk result (Each IsSmall core.new.history) }
    ensures kept { D.tells → OnOk result (IsKept core.new.history (D.seen disk.new) (D.image disk.new (D.moment disk.new))) }
    ensures history { D.tells → OnOk result (Keeps core.new.history (D.seen disk.old)) }
    ensures all { D.tells → OnOk result (HasNoForeign (schema core.old) core.old.limit (records (D.seen disk.old))) }
    ensures foreign { D.tells → OnForeign (IsForeign (schema core.old) core.old.limit (records (D.seen disk.old))) result }
    ensures left_alone { D.tells → OnForeign (λ index. D.seen disk.new ≡ D.seen disk.old) result }
    // a sync came first, where the disk did not fail
    ensures synced { D.tells → OnOk result (SomeSince (D.synced disk.new) (D.moment disk.old) (D.moment disk.new)) }
    ensures synced_foreign { D.tells → OnForeign (λ index. SomeSince (D.synced disk.new) (D.moment disk.old) (D.moment disk.new)) result }
    ensures opened { D.tells → KeepsRecords D.moment D.image D.synced D.seen disk.old disk.new }
    ensures syncs { D.tells → KeepsSyncs (D.moment disk.old) (D.synced disk.old) (D.synced disk.new) }
{
    let Ok(()) = disk.sync() else {
        return Err(KeepRefusal::DiskFault);
    };
    replay(disk, core)?;
    // it is no longer than its limit
    let limit = core.limit();
    let count = core.history().len() as u64;
    let Ok(()) = close_end(disk, count) else {
        return Err(KeepRefusal::DiskFault);
    };
    Ok(())
}

impl<D: Disk> Keep<D> {
    ghost use Rattle.flow_keep.specs.Holding.{run_of, disk_of, is_broken};

    /// Goes on with the run that a file keeps, or begins one in an empty file. A byte behind the records is written only where the
    /// last one has no shut gate behind it, as after a crash.
    pub fn open(
        alloc: Global,
        workflow: Workflow,
        compiled: Compiled,
        limit: u32,
        disk: D,
    ) -> Result<Keep<D>, Unopened<D>>
        requires compiled { IsCompiled (schema_of workflow) compiled }
        requires some { 1 ≤ limit }
        requires few { limit ≤ MOST_ENTRIES }
        requires faults { D.faults disk < 2 ^ 64 - 1 }
        // the keep goes on with what the file keeps
        ensures definition { IfOk result (λ k. (run_of k).definition ≡ workflow) }
        ensures limit { IfOk result (λ k. (run_of k).limit ≡ limit) }
        ensures small { IfOk result (λ k. Each IsSmall (run_of k).history) }
        ensures whole { IfOk result (λ k. is_broken k ≡ false) }
        ensures no_fault { IfOk result (λ k. D.faults (disk_of k) ≡ D.faults disk) }
        ensures same_file { IfOk result (λ k. D.chosen (disk_of k) ≡ D.chosen disk) }
        ensures history { D.tells → IfOk result (λ k. Keeps (run_of k).history (D.seen disk)) }
        ensures all { D.tells → IfOk result (λ k. HasNoForeign (schema_of workflow) limit (records (D.seen disk))) }
        ensures seen { D.tells → IfOk result (λ k. Keeps (run_of k).history (D.seen (disk_of k))) }
        ensures durable { D.tells → IfOk result (λ k. (c : List ℕ) →
            D.image (disk_of k) (D.moment (disk_of k)) c → Keeps (run_of k).history c) }
        ensures opened { D.tells → IfOk result (λ k. KeepsRecords D.moment D.image D.synced D.seen disk (disk_of k)) }
        ensures opened_syncs { D.tells → IfOk result (λ k. KeepsSyncs (D.moment disk) (D.synced disk) (D.synced (disk_of k))) }
        ensures synced { D.tells → IfOk result (λ k. SomeSince (D.synced (disk_of k)) (D.moment disk) (D.moment (disk_of k))) }
        // it is refused
        ensures refused_file { IfErr result (λ u. D.chosen u.disk ≡ D.chosen disk) }
        ensures refused { D.tells → IfErr result (λ u. KeepsRecords D.moment D.image D.synced D.seen disk u.disk) }
        ensures refused_syncs { D.tells → IfErr result (λ u. KeepsSyncs (D.moment disk) (D.synced disk) (D.synced u.disk)) }
        ensures fault { IfErr result (λ u. (u.why ≡ DiskFault) ↔ (D.faults disk < D.faults u.disk)) }
        ensures foreign { D.tells → IfErr result (λ u. (index : ℕ) → u.why ≡ Foreign index →
            IsForeign (schema_of workflow) limit (records (D.seen disk)) index) }
        ensures no_memory { IfErr result (λ u. u.why ≡ NoMemory → u.disk ≡ disk) }
        ensures refused_synced { D.tells → IfErr result (λ u. (index : ℕ) → u.why ≡ Foreign index →
            SomeSince (D.synced u.disk) (D.moment disk) (D.moment u.disk)) }
        ensures left_alone { D.tells → IfErr result (λ u. (index : ℕ) → u.why ≡ Foreign index → D.seen u.disk ≡ D.seen disk) }
    {
        let mut disk = disk;
        let Ok(mut core) = Core::start(alloc, workflow, compiled, limit) else {
            return Err(Unopened {
                disk,
                why: KeepRefusal::NoMemory,
            });
        };
        match restore(&mut disk, &mut core) {
            Ok(()) => Ok(Keep {
                run: core,
                disk,
                broken: false,
            }),
            Err(why) => {
                drop(core);
                Err(Unopened { disk, why })
            }
        }
    }
}
