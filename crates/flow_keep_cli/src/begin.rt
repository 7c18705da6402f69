ghost use Rattle.std.specs.Prelude.{◌≡◌, ◌-◌, ◌^◌, ◌<◌, ◌≤◌, false, IfOk, IfErr};
ghost use Rattle.flow_plan.specs.Compilation.{IsCompiled};
ghost use Rattle.flow_keep_cli.specs.Words.{IsStepCount};
ghost use Rattle.flow_workflow.specs.Definition.{schema_of};
ghost use Rattle.flow_keep.specs.Holding.{run_of, disk_of, is_broken};
ghost use Rattle.flow_keep_cli.specs.Course.{run_from, IsAt, IsFound, IsSafe, IsHindered};

use crate::words::Call;
use flow_disk::Disk;
use flow_front::Prepared;
use flow_keep::{Keep, KeepRefusal, Unopened};
use std::alloc::Global;

/// Why a session is not begun.
#[derive(Clone, Copy)]
pub(crate) enum Hindrance {
    /// The disk failed when the file was chosen.
    Open,
    /// The file was chosen, and no keep is made of it.
    Later(KeepRefusal),
}

/// The disk on which no session is begun, and why.
#[derive(Drop)]
pub(crate) struct Hindered<D: Disk> {
    pub(crate) disk: D,
    pub(crate) why: Hindrance,
}

/// Chooses the file, and goes on with the run that it keeps.
pub(crate) fn begin<D: Disk>(
    alloc: Global,
    call: Call<'_>,
    prepared: Prepared,
    disk: D,
) -> Result<Keep<D>, Hindered<D>>
    requires compiled { IsCompiled (schema_of prepared.workflow) prepared.compiled }
    requires steps { IsStepCount call.steps }
    requires faults { D.faults disk < 2 ^ 64 - 1 }
    ensures run { IfOk result (λ keep. run_of keep ≡ run_from prepared.workflow call.entry.steps (run_of keep).history) }
    ensures found { IfOk result (λ keep. IsFound D.tells (D.seen disk) prepared.workflow call.entry.steps (run_of keep).history) }
    ensures whole { IfOk result (λ keep. is_broken keep ≡ false) }
    ensures no_fault { IfOk result (λ keep. D.faults (disk_of keep) ≡ D.faults disk) }
    ensures file { IfOk result (λ keep. IsAt D.tells D.moment D.image D.synced D.seen D.faults D.chosen D.file_at call.entry.path.now (disk_of keep)) }
    ensures begun { IfOk result (λ keep. IsSafe D.tells D.moment D.image D.synced D.seen D.faults D.chosen D.file_at disk (disk_of keep)) }
    ensures hindered { IfErr result (λ hindered. IsHindered D.tells D.moment D.image D.synced D.seen D.faults D.chosen D.file_at
        call.entry.path.now prepared.workflow call.entry.steps disk hindered.why hindered.disk) }
    ensures safe { IfErr result (λ hindered. IsSafe D.tells D.moment D.image D.synced D.seen D.faults D.chosen D.file_at disk hindered.disk) }
{
    let Prepared { workflow, compiled } = prepared;
    let mut disk = disk;
    let Ok(()) = disk.open(call.path) else {
        return Err(Hindered {
            disk,
            why: Hindrance::Open,
        });
    };
    match Keep::open(alloc, workflow, compiled, call.steps, disk) {
        Ok(keep) => Ok(keep),
        Err(Unopened { disk, why }) => Err(Hindered {
            disk,
            why: Hindrance::Later(why),
        }),
    }
}
