//! The trail is told the entry that a run has more.
ghost use Rattle.std.specs.Prelude.{◌≡◌, ◌-◌, ◌^◌, ◌<◌, ◌≤◌, length, slice_get, true, false, Some, Ok, Err, IsErr, OnOk};
ghost use Rattle.std.specs.Result.{is_err};
ghost use Rattle.flow_model.specs.declared.history.Entry.{Entry};
ghost use Rattle.flow_ask.specs.declared.refusal.Refusal.TheVariants as refusal;
ghost use Rattle.flow_trail.specs.Held.{start_of, said_in, disk_of, is_broken};
ghost use Rattle.flow_trail.specs.Lines.{Said};
ghost use Rattle.flow_case_cli.specs.Line.{IsLineOf};
ghost use Rattle.flow_case_cli.specs.Asked.{TellsLine};

use crate::asker::Asker;
use crate::line::line_of;
use flow_ask::Refusal;
use flow_core::Core;
use flow_disk::Disk;
use flow_trail::Trail;
use std::alloc::Global;

/// Tells the trail the entry of a run that has more than so many; of a run that has no more it tells nothing.
pub(crate) fn tell_last<T: Disk>(
    alloc: Global,
    trail: &mut Trail<T>,
    core: &Core,
    count: usize,
    leaf: Option<u32>,
    asker: Asker<'_>,
) -> Result<(), Refusal>
    requires whole { is_broken trail.old ≡ false }
    requires faults { T.faults (disk_of trail.old) < 2 ^ 64 - 1 }
    requires counted { count ≤ length core.now.history }
    ensures start { start_of trail.new ≡ start_of trail.old }
    ensures refused { IsErr result → result ≡ Err refusal.Disk }
    ensures whole { OnOk result (is_broken trail.new ≡ false) }
    ensures faults { OnOk result (T.faults (disk_of trail.new) ≡ T.faults (disk_of trail.old)) }
    ensures idle { length core.now.history ≡ count → (result ≡ Ok tt) × (trail.new ≡ trail.old) }
    ensures told { count < length core.now.history → (said : Said)
        × (is_err result ≡ false → (entry : Entry) → slice_get core.now.history count ≡ Some entry → IsLineOf core.now.definition leaf entry.step asker.entry said)
        × TellsLine T.tells T.moment T.image (start_of trail.old) (said_in trail.old) said (disk_of trail.old) (disk_of trail.new) (said_in trail.new) (is_err result) }
{
    let history = core.history();
    if history.len() == count {
        return Ok(());
    }
    let step = history[count].step;
    let Ok(line) = line_of(alloc, core.workflow(), leaf, step, asker) else {
        return Err(Refusal::Disk);
    };
    match trail.tell(alloc, line) {
        Ok(()) => Ok(()),
        Err(_) => Err(Refusal::Disk),
    }
}
