//! The entry of a case is kept: the kept run is asked the same.
ghost use Rattle.std.specs.Prelude.{◌≡◌, ◌⊎◌, ◌-◌, ◌^◌, ◌<◌, Result, Err, false, IsErr, OnOk};
ghost use Rattle.std.specs.Result.{is_err};
ghost use Rattle.flow_ask.specs.declared.made.Made.{Made};
ghost use Rattle.flow_ask.specs.declared.refusal.Refusal.{Refusal};
ghost use Rattle.flow_ask.specs.declared.refusal.Refusal.TheVariants as refusal;
ghost use Rattle.flow_core.specs.Ask.{Answers, HasOneMore};
ghost use Rattle.flow_keep.specs.Answered.{LeavesKept};
ghost use Rattle.flow_keep.specs.Holding.{run_of, disk_of, is_broken};

use flow_ask::{Ask, Refusal};
use flow_core::{Asked, Core};
use flow_disk::Disk;
use flow_keep::Keep;

/// Keeps the entry that came of an ask of a run with the same history, if one came.
pub(crate) fn keep_last<D: Disk>(
    keep: &mut Keep<D>,
    core: &Core,
    ask: Ask,
    by: u32,
) -> Result<(), Refusal>
    requires whole { is_broken keep.old ≡ false }
    requires faults { D.faults (disk_of keep.old) < 2 ^ 64 - 1 }
    requires comes { (core.now ≡ run_of keep.old) ⊎ (((answer : Result Made Refusal) × Answers (run_of keep.old) ask by answer core.now)
        × HasOneMore (run_of keep.old) ask by core.now) }
    ensures run { run_of keep.new ≡ core.now }
    ensures whole { OnOk result (is_broken keep.new ≡ false) }
    ensures faults { OnOk result (D.faults (disk_of keep.new) ≡ D.faults (disk_of keep.old)) }
    ensures refused { IsErr result → result ≡ Err refusal.Disk }
    ensures made { IsErr result → HasOneMore (run_of keep.old) ask by core.now }
    ensures idle { core.now ≡ run_of keep.old → disk_of keep.new ≡ disk_of keep.old }
    ensures leaves { LeavesKept D.tells D.moment D.image D.seen D.chosen (run_of keep.old) core.now (disk_of keep.old) (disk_of keep.new) false (is_err result) }
{
    if keep.core().history().len() == core.history().len() {
        return Ok(());
    }
    let _ = Asked::answer(keep, ask, by);
    if keep.is_broken() {
        Err(Refusal::Disk)
    } else {
        Ok(())
    }
}
