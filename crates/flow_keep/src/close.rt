//! The end of a file made fit for the next record: a byte that is no open gate.
ghost use Rattle.std.specs.Prelude.{◌≡◌, ◌-◌, ◌^◌, ◌<◌, ℕ, List, true, false, length, IfOk, OnOk};
ghost use Rattle.flow_disk.specs.Disk.{CountsFault, Rests, Leaves};
ghost use Rattle.flow_keep.specs.Records.{records};
ghost use Rattle.flow_keep.specs.Kept.{IsSettled, NeedsGate, HasGate};
ghost use Rattle.flow_keep.specs.Opened.{KeepsSyncs};

use crate::slot::read_full;
use flow_disk::{Disk, DiskFailed};

/// Whether a gate has to be written behind so many records.
fn needs_gate<D: Disk>(disk: &mut D, count: u64) -> Result<bool, DiskFailed>
    requires faults { D.faults disk.old < 2 ^ 64 - 1 }
    requires near { count < 2 ^ 32 }
    requires place { D.tells → count ≡ length (records (D.seen disk.old)) }
    ensures cause { CountsFault (D.faults disk.old) (D.faults disk.new) result }
    ensures same_file { D.chosen disk.new ≡ D.chosen disk.old }
    ensures rests { D.tells → Rests (D.moment disk.old) (D.moment disk.new) (D.seen disk.old) (D.seen disk.new)
        (D.image disk.old) (D.image disk.new) (D.synced disk.old) (D.synced disk.new) }
    ensures needs { D.tells → IfOk result (λ b. b ≡ true → NeedsGate (D.seen disk.old) count) }
    ensures has { D.tells → IfOk result (λ b. b ≡ false → HasGate (D.seen disk.old) count) }
{
    let mut byte = [0u8; 1];
    let Ok(got) = read_full(disk, 16 * count, &mut byte) else {
        return Err(DiskFailed);
    };
    if got == 0 {
        return Ok(true);
    }
    if byte[0] == 1 {
        return Ok(true);
    }
    Ok(false)
}

/// Writes a shut gate behind so many records, where there is none.
pub(crate) fn close_end<D: Disk>(disk: &mut D, count: u64) -> Result<(), DiskFailed>
    requires faults { D.faults disk.old < 2 ^ 64 - 1 }
    requires near { count < 2 ^ 32 }
    requires place { D.tells → count ≡ length (records (D.seen disk.old)) }
    requires durable { D.tells → (c : List ℕ) → D.image disk.old (D.moment disk.old) c → c ≡ D.seen disk.old }
    ensures cause { CountsFault (D.faults disk.old) (D.faults disk.new) result }
    ensures same_file { D.chosen disk.new ≡ D.chosen disk.old }
    ensures settled { D.tells → OnOk result (IsSettled (D.seen disk.new) (D.image disk.new (D.moment disk.new))) }
    ensures records { D.tells → OnOk result (records (D.seen disk.new) ≡ records (D.seen disk.old)) }
    ensures any_moment { D.tells → Leaves D.moment D.image disk.old disk.new
        (λ c. records c ≡ records (D.seen disk.old)) }
    ensures syncs { D.tells → KeepsSyncs (D.moment disk.old) (D.synced disk.old) (D.synced disk.new) }
{
    let Ok(needs) = needs_gate(disk, count) else {
        return Err(DiskFailed);
    };
    if !needs {
        return Ok(());
    }
    let Ok(()) = disk.write_at(16 * count, &[0]) else {
        return Err(DiskFailed);
    };
    let Ok(()) = disk.sync() else {
        return Err(DiskFailed);
    };
    Ok(())
}
