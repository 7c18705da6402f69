//! One record more, so that a crash at any moment leaves the records with it or without.
ghost use Rattle.std.specs.Prelude.{◌≡◌, ◌++◌, ◌∷◌, [], ◌-◌, ◌*◌, ◌^◌, ◌<◌, ◌≤◌, ℕ, List, length, OnOk};
ghost use Rattle.flow_disk.specs.Disk.{CountsFault, Holds, Leaves};
ghost use Rattle.flow_keep.specs.Records.{records};
ghost use Rattle.flow_keep.specs.Kept.{IsSettled, IsBeforeOrAfter};

use crate::body::BODY;
use flow_disk::{Disk, DiskFailed};

/// The fifteen bytes, and a gate that is shut.
fn with_gate(body: &[u8; BODY]) -> [u8; 16]
    ensures { result ≡ body.now ++ 0 ∷ [] }
{
    let mut record = [0u8; 16];
    record[..BODY].copy_from_slice(body);
    record
}

/// Adds a record behind so many.
pub(crate) fn append<D: Disk>(disk: &mut D, count: u64, body: &[u8; BODY]) -> Result<(), DiskFailed>
    requires faults { D.faults disk.old < 2 ^ 64 - 1 }
    requires room { count < 2 ^ 32 }
    requires size { length body.now ≡ 15 }
    requires settled { D.tells → IsSettled (D.seen disk.old) (D.image disk.old (D.moment disk.old)) }
    requires place { D.tells → count ≡ length (records (D.seen disk.old)) }
    ensures cause { CountsFault (D.faults disk.old) (D.faults disk.new) result }
    ensures same_file { D.chosen disk.new ≡ D.chosen disk.old }
    ensures settled { OnOk result (D.tells → IsSettled (D.seen disk.new) (D.image disk.new (D.moment disk.new))) }
    ensures kept { OnOk result (D.tells → records (D.seen disk.new) ≡ records (D.seen disk.old) ++ body.now ∷ []) }
    ensures gains { OnOk result (D.tells → Holds (D.seen disk.old) (16 * count) (1 ∷ (body.now ++ 0 ∷ [])) (D.seen disk.new)) }
    ensures any_moment { D.tells → Leaves D.moment D.image disk.old disk.new
        (IsBeforeOrAfter (records (D.seen disk.old)) body.now) }
{
    let gate = 16 * count;
    let record = with_gate(body);
    let Ok(()) = disk.write_at(gate + 1, &record) else {
        return Err(DiskFailed);
    };
    let Ok(()) = disk.sync() else {
        return Err(DiskFailed);
    };
    let Ok(()) = disk.write_at(gate, &[1]) else {
        return Err(DiskFailed);
    };
    let Ok(()) = disk.sync() else {
        return Err(DiskFailed);
    };
    Ok(())
}
