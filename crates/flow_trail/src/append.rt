//! One line more, so that a crash at any moment leaves the lines with it or without.
ghost use Rattle.std.specs.Prelude.{◌≡◌, ◌++◌, ◌∷◌, [], ◌-◌, ◌+◌, ◌^◌, ◌<◌, ◌≤◌, ℕ, List, length, take, drop, OnOk};
ghost use Rattle.flow_disk.specs.Disk.{CountsFault, Leaves};
ghost use Rattle.flow_trail.specs.Whole.{HasEither, IsSettled, line_of};

use flow_disk::{Disk, DiskFailed};

/// Writes a line behind the lines up to the place. The line comes without its first byte, which is its gate, and with the byte behind it,
/// which is the gate of the next.
pub(crate) fn append<D: Disk>(disk: &mut D, place: u64, rest: &[u8]) -> Result<(), DiskFailed>
    requires faults { D.faults disk.old < 2 ^ 64 - 1 }
    requires room { place < 2 ^ 63 }
    requires shut { drop (length rest.now - 1) rest.now ≡ 10 ∷ [] }
    requires settled { D.tells → IsSettled place (D.seen disk.old) (D.image disk.old (D.moment disk.old)) }
    ensures cause { CountsFault (D.faults disk.old) (D.faults disk.new) result }
    ensures same_file { D.chosen disk.new ≡ D.chosen disk.old }
    ensures settled { OnOk result (D.tells → IsSettled (place + length rest.now) (D.seen disk.new) (D.image disk.new (D.moment disk.new))) }
    ensures written { OnOk result (D.tells → take (place + length rest.now) (D.seen disk.new) ≡ take place (D.seen disk.old) ++ line_of rest.now) }
    ensures any_moment { D.tells → Leaves D.moment D.image disk.old disk.new
        (HasEither (take place (D.seen disk.old)) (line_of rest.now)) }
{
    let Ok(()) = disk.write_at(place + 1, rest) else {
        return Err(DiskFailed);
    };
    let Ok(()) = disk.sync() else {
        return Err(DiskFailed);
    };
    let Ok(()) = disk.write_at(place, b"{") else {
        return Err(DiskFailed);
    };
    let Ok(()) = disk.sync() else {
        return Err(DiskFailed);
    };
    Ok(())
}
