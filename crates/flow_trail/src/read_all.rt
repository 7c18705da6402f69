//! All bytes of a disk.
ghost use Rattle.std.specs.Prelude.{◌≡◌, ℕ, ◌-◌, ◌^◌, ◌<◌, ◌≤◌, length, take, drop, min, Ok, Err, IfOk, OnErr};
ghost use Rattle.std.specs.Result.{IsErrOf};
ghost use Rattle.flow_disk.specs.Disk.{CountsFault, Rests};
ghost use Rattle.flow_trail.specs.Opened.{CountsDisk};

use crate::refusal::OpenRefusal;
use crate::trail::MOST_BYTES;
use flow_disk::{Disk, DiskFailed};
use std::alloc::Global;

/// Reads from that place on, until the buffer is full or at the end.
fn read_full<D: Disk>(disk: &mut D, at: u64, buf: &mut [u8]) -> Result<usize, DiskFailed>
    requires faults { D.faults disk.old < 2 ^ 64 - 1 }
    requires near { at < 2 ^ 40 }
    requires small { length buf.old ≤ 2 ^ 40 }
    ensures cause { CountsFault (D.faults disk.old) (D.faults disk.new) result }
    ensures same_file { D.chosen disk.new ≡ D.chosen disk.old }
    ensures rests { D.tells → Rests (D.moment disk.old) (D.moment disk.new) (D.seen disk.old) (D.seen disk.new)
        (D.image disk.old) (D.image disk.new) (D.synced disk.old) (D.synced disk.new) }
    ensures fits { IfOk result (λ n. n ≤ length buf.new) }
    ensures bytes { D.tells → IfOk result (λ n. take n buf.new ≡ take n (drop at (D.seen disk.old))) }
    ensures all { D.tells → IfOk result (λ n. n ≡ min (length buf.new) (length (drop at (D.seen disk.old)))) }
{
    let mut count = 0;
    while count < buf.len() {
        let Ok(got) = disk.read_at(at + count as u64, &mut buf[count..]) else {
            return Err(DiskFailed);
        };
        if got == 0 {
            return Ok(count);
        }
        count += got;
    }
    Ok(count)
}

/// All bytes that a read gives.
pub(crate) fn read_all<D: Disk>(alloc: Global, disk: &mut D) -> Result<Vec<u8>, OpenRefusal>
    requires faults { D.faults disk.old < 2 ^ 64 - 1 }
    ensures cause { CountsDisk (D.faults disk.old) (D.faults disk.new) result }
    ensures same_file { D.chosen disk.new ≡ D.chosen disk.old }
    ensures rests { D.tells → Rests (D.moment disk.old) (D.moment disk.new) (D.seen disk.old) (D.seen disk.new)
        (D.image disk.old) (D.image disk.new) (D.synced disk.old) (D.synced disk.new) }
    ensures no_line { (line : ℕ) → ¬ (IsErrOf result (OpenRefusal.BadLine line)) }
    ensures no_count { (told : ℕ) → ¬ (IsErrOf result (OpenRefusal.Count told)) }
    ensures few { IfOk result (λ bytes. length bytes.items ≤ 2 ^ 40) }
    ensures bytes { D.tells → IfOk result (λ bytes. bytes.items ≡ D.seen disk.old) }
{
    let Ok(len) = disk.len() else {
        return Err(OpenRefusal::DiskFault);
    };
    if len > MOST_BYTES {
        return Err(OpenRefusal::Full);
    }
    let mut bytes = vec![in alloc; 0u8; len as usize]?;
    let Ok(count) = read_full(disk, 0, &mut bytes) else {
        return Err(OpenRefusal::DiskFault);
    };
    bytes.truncate(count);
    Ok(bytes)
}
