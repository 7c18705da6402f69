ghost use Rattle.std.specs.Prelude.{◌≡◌, ◌*◌, ◌-◌, ◌^◌, ◌<◌, ◌≤◌, length, take, drop, min, IfOk, MatchOption};
ghost use Rattle.flow_model.specs.declared.history.Entry.{Entry};
ghost use Rattle.flow_record.specs.History.{IsSmall};
ghost use Rattle.flow_disk.specs.Disk.{CountsFault, Rests};
ghost use Rattle.flow_keep.specs.Records.{body_of, body_at};
ghost use Rattle.flow_keep.specs.Slot.{IsSlot, HoldsSmall};

use crate::body::{BODY, entry_of};
use flow_disk::{Disk, DiskFailed};
use flow_model::Entry;

/// What stands at the place of a record.
#[derive(Clone, Copy)]
pub(crate) enum Slot {
    /// No open record.
    Shut,
    /// A record that tells no entry.
    Unreadable,
    /// The record of that entry.
    Holds(Entry),
}

/// Reads from that place on, until the buffer is full or at the end.
pub(crate) fn read_full<D: Disk>(disk: &mut D, at: u64, buf: &mut [u8]) -> Result<usize, DiskFailed>
    requires faults { D.faults disk.old < 2 ^ 64 - 1 }
    requires near { at < 2 ^ 40 }
    requires small { length buf.old < 2 ^ 40 }
    ensures cause { CountsFault (D.faults disk.old) (D.faults disk.new) result }
    ensures same_file { D.chosen disk.new ≡ D.chosen disk.old }
    ensures rests { D.tells → Rests (D.moment disk.old) (D.moment disk.new) (D.seen disk.old) (D.seen disk.new)
        (D.image disk.old) (D.image disk.new) (D.synced disk.old) (D.synced disk.new) }
    ensures fits { IfOk result (λ n. n ≤ length buf.new) }
    ensures bytes { D.tells → IfOk result (λ n. take n buf.new ≡ take n (drop at (D.seen disk.old))) }
    ensures all { D.tells → IfOk result (λ n. n ≡ min (length buf.new) (length (drop at (D.seen disk.old)))) }
{
    let mut count = 0;
    while count < buf.len() {
        let Ok(got) = disk.read_at(at + count as u64, &mut buf[count..]) else {
            return Err(DiskFailed);
        };
        if got == 0 {
            return Ok(count);
        }
        count += got;
    }
    Ok(count)
}

/// The entry of a record with its gate, if it tells one.
fn entry_in(bytes: &[u8; 17]) -> Option<Entry>
    ensures { MatchOption result ((entry : Entry) → IsSmall entry → ¬ (body_of entry ≡ body_at bytes.now))
        (λ entry. IsSmall entry × (body_of entry ≡ body_at bytes.now)) }
{
    let mut body = [0u8; BODY];
    body.copy_from_slice(&bytes[1..16]);
    entry_of(&body)
}

/// Reads what stands at the place of the record of that number. The byte behind it tells that the record is whole.
pub(crate) fn read_slot<D: Disk>(disk: &mut D, index: u64) -> Result<Slot, DiskFailed>
    requires faults { D.faults disk.old < 2 ^ 64 - 1 }
    requires near { index ≤ 2 ^ 32 }
    ensures cause { CountsFault (D.faults disk.old) (D.faults disk.new) result }
    ensures same_file { D.chosen disk.new ≡ D.chosen disk.old }
    ensures rests { D.tells → Rests (D.moment disk.old) (D.moment disk.new) (D.seen disk.old) (D.seen disk.new)
        (D.image disk.old) (D.image disk.new) (D.synced disk.old) (D.synced disk.new) }
    ensures small { IfOk result HoldsSmall }
    ensures slot { D.tells → IfOk result (IsSlot (drop (16 * index) (D.seen disk.old))) }
{
    let mut bytes = [0u8; 17];
    let Ok(count) = read_full(disk, 16 * index, &mut bytes) else {
        return Err(DiskFailed);
    };
    if count < 17 {
        return Ok(Slot::Shut);
    }
    if bytes[0] != 1 {
        return Ok(Slot::Shut);
    }
    match entry_in(&bytes) {
        Some(entry) => Ok(Slot::Holds(entry)),
        None => Ok(Slot::Unreadable),
    }
}
