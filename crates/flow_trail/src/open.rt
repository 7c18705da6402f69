//! A trail taken up again from its file.
ghost use Rattle.std.specs.Prelude.{◌≡◌, ◌⊎◌, ◌↔◌, ◌≢◌, ◌-◌, ◌+◌, ◌^◌, ◌<◌, ◌≤◌, ◌∷◌, ◌++◌, [], ℕ, List, true, false, map, length, take, get_or, IsTrue, IfOk, IfErr, OnOk};
ghost use Rattle.std.specs.Result.{IsErrOf};
ghost use Rattle.std.specs.String.{string_bytes};
ghost use Rattle.flow_disk.specs.Disk.{CountsFault, Leaves};
ghost use Rattle.flow_trail.specs.Whole.{HasLines, IsSettled};
ghost use Rattle.flow_trail.specs.Lines.{Said, said_of, void, end_of, trail_text, AreInOrder, Says};
ghost use Rattle.flow_trail.specs.Read.{IsBadLine};
ghost use Rattle.flow_trail.specs.Kept.{HoldsLines};
ghost use Rattle.flow_trail.specs.Opened.{CountsDisk, SaysLike, Opens, TellsCount};
ghost use Rattle.flow_trail.specs.declared.refusal.OpenRefusal.TheVariants.{DiskFault, BadLine, Count};
ghost use Rattle.flow_trail.specs.declared.refusal.TellRefusal.TheVariants.{Broken, OutOfPlace};
ghost use Rattle.flow_trail.specs.declared.refusal.TellRefusal.TheVariants as tell;

use crate::line::{TrailEnd, TrailLine};
use crate::read::{ReadTrail, read_trail};
use crate::read_all::read_all;
use crate::refusal::{OpenRefusal, TellRefusal};
use crate::trail::Trail;
use flow_disk::{Disk, DiskFailed};
use std::alloc::Global;

/// The disk of a trail that was not opened, and why it was not.
#[derive(Drop)]
pub struct UnopenedTrail<D: Disk> {
    pub disk: D,
    pub why: OpenRefusal,
}

/// Whether a byte stands there that is no brace.
fn has_gate(place: u64, bytes: &[u8]) -> bool
    requires { place ≤ length bytes.now }
    ensures { IsTrue result ↔ ((place < length bytes.now) × (get_or bytes.now place 0 ≢ 123)) }
{
    let place = place as usize;
    place < bytes.len() && bytes[place] != b'{'
}

/// Writes a shut gate behind the lines, where none stands there.
fn close_end<D: Disk>(disk: &mut D, place: u64, bytes: &[u8]) -> Result<(), DiskFailed>
    requires faults { D.faults disk.old < 2 ^ 64 - 1 }
    requires near { place ≤ length bytes.now }
    requires seen { D.tells → bytes.now ≡ D.seen disk.old }
    requires lines { HasLines (take place bytes.now) bytes.now }
    requires durable { D.tells → (c : List ℕ) → D.image disk.old (D.moment disk.old) c → c ≡ D.seen disk.old }
    ensures cause { CountsFault (D.faults disk.old) (D.faults disk.new) result }
    ensures same_file { D.chosen disk.new ≡ D.chosen disk.old }
    ensures settled { D.tells → OnOk result (IsSettled place (D.seen disk.new) (D.image disk.new (D.moment disk.new))) }
    ensures lines { D.tells → OnOk result (take place (D.seen disk.new) ≡ take place bytes.now) }
    ensures any_moment { D.tells → Leaves D.moment D.image disk.old disk.new (HasLines (take place bytes.now)) }
{
    if has_gate(place, bytes) {
        return Ok(());
    }
    let Ok(()) = disk.write_at(place, b"\n") else {
        return Err(DiskFailed);
    };
    let Ok(()) = disk.sync() else {
        return Err(DiskFailed);
    };
    Ok(())
}

/// Reads the lines that the file says, and makes it fit for the next.
fn take_up<D: Disk>(alloc: Global, disk: &mut D, start: TrailEnd) -> Result<ReadTrail, OpenRefusal>
    requires faults { D.faults disk.old < 2 ^ 64 - 1 }
    ensures cause { CountsDisk (D.faults disk.old) (D.faults disk.new) result }
    ensures same_file { D.chosen disk.new ≡ D.chosen disk.old }
    ensures no_count { (told : ℕ) → ¬ (IsErrOf result (OpenRefusal.Count told)) }
    ensures in_order { IfOk result (λ read. AreInOrder start (map said_of read.lines.items)) }
    ensures end { IfOk result (λ read. read.end ≡ end_of start (map said_of read.lines.items)) }
    ensures place { IfOk result (λ read. read.place ≡ length (trail_text start (map said_of read.lines.items))) }
    ensures room { IfOk result (λ read. read.place ≤ 2 ^ 40) }
    ensures says { D.tells → IfOk result (λ read. Says start (map said_of read.lines.items) (D.seen disk.old)) }
    ensures bad { D.tells → (line : ℕ) → IsErrOf result (OpenRefusal.BadLine line) → IsBadLine start (D.seen disk.old) line }
    ensures held { D.tells → IfOk result (λ read.
        HoldsLines start (map said_of read.lines.items) read.place (D.seen disk.new) (D.image disk.new (D.moment disk.new))) }
    ensures opens { D.tells → (line : List ℕ) → Opens D.moment D.image disk.old disk.new (SaysLike start (void line) (D.seen disk.old)) }
{
    let Ok(()) = disk.sync() else {
        return Err(OpenRefusal::DiskFault);
    };
    let bytes = match read_all(alloc, disk) {
        Ok(bytes) => bytes,
        Err(why) => return Err(why),
    };
    let read = read_trail(alloc, start, &bytes)?;
    let Ok(()) = close_end(disk, read.place as u64, &bytes) else {
        return Err(OpenRefusal::DiskFault);
    };
    Ok(read)
}

impl<D: Disk> Trail<D> {
    ghost use Rattle.flow_trail.specs.Held.{start_of, said_in, disk_of, is_broken};

    /// Takes up the trail that the file says, of so many entries, or begins one in an empty file. A line whose entry did not come gets its
    /// void line, with that time.
    pub fn open(
        alloc: Global,
        disk: D,
        start: TrailEnd,
        count: u32,
        at: String,
    ) -> Result<Trail<D>, UnopenedTrail<D>>
        requires faults { D.faults disk < 2 ^ 64 - 1 }
        ensures start { IfOk result (λ t. start_of t ≡ start) }
        ensures whole { IfOk result (λ t. is_broken t ≡ false) }
        ensures count { IfOk result (λ t. (end_of start (said_in t)).count ≡ count) }
        ensures no_fault { IfOk result (λ t. D.faults (disk_of t) ≡ D.faults disk) }
        ensures same_file { IfOk result (λ t. D.chosen (disk_of t) ≡ D.chosen disk) }
        ensures said { D.tells → IfOk result (λ t. (saying : List Said) × Says start saying (D.seen disk)
            × ((said_in t ≡ saying) ⊎ (said_in t ≡ saying ++ void (string_bytes at) ∷ []))) }
        ensures durable { D.tells → IfOk result (λ t. (c : List ℕ) →
            D.image (disk_of t) (D.moment (disk_of t)) c → Says start (said_in t) c) }
        ensures opens { D.tells → IfOk result (λ t. Opens D.moment D.image disk (disk_of t)
            (SaysLike start (void (string_bytes at)) (D.seen disk))) }
        // it is refused
        ensures refused_file { IfErr result (λ u. D.chosen u.disk ≡ D.chosen disk) }
        ensures fault { IfErr result (λ u. (u.why ≡ DiskFault) ↔ (D.faults disk < D.faults u.disk)) }
        ensures bad { D.tells → IfErr result (λ u. (line : ℕ) → u.why ≡ BadLine line → IsBadLine start (D.seen disk) line) }
        ensures other_count { D.tells → IfErr result (λ u. (told : ℕ) → u.why ≡ Count told →
            (saying : List Said) × Says start saying (D.seen disk) × ((end_of start saying).count ≡ told) × ¬ (TellsCount (end_of start saying) count)) }
        ensures refused { D.tells → IfErr result (λ u. Opens D.moment D.image disk u.disk
            (SaysLike start (void (string_bytes at)) (D.seen disk))) }
    {
        let mut disk = disk;
        let read = match take_up(alloc, &mut disk, start) {
            Ok(read) => read,
            Err(why) => return Err(UnopenedTrail { disk, why }),
        };
        let ReadTrail { lines, end, place } = read;
        let trail = Trail {
            disk,
            start,
            lines,
            end,
            place: place as u64,
            broken: false,
        };
        if end.count == count {
            return Ok(trail);
        }
        if !end.last_told || count == u32::MAX || end.count != count + 1 {
            return Err(UnopenedTrail {
                disk: trail.into_disk(),
                why: OpenRefusal::Count { told: end.count },
            });
        }
        let mut trail = trail;
        match trail.tell(alloc, TrailLine::Void { at }) {
            Ok(()) => Ok(trail),
            Err(refusal) => Err(UnopenedTrail {
                disk: trail.into_disk(),
                why: why_not(refusal),
            }),
        }
    }
}

/// Why a trail is not opened whose void line is not told.
fn why_not(refusal: TellRefusal) -> OpenRefusal
    requires whole { refusal ≢ Broken }
    requires in_place { refusal ≢ OutOfPlace }
    ensures fault { (result ≡ DiskFault) ↔ (refusal ≡ tell.DiskFault) }
    ensures other { (line : ℕ) → ¬ (result ≡ BadLine line) }
    ensures no_count { (told : ℕ) → ¬ (result ≡ Count told) }
{
    match refusal {
        TellRefusal::Broken | TellRefusal::OutOfPlace => unreachable!(),
        TellRefusal::NoMemory => OpenRefusal::NoMemory,
        TellRefusal::Full => OpenRefusal::Full,
        TellRefusal::DiskFault => OpenRefusal::DiskFault,
    }
}
