ghost use Rattle.std.specs.Prelude.{◌≡◌, List, ℕ, false, ◌+◌, ◌-◌, ◌^◌, ◌≤◌, ◌<◌, ◌↔◌, ◌⊎◌, length, vec_len, vec_capacity, Some, None, IfOk, OnOk, IsErr, MatchResult, IsTrue};

use crate::calls::Calls;
use crate::change_log::ChangeLog;
use crate::disk::{Disk, DiskFailed};
use std::alloc::{AllocError, Global};

/// A file in memory, which tells everything, and whose calls fail on purpose: each from the one of a number on, the
/// first of all having 0, and each write for which it has no room.
#[derive(Drop)]
pub struct MemDisk {
    log: ChangeLog,
    calls: Calls,
    chosen: bool,
    // a place for each call that may still succeed, and for the first that comes too late
    ghost places: { vec_len log.changes + (calls.stop_at + 1 - (calls.succeeded + calls.faults)) ≤ vec_capacity log.changes },
}

impl MemDisk {
    ghost use Rattle.flow_disk.specs.MemDisk.{filled_of, calls_made, stop_of, bytes_taken, room_of};

    /// A file with these bytes, all of them durable. It has room as long as these and those of all writes together are
    /// at most so many. No later call but `left` asks for memory.
    pub fn new(
        alloc: Global,
        bytes: Vec<u8>,
        room: usize,
        stop_at: u32,
    ) -> Result<MemDisk, AllocError>
        requires room { vec_len bytes ≤ room }
        requires few { stop_at ≤ 65536 }
        ensures seen { IfOk result (λ disk. ⟦<MemDisk as Disk>⟧.seen disk ≡ bytes.items) }
        ensures durable { IfOk result (λ disk. (c : List ℕ)
            → ⟦<MemDisk as Disk>⟧.image disk (⟦<MemDisk as Disk>⟧.moment disk) c → c ≡ bytes.items) }
        ensures faults { IfOk result (λ disk. ⟦<MemDisk as Disk>⟧.faults disk ≡ 0) }
        ensures calls { IfOk result (λ disk. calls_made disk ≡ 0) }
        ensures stop { IfOk result (λ disk. stop_of disk ≡ stop_at) }
        ensures taken { IfOk result (λ disk. bytes_taken disk ≡ vec_len bytes) }
        ensures room { IfOk result (λ disk. room_of disk ≡ room) }
    {
        let log = ChangeLog::new(alloc, bytes, room, stop_at as usize + 1)?;
        let calls = Calls {
            succeeded: 0,
            faults: 0,
            stop_at,
        };
        Ok(MemDisk {
            log,
            calls,
            chosen: false,
        })
    }

    /// What a crash may leave now: wherever was written since the last sync, what a read gives where that is kept, and
    /// else the same byte all over.
    pub fn left(&self, alloc: Global, fill: u8, keep: bool) -> Result<Vec<u8>, AllocError>
        ensures image { IfOk result (λ bytes.
            ⟦<MemDisk as Disk>⟧.image self.now (⟦<MemDisk as Disk>⟧.moment self.now) bytes.items) }
        ensures kept { IsTrue keep → IfOk result (λ bytes. bytes.items ≡ ⟦<MemDisk as Disk>⟧.seen self.now) }
        ensures filled { keep ≡ false → IfOk result (λ bytes. bytes.items ≡ filled_of self.now fill) }
    {
        if keep {
            return self.log.shown.to_vec(alloc);
        }
        self.log.filled(alloc, fill)
    }
}

impl Disk for MemDisk {
    ghost use Rattle.flow_disk.specs.Disk.{Holds, Gives, Torn, MayTear, Same, Passes, SyncsNow, NoSync, CountsFault, Rests};
    ghost use Rattle.flow_disk.specs.MemDisk.{seen_of, moment_of, image_of, synced_of, faults_of, chosen_of, the_file, calls_made, stop_of, IsLate, IsFull, Counts};

    ghost tells = { Unit {0} };

    ghost seen = { seen_of };

    ghost moment = { moment_of };

    ghost image = { image_of };

    ghost synced = { synced_of };

    ghost faults = { faults_of };

    // every path leads to the one file
    ghost file_at = { λ _. the_file };

    ghost chosen = { chosen_of };

    /// Opens for every path.
    #[tactic(auto, using(crate::proofs::ChangeLogLemmas::shown_image))]
    fn open(&mut self, _path: &str) -> Result<(), DiskFailed>
        requires { faults_of self.old < 2 ^ 64 - 1 }
        ensures cause { CountsFault (faults_of self.old) (faults_of self.new) result }
        ensures chooses { MatchResult result (λ v. chosen_of self.new ≡ Some the_file) (λ e. chosen_of self.new ≡ None) }
        ensures rests { Rests (moment_of self.old) (moment_of self.new) (seen_of self.old) (seen_of self.new)
            (image_of self.old) (image_of self.new) (synced_of self.old) (synced_of self.new) }
        ensures own { image_of self.new (moment_of self.new) (seen_of self.new) }
        ensures late { IsErr result ↔ IsLate self.old }
        ensures counted { Counts self.old self.new 0 }
    {
        self.chosen = false;
        self.calls.next()?;
        self.chosen = true;
        Ok(())
    }

    #[tactic(auto, using(crate::proofs::ChangeLogLemmas::shown_image))]
    fn len(&mut self) -> Result<u64, DiskFailed>
        requires { faults_of self.old < 2 ^ 64 - 1 }
        ensures cause { CountsFault (faults_of self.old) (faults_of self.new) result }
        ensures same_file { chosen_of self.new ≡ chosen_of self.old }
        ensures rests { Rests (moment_of self.old) (moment_of self.new) (seen_of self.old) (seen_of self.new)
            (image_of self.old) (image_of self.new) (synced_of self.old) (synced_of self.new) }
        ensures own { image_of self.new (moment_of self.new) (seen_of self.new) }
        ensures len { IfOk result (λ n. n ≡ length (seen_of self.old)) }
        ensures late { IsErr result ↔ IsLate self.old }
        ensures counted { Counts self.old self.new 0 }
    {
        self.calls.next()?;
        Ok(self.log.shown.len() as u64)
    }

    #[tactic(auto, using(crate::proofs::ChangeLogLemmas::shown_image))]
    fn read_at(&mut self, at: u64, buf: &mut [u8]) -> Result<usize, DiskFailed>
        requires { faults_of self.old < 2 ^ 64 - 1 }
        ensures cause { CountsFault (faults_of self.old) (faults_of self.new) result }
        ensures same_file { chosen_of self.new ≡ chosen_of self.old }
        ensures rests { Rests (moment_of self.old) (moment_of self.new) (seen_of self.old) (seen_of self.new)
            (image_of self.old) (image_of self.new) (synced_of self.old) (synced_of self.new) }
        ensures own { image_of self.new (moment_of self.new) (seen_of self.new) }
        ensures fits { IfOk result (λ n. n ≤ length buf.new) }
        ensures gives { IfOk result (Gives (seen_of self.old) at buf.old buf.new) }
        ensures late { IsErr result ↔ IsLate self.old }
        ensures counted { Counts self.old self.new 0 }
    {
        self.calls.next()?;
        let shown = self.log.shown.as_slice();
        if at >= shown.len() as u64 {
            return Ok(0);
        }
        let rest = &shown[at as usize..];
        let count = buf.len().min(rest.len());
        buf[..count].copy_from_slice(&rest[..count]);
        Ok(count)
    }

    #[tactic(auto, using(crate::proofs::ChangeLogLemmas::shown_image))]
    fn write_at(&mut self, at: u64, bytes: &[u8]) -> Result<(), DiskFailed>
        requires counts { faults_of self.old < 2 ^ 64 - 1 }
        requires within { at ≤ length (seen_of self.old) }
        ensures cause { CountsFault (faults_of self.old) (faults_of self.new) result }
        ensures same_file { chosen_of self.new ≡ chosen_of self.old }
        ensures written { OnOk result (Holds (seen_of self.old) at bytes.now (seen_of self.new)) }
        ensures crash { Passes (moment_of self.old) (moment_of self.new) (image_of self.old) (image_of self.new)
            (Torn at (length bytes.now)) }
        ensures syncs { NoSync (moment_of self.old) (moment_of self.new) (synced_of self.old) (synced_of self.new) }
        ensures own { image_of self.new (moment_of self.new) (seen_of self.new) }
        ensures late_or_full { IsErr result ↔ IsLate self.old ⊎ IsFull self.old (length bytes.now) }
        ensures counted { MatchResult result (λ _. Counts self.old self.new (length bytes.now)) (λ _. Counts self.old self.new 0) }
        // a crash may leave anything in the range, also where the write failed, up to the first call that comes too late
        ensures torn { calls_made self.old ≤ stop_of self.old
            → MayTear at (length bytes.now) (image_of self.old (moment_of self.old)) (image_of self.new (moment_of self.new)) }
    {
        let at = at as usize;
        if let Err(failed) = self.calls.next() {
            self.log.tear(at, bytes.len());
            return Err(failed);
        }
        if !self.log.has_room(bytes.len()) {
            self.log.tear(at, bytes.len());
            return Err(self.calls.fail());
        }
        self.log.write(at, bytes);
        Ok(())
    }

    #[tactic(auto, using(crate::proofs::ChangeLogLemmas::shown_image))]
    fn sync(&mut self) -> Result<(), DiskFailed>
        requires { faults_of self.old < 2 ^ 64 - 1 }
        ensures cause { CountsFault (faults_of self.old) (faults_of self.new) result }
        ensures same_file { chosen_of self.new ≡ chosen_of self.old }
        ensures seen { seen_of self.new ≡ seen_of self.old }
        ensures crash { Passes (moment_of self.old) (moment_of self.new) (image_of self.old) (image_of self.new) Same }
        ensures syncs { MatchResult result
            (λ v. SyncsNow (moment_of self.old) (moment_of self.new) (synced_of self.old) (synced_of self.new)
            (image_of self.new) (seen_of self.old))
            (λ e. NoSync (moment_of self.old) (moment_of self.new) (synced_of self.old) (synced_of self.new)) }
        ensures own { image_of self.new (moment_of self.new) (seen_of self.new) }
        ensures late { IsErr result ↔ IsLate self.old }
        ensures counted { Counts self.old self.new 0 }
    {
        self.calls.next()?;
        self.log.sync();
        Ok(())
    }
}
