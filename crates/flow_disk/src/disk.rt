ghost use Rattle.std.specs.Prelude.{◌≡◌, ℕ, ◌-◌, ◌^◌, ◌<◌, ◌≤◌, List, length, Option, Some, None, IfOk, OnOk, MatchResult};
ghost use Rattle.flow_disk.specs.Disk.{Holds, Gives, Torn, Same, Passes, SyncsNow, NoSync, CountsFault, Rests};

/// A call of a disk that failed. What failed, and whether it would go better a second time, is not told.
#[derive(Clone, Copy, Debug, PartialEq, Eq)]
pub struct DiskFailed;

/// One file on a disk, by calls that may fail.
pub trait Disk {
    // Whether disks of this kind tell the bytes that a read gives and the images that a crash may leave.
    ghost tells: { Type 0 };

    // The bytes that a read gives.
    ghost seen: { Self → List ℕ };

    // The moment, a number that never falls.
    ghost moment: { Self → ℕ };

    // What a crash at a moment up to now may leave.
    ghost image: { Self → ℕ → List ℕ → Type 0 };

    // A sync succeeded at that moment.
    ghost synced: { Self → ℕ → Type 0 };

    // How many calls have failed.
    ghost faults: { Self → ℕ };

    // The number of the file that a path leads to. Several paths may lead to one file.
    ghost file_at: { List ℕ → ℕ };

    // The number of the file that is chosen, if one is.
    ghost chosen: { Self → Option ℕ };

    /// Chooses the file of that path. Where it fails, none is chosen.
    fn open(&mut self, path: &str) -> Result<(), DiskFailed>
        requires { faults self.old < 2 ^ 64 - 1 }
        ensures cause { CountsFault (faults self.old) (faults self.new) result }
        ensures chooses { MatchResult result (λ v. chosen self.new ≡ Some (file_at path.now)) (λ e. chosen self.new ≡ None) }
        ensures rests { tells → Rests (moment self.old) (moment self.new) (seen self.old) (seen self.new)
            (image self.old) (image self.new) (synced self.old) (synced self.new) }
        ensures own { tells → image self.new (moment self.new) (seen self.new) };

    /// How many bytes a read may give.
    fn len(&mut self) -> Result<u64, DiskFailed>
        requires { faults self.old < 2 ^ 64 - 1 }
        ensures cause { CountsFault (faults self.old) (faults self.new) result }
        ensures same_file { chosen self.new ≡ chosen self.old }
        ensures rests { tells → Rests (moment self.old) (moment self.new) (seen self.old) (seen self.new)
            (image self.old) (image self.new) (synced self.old) (synced self.new) }
        ensures own { tells → image self.new (moment self.new) (seen self.new) }
        ensures len { tells → IfOk result (λ n. n ≡ length (seen self.old)) };

    /// Reads from that place on into the front of the buffer, as many bytes as the disk chooses, and none only at the
    /// end. Where it fails, the buffer may hold anything.
    fn read_at(&mut self, at: u64, buf: &mut [u8]) -> Result<usize, DiskFailed>
        requires { faults self.old < 2 ^ 64 - 1 }
        ensures cause { CountsFault (faults self.old) (faults self.new) result }
        ensures same_file { chosen self.new ≡ chosen self.old }
        ensures rests { tells → Rests (moment self.old) (moment self.new) (seen self.old) (seen self.new)
            (image self.old) (image self.new) (synced self.old) (synced self.new) }
        ensures own { tells → image self.new (moment self.new) (seen self.new) }
        ensures fits { IfOk result (λ n. n ≤ length buf.new) }
        ensures gives { tells → IfOk result (Gives (seen self.old) at buf.old buf.new) };

    /// Writes over what stands there, and past the end. Until a sync that succeeds, a crash may leave any bytes in the
    /// range. So may a write that fails, and what a read gives then is one of the images.
    fn write_at(&mut self, at: u64, bytes: &[u8]) -> Result<(), DiskFailed>
        requires counts { faults self.old < 2 ^ 64 - 1 }
        requires within { tells → at ≤ length (seen self.old) }
        ensures cause { CountsFault (faults self.old) (faults self.new) result }
        ensures same_file { chosen self.new ≡ chosen self.old }
        ensures written { tells → OnOk result (Holds (seen self.old) at bytes.now (seen self.new)) }
        ensures crash { tells → Passes (moment self.old) (moment self.new) (image self.old) (image self.new)
            (Torn at (length bytes.now)) }
        ensures syncs { tells → NoSync (moment self.old) (moment self.new) (synced self.old) (synced self.new) }
        ensures own { tells → image self.new (moment self.new) (seen self.new) };

    /// After it, a crash leaves what a read gives. Where it fails, it adds no image.
    fn sync(&mut self) -> Result<(), DiskFailed>
        requires { faults self.old < 2 ^ 64 - 1 }
        ensures cause { CountsFault (faults self.old) (faults self.new) result }
        ensures same_file { chosen self.new ≡ chosen self.old }
        ensures seen { tells → seen self.new ≡ seen self.old }
        ensures crash { tells → Passes (moment self.old) (moment self.new) (image self.old) (image self.new) Same }
        ensures syncs { tells → MatchResult result
            (λ v. SyncsNow (moment self.old) (moment self.new) (synced self.old) (synced self.new)
            (image self.new) (seen self.old))
            (λ e. NoSync (moment self.old) (moment self.new) (synced self.old) (synced self.new)) }
        ensures own { tells → image self.new (moment self.new) (seen self.new) };
}
