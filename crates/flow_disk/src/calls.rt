ghost use Rattle.std.specs.Prelude.{◌≡◌, ◌+◌, ◌-◌, ◌^◌, ◌<◌, ◌≤◌, ◌↔◌, OnOk, IsErr};
ghost use Rattle.flow_disk.specs.Disk.{CountsFault};

use crate::disk::DiskFailed;

/// How the calls of a disk in memory went. So many of them there were as succeeded and failed.
#[derive(Drop)]
pub(crate) struct Calls {
    pub(crate) succeeded: u32,
    pub(crate) faults: u64,
    pub(crate) stop_at: u32,
    ghost few: { succeeded ≤ stop_at },
}

impl Calls {
    /// Counts a call, which fails where its number says so.
    pub(crate) fn next(&mut self) -> Result<(), DiskFailed>
        requires { self.old.faults < 2 ^ 64 - 1 }
        ensures cause { CountsFault self.old.faults self.new.faults result }
        ensures stops { IsErr result ↔ (self.old.stop_at ≤ self.old.succeeded + self.old.faults) }
        ensures counted { self.new.succeeded + self.new.faults ≡ self.old.succeeded + self.old.faults + 1 }
        ensures stop_at { self.new.stop_at ≡ self.old.stop_at }
    {
        if self.faults >= u64::from(self.stop_at - self.succeeded) {
            self.faults += 1;
            return Err(DiskFailed);
        }
        self.succeeded += 1;
        Ok(())
    }

    /// Makes of a call that was counted as one that succeeded one that failed.
    pub(crate) fn fail(&mut self) -> DiskFailed
        requires some { 0 < self.old.succeeded }
        requires counts { self.old.faults < 2 ^ 64 - 1 }
        ensures faults { self.new.faults ≡ self.old.faults + 1 }
        ensures count { self.new.succeeded + self.new.faults ≡ self.old.succeeded + self.old.faults }
        ensures stop_at { self.new.stop_at ≡ self.old.stop_at }
    {
        self.succeeded -= 1;
        self.faults += 1;
        DiskFailed
    }
}
