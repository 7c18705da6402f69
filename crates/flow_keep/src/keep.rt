ghost use Rattle.std.specs.Prelude.{◌≡◌, ◌-◌, ◌^◌, ◌<◌, ◌≤◌, ◌+◌, ℕ, List, length, take, false, OnOk, IsErr};
ghost use Rattle.flow_model.specs.Lists.{Each};
ghost use Rattle.flow_record.specs.History.{IsSmall};
ghost use Rattle.flow_disk.specs.Disk.{CountsFault, Leaves};
ghost use Rattle.flow_keep.specs.Records.{Keeps};
ghost use Rattle.flow_keep.specs.Kept.{IsKept, KeepsEither, GainsRecord, small-prop};

use crate::append::append;
use crate::body::body_of;
use flow_core::{Asked, Core};
use flow_disk::{Disk, DiskFailed};

/// A run, or what stands over one, whose history is kept in a file: each entry is in the file before the call that made it answers.
#[derive(Drop)]
pub struct Keep<D: Disk, R: Asked = Core> {
    pub(crate) run: R,
    pub(crate) disk: D,
    pub(crate) broken: bool,
    ghost small: { Each IsSmall (R.run run).history } by { small-prop (R.run run).history },
    ghost kept: { D.tells → broken ≡ false → IsKept (R.run run).history (D.seen disk) (D.image disk (D.moment disk)) },
}

/// Keeps the last entry of a run, where it has more than so many.
pub(crate) fn keep_last<D: Disk>(disk: &mut D, core: &Core, count: usize) -> Result<(), DiskFailed>
    requires faults { D.faults disk.old < 2 ^ 64 - 1 }
    requires counted { count ≤ length core.now.history }
    requires one { length core.now.history ≤ count + 1 }
    requires kept { D.tells → IsKept (take count core.now.history) (D.seen disk.old) (D.image disk.old (D.moment disk.old)) }
    ensures cause { CountsFault (D.faults disk.old) (D.faults disk.new) result }
    ensures same_file { D.chosen disk.new ≡ D.chosen disk.old }
    ensures kept { OnOk result (D.tells → IsKept core.now.history (D.seen disk.new) (D.image disk.new (D.moment disk.new))) }
    ensures gains { D.tells → OnOk result (GainsRecord (take count core.now.history) core.now.history (D.seen disk.old) (D.seen disk.new)) }
    ensures any_moment { D.tells → Leaves D.moment D.image disk.old disk.new
        (KeepsEither (take count core.now.history) core.now.history) }
    ensures small { Each IsSmall (take count core.now.history) → Each IsSmall core.now.history }
    ensures idle { length core.now.history ≡ count → disk.new ≡ disk.old }
    ensures made { IsErr result → length core.now.history ≡ count + 1 }
{
    let history = core.history();
    let limit = core.limit();
    if history.len() == count {
        return Ok(());
    }
    let body = body_of(&history[count]);
    append(disk, count as u64, &body)
}

impl<D: Disk, R: Asked> Keep<D, R> {
    ghost use Rattle.flow_keep.specs.Holding.{run_of, disk_of, is_broken};

    /// The run.
    pub fn core(&self) -> &Core
        ensures run { result.now ≡ R.run (run_of self.now) }
        ensures small { Each IsSmall (R.run (run_of self.now)).history }
        ensures seen { D.tells → is_broken self.now ≡ false → Keeps (R.run (run_of self.now)).history (D.seen (disk_of self.now)) }
        ensures acknowledged { D.tells → is_broken self.now ≡ false → (c : List ℕ) →
            D.image (disk_of self.now) (D.moment (disk_of self.now)) c → Keeps (R.run (run_of self.now)).history c }
    {
        self.run.core()
    }

    /// Whether a call failed at the disk. From then on nothing is done any more.
    pub fn is_broken(&self) -> bool
        ensures { result ≡ is_broken self.now }
    {
        self.broken
    }

    /// Finds at once what can be taken or done, so that the questions about this state cost little.
    pub fn look_ahead(&mut self)
        ensures same { R.is_same (run_of self.old) (run_of self.new) }
        ensures run { R.run (run_of self.new) ≡ R.run (run_of self.old) }
        ensures lasts { R.can_be_asked (run_of self.old) → R.can_be_asked (run_of self.new) }
        ensures disk { disk_of self.new ≡ disk_of self.old }
        ensures broken { is_broken self.new ≡ is_broken self.old }
        ensures acknowledged { D.tells → is_broken self.new ≡ false → (c : List ℕ) →
            D.image (disk_of self.new) (D.moment (disk_of self.new)) c → Keeps (R.run (run_of self.new)).history c }
    {
        self.run.look_ahead();
    }
}

impl<D: Disk, R: Asked + Drop> Keep<D, R> {
    ghost use Rattle.flow_keep.specs.Holding.{run_of, disk_of, is_broken};

    /// The disk alone.
    pub fn into_disk(self) -> D
        ensures disk { result ≡ disk_of self }
        ensures seen { D.tells → is_broken self ≡ false → Keeps (R.run (run_of self)).history (D.seen result) }
        ensures acknowledged { D.tells → is_broken self ≡ false → (c : List ℕ) →
            D.image result (D.moment result) c → Keeps (R.run (run_of self)).history c }
    {
        let Keep {
            run,
            disk,
            broken: _,
        } = self;
        drop(run);
        disk
    }
}

impl<D: Disk> Keep<D> {
    ghost use Rattle.flow_keep.specs.Holding.{run_of, disk_of, is_broken};

    /// The kept run, asked from now on through what stands over a run with the same history.
    pub fn through<R: Asked>(self, run: R) -> Keep<D, R>
        requires { (R.run run).history ≡ (run_of self).history }
        ensures run { run_of result ≡ run }
        ensures disk { disk_of result ≡ disk_of self }
        ensures broken { is_broken result ≡ is_broken self }
    {
        let Keep {
            run: core,
            disk,
            broken,
        } = self;
        drop(core);
        Keep { run, disk, broken }
    }
}
