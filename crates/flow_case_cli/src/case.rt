ghost use Rattle.std.specs.Prelude.{◌≡◌, false, length};
ghost use Rattle.flow_case.specs.CaseRun.{run_of};
ghost use Rattle.flow_keep.specs.Holding as holding;
ghost use Rattle.flow_trail.specs.Held as held;
ghost use Rattle.flow_trail.specs.Lines.{end_of};

use flow_case::CaseRun;
use flow_disk::Disk;
use flow_keep::Keep;
use flow_trail::Trail;

/// A case: its run under its policy, which is asked; the same run without a policy, which is kept in a file entry by entry; and the trail,
/// which tells each entry in a file of its own before the entry is kept.
#[derive(Drop)]
pub struct Case<D: Disk, T: Disk> {
    pub(crate) run: CaseRun,
    pub(crate) keep: Keep<D>,
    pub(crate) trail: Trail<T>,
    pub(crate) broken: bool,
    ghost same: { broken ≡ false → holding.run_of keep ≡ run_of run },
    ghost kept: { broken ≡ false → holding.is_broken keep ≡ false },
    ghost told: { broken ≡ false → held.is_broken trail ≡ false },
    ghost counted: { broken ≡ false → (end_of (held.start_of trail) (held.said_in trail)).count ≡ length (run_of run).history },
}
