//! A case taken up again: its run makes the entries that are kept.
ghost use Rattle.std.specs.Prelude.{◌≡◌, [], length, false, IfOk, IfErr};
ghost use Rattle.flow_core.specs.Run.{Run};
ghost use Rattle.flow_case.specs.CaseRun.{run_of, case_with, IsFirstUnmade};
ghost use Rattle.flow_keep.specs.Holding as holding;
ghost use Rattle.flow_trail.specs.Held as held;
ghost use Rattle.flow_trail.specs.Lines.{end_of};

use crate::case::Case;
use flow_case::CaseRun;
use flow_disk::Disk;
use flow_keep::Keep;
use flow_trail::Trail;

/// The disks of a case that is not taken up again.
#[derive(Drop)]
pub struct Unresumed<D: Disk, T: Disk> {
    pub keep: D,
    pub trail: T,
    /// The place of the first entry, from 0, that the case may not make after those before it.
    pub index: usize,
}

impl<D: Disk, T: Disk> Case<D, T> {
    ghost use Rattle.flow_case_cli.specs.Held.{case_of, keep_disk, trail_disk, start_of, said_in, is_broken};

    /// The case of a kept run and its trail, which tells as many entries. The run is given as it begins, of the workflow and the limit that the
    /// kept run has.
    pub fn resume(
        run: CaseRun,
        keep: Keep<D>,
        trail: Trail<T>,
    ) -> Result<Case<D, T>, Unresumed<D, T>>
        requires begins { run_of run ≡ record (holding.run_of keep) { history = [] } }
        requires kept { holding.is_broken keep ≡ false }
        requires told { held.is_broken trail ≡ false }
        requires counted { (end_of (held.start_of trail) (held.said_in trail)).count ≡ length (holding.run_of keep).history }
        ensures case { IfOk result (λ c. case_of c ≡ case_with run (holding.run_of keep).history) }
        ensures whole { IfOk result (λ c. is_broken c ≡ false) }
        ensures keep { IfOk result (λ c. keep_disk c ≡ holding.disk_of keep) }
        ensures trail { IfOk result (λ c. trail_disk c ≡ held.disk_of trail) }
        ensures start { IfOk result (λ c. start_of c ≡ held.start_of trail) }
        ensures said { IfOk result (λ c. said_in c ≡ held.said_in trail) }
        // it is refused
        ensures unmade { IfErr result (λ u. IsFirstUnmade run (holding.run_of keep).history u.index) }
        ensures keep_back { IfErr result (λ u. u.keep ≡ holding.disk_of keep) }
        ensures trail_back { IfErr result (λ u. u.trail ≡ held.disk_of trail) }
    {
        let mut run = run;
        match run.follow(keep.core().history()) {
            Ok(()) => Ok(Case {
                run,
                keep,
                trail,
                broken: false,
            }),
            Err(index) => {
                drop(run);
                Err(Unresumed {
                    keep: keep.into_disk(),
                    trail: trail.into_disk(),
                    index,
                })
            }
        }
    }
}
