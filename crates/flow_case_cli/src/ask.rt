ghost use Rattle.std.specs.Prelude.{◌≡◌, ◌⊎◌, ◌-◌, ◌+◌, ◌^◌, ◌<◌, ◌∷◌, ◌++◌, [], ℕ, List, length, true, false, Err, IfOk, OnOk};
ghost use Rattle.flow_ask.specs.declared.refusal.Refusal.TheVariants as refusal;
ghost use Rattle.flow_core.specs.Ask.{HasOneMore, GrowsAtMost};
ghost use Rattle.flow_keep.specs.Answered.{KeepAnswers, LeavesKept};
ghost use Rattle.flow_keep.specs.Records.{Keeps};
ghost use Rattle.flow_case.specs.CaseRun.{run_of, CaseAnswers};
ghost use Rattle.flow_trail.specs.Lines.{Said, end_of, Says};
ghost use Rattle.flow_case_cli.specs.Line.{TellsEntry};
ghost use Rattle.flow_case_cli.specs.Asked.{TellsLine, IsToldFirst};

use crate::asker::Asker;
use crate::case::Case;
use crate::keep_last::keep_last;
use crate::line::leaf_of;
use crate::tell::tell_last;
use flow_ask::{Answer, Ask, Refusal};
use flow_core::Asked;
use flow_disk::Disk;
use std::alloc::Global;

impl<D: Disk, T: Disk> Case<D, T> {
    ghost use Rattle.flow_case_cli.specs.Held.{case_of, keep_disk, trail_disk, start_of, said_in, is_broken};

    /// Asks the case one thing. The entry that comes of it is told in the trail, then kept, and only then answered. Where a disk fails, or
    /// memory is wanting once the run has answered, the case is broken: nothing is done any more, and it has to be opened again.
    pub fn ask(&mut self, alloc: Global, ask: Ask, by: u32, asker: Asker<'_>) -> Answer
        requires keep_faults { is_broken self.old ≡ false → D.faults (keep_disk self.old) < 2 ^ 64 - 1 }
        requires trail_faults { is_broken self.old ≡ false → T.faults (trail_disk self.old) < 2 ^ 64 - 1 }
        ensures answer { KeepAnswers run_of CaseAnswers (is_broken self.old) (case_of self.old) ask by result (is_broken self.new) (case_of self.new) }
        ensures start { start_of self.new ≡ start_of self.old }
        ensures keep_faults { is_broken self.new ≡ false → D.faults (keep_disk self.new) ≡ D.faults (keep_disk self.old) }
        ensures trail_faults { is_broken self.new ≡ false → T.faults (trail_disk self.new) ≡ T.faults (trail_disk self.old) }
        // where no entry comes, nothing is written
        ensures idle { run_of (case_of self.new) ≡ run_of (case_of self.old) →
            (keep_disk self.new ≡ keep_disk self.old) × (trail_disk self.new ≡ trail_disk self.old) × (said_in self.new ≡ said_in self.old) }
        // where one comes, the trail tells it, and then the run is kept
        ensures told { is_broken self.old ≡ false → (run_of (case_of self.new) ≡ run_of (case_of self.old)) ⊎ ((said : Said)
            × (is_broken self.new ≡ false → TellsEntry (run_of (case_of self.old)) ask by (run_of (case_of self.new)) asker.entry said)
            × TellsLine T.tells T.moment T.image (start_of self.old) (said_in self.old) said (trail_disk self.old) (trail_disk self.new) (said_in self.new) (is_broken self.new)
            × IsToldFirst T.tells T.moment T.image (start_of self.old) (said_in self.old) said (keep_disk self.old) (keep_disk self.new) (trail_disk self.new)) }
        ensures kept { LeavesKept D.tells D.moment D.image D.seen D.chosen (run_of (case_of self.old)) (run_of (case_of self.new))
            (keep_disk self.old) (keep_disk self.new) (is_broken self.old) (is_broken self.new) }
    {
        if self.broken {
            return Err(Refusal::Broken);
        }
        let count = self.run.core().history().len();
        let leaf = leaf_of(self.run.core(), ask);
        let answer = Asked::answer(&mut self.run, ask, by);
        self.broken = true;
        tell_last(alloc, &mut self.trail, self.run.core(), count, leaf, asker)?;
        keep_last(&mut self.keep, self.run.core(), ask, by)?;
        self.broken = false;
        answer
    }
}
