ghost use Rattle.std.specs.Prelude.{◌≡◌, ◌+◌, ◌-◌, ◌^◌, ◌<◌, ◌≤◌, length, take, false, true};
ghost use Rattle.flow_ask.specs.declared.ask.Ask.TheVariants as ask;
ghost use Rattle.flow_core.specs.Answers.{Takes, Performs, PostsDone, PostsFailed, Rewinds, Commits};
ghost use Rattle.flow_core.specs.Ask.{HasOneMore};
ghost use Rattle.flow_model.specs.Lists.{Each};
ghost use Rattle.flow_record.specs.History.{IsSmall};
ghost use Rattle.flow_keep.specs.Kept.{IsKept};
ghost use Rattle.flow_keep.specs.Answered.{IsTold, CountsKept, CountsDisk, IsKeptAnswer, LeavesKept, front};

use crate::keep::{Keep, keep_last};
use crate::refusal::KeptRefusal;
use flow_ask::{Answer, Ask, Refusal};
use flow_core::{
    Asked, CommitRefusal, Core, DoRefusal, FailEffect, PostRefusal, RewindRefusal, TakeRefusal,
};
use flow_disk::{Disk, DiskFailed};
use flow_model::Call;

/// The answer, once the entry that came with it, where one came, is in the file. Where the disk fails, all is broken from now on.
#[tactic(auto, using(crate::proofs::AnswerLemmas::leaves_of))]
fn answer_kept<D: Disk, A: Copy, R: Copy>(
    disk: &mut D,
    core: &Core,
    count: usize,
    answer: Result<A, R>,
    broken: &mut bool,
) -> Result<A, KeptRefusal<R>>
    requires faults { D.faults disk.old < 2 ^ 64 - 1 }
    requires counted { count ≤ length core.now.history }
    requires one { length core.now.history ≤ count + 1 }
    requires kept { D.tells → IsKept (take count core.now.history) (D.seen disk.old) (D.image disk.old (D.moment disk.old)) }
    requires whole { broken.old ≡ false }
    ensures told { IsTold answer broken.new result }
    ensures fault { CountsKept (D.faults disk.old) (D.faults disk.new) result }
    ensures counts { CountsDisk false broken.new (D.faults disk.old) (D.faults disk.new) }
    ensures kept { broken.new ≡ false → D.tells →
        IsKept core.now.history (D.seen disk.new) (D.image disk.new (D.moment disk.new)) }
    ensures leaves { LeavesKept D.tells D.moment D.image D.seen D.chosen (front count core.now) core.now disk.old disk.new broken.old broken.new }
    ensures small { Each IsSmall (take count core.now.history) → Each IsSmall core.now.history }
    ensures made { broken.new ≡ true → length core.now.history ≡ count + 1 }
{
    match keep_last(disk, core, count) {
        Ok(()) => match answer {
            Ok(value) => Ok(value),
            Err(refusal) => Err(KeptRefusal::Core(refusal)),
        },
        Err(DiskFailed) => {
            *broken = true;
            Err(KeptRefusal::DiskFault)
        }
    }
}

impl<D: Disk, R: Asked> Keep<D, R> {
    ghost use Rattle.flow_core.specs.Ask.{GrowsAtMost};
    ghost use Rattle.flow_keep.specs.Answered.{KeepAnswers};
    ghost use Rattle.flow_keep.specs.Holding.{run_of, disk_of, is_broken};

    /// Asks the run, keeps the entry that came of it, also one that came with a refusal, and only then answers.
    #[tactic(auto, using(crate::proofs::AnswerLemmas::leaves_since, crate::proofs::AnswerLemmas::leaves_all, crate::proofs::AnswerLemmas::counts_nothing, crate::proofs::AnswerLemmas::still_counts))]
    pub fn answer(&mut self, ask: Ask, by: u32) -> Answer
        requires run { R.can_be_asked (run_of self.old) }
        requires faults { is_broken self.old ≡ false → D.faults (disk_of self.old) < 2 ^ 64 - 1 }
        ensures answer { KeepAnswers R.run R.answers (is_broken self.old) (run_of self.old) ask by result (is_broken self.new) (run_of self.new) }
        ensures grows { GrowsAtMost (R.run (run_of self.old)) ask by (R.run (run_of self.new)) }
        ensures run { R.can_be_asked (run_of self.new) }
        ensures counts { is_broken self.new ≡ false → D.faults (disk_of self.new) < 2 ^ 64 - 1 }
        ensures fault { CountsDisk (is_broken self.old) (is_broken self.new) (D.faults (disk_of self.old)) (D.faults (disk_of self.new)) }
        ensures leaves { LeavesKept D.tells D.moment D.image D.seen D.chosen (R.run (run_of self.old)) (R.run (run_of self.new))
            (disk_of self.old) (disk_of self.new) (is_broken self.old) (is_broken self.new) }
    {
        if self.broken {
            return Err(Refusal::Broken);
        }
        let count = self.run.core().history().len();
        let answer = self.run.answer(ask, by);
        Ok(answer_kept(
            &mut self.disk,
            self.run.core(),
            count,
            answer,
            &mut self.broken,
        )?)
    }
}

// The same, each with refusals of its own.
impl<D: Disk> Keep<D> {
    ghost use Rattle.flow_keep.specs.Holding.{run_of, disk_of, is_broken};

    /// Gives a claim on an event's leaf.
    #[tactic(auto, using(crate::proofs::AnswerLemmas::told_answer, crate::proofs::AnswerLemmas::leaves_since, crate::proofs::AnswerLemmas::leaves_all, crate::proofs::AnswerLemmas::takes_grow))]
    pub fn take(&mut self, leaf: u32, by: u32) -> Result<Call, KeptRefusal<TakeRefusal>>
        requires { D.faults (disk_of self.old) < 2 ^ 64 - 1 }
        ensures answer { IsKeptAnswer (Takes (run_of self.old) leaf by) (HasOneMore (run_of self.old) (ask.Take leaf) by)
            (is_broken self.old) (run_of self.old) result (is_broken self.new) (run_of self.new) }
        ensures fault { CountsKept (D.faults (disk_of self.old)) (D.faults (disk_of self.new)) result }
        ensures leaves { LeavesKept D.tells D.moment D.image D.seen D.chosen (run_of self.old) (run_of self.new)
            (disk_of self.old) (disk_of self.new) (is_broken self.old) (is_broken self.new) }
    {
        if self.broken {
            return Err(KeptRefusal::Broken);
        }
        let count = self.run.history().len();
        let answer = self.run.take(leaf, by);
        answer_kept(&mut self.disk, &self.run, count, answer, &mut self.broken)
    }

    /// Does a leaf that is no event.
    #[tactic(auto, using(crate::proofs::AnswerLemmas::told_answer, crate::proofs::AnswerLemmas::leaves_since, crate::proofs::AnswerLemmas::leaves_all, crate::proofs::AnswerLemmas::performs_grow))]
    pub fn perform(&mut self, leaf: u32, by: u32) -> Result<(), KeptRefusal<DoRefusal>>
        requires { D.faults (disk_of self.old) < 2 ^ 64 - 1 }
        ensures answer { IsKeptAnswer (Performs (run_of self.old) leaf by) (HasOneMore (run_of self.old) (ask.Do leaf) by)
            (is_broken self.old) (run_of self.old) result (is_broken self.new) (run_of self.new) }
        ensures fault { CountsKept (D.faults (disk_of self.old)) (D.faults (disk_of self.new)) result }
        ensures leaves { LeavesKept D.tells D.moment D.image D.seen D.chosen (run_of self.old) (run_of self.new)
            (disk_of self.old) (disk_of self.new) (is_broken self.old) (is_broken self.new) }
    {
        if self.broken {
            return Err(KeptRefusal::Broken);
        }
        let count = self.run.history().len();
        let answer = self.run.perform(leaf, by);
        answer_kept(&mut self.disk, &self.run, count, answer, &mut self.broken)
    }

    /// Posts that the claim's task succeeded. One that comes too late is kept too, before it is refused.
    #[tactic(auto, using(crate::proofs::AnswerLemmas::told_answer, crate::proofs::AnswerLemmas::leaves_since, crate::proofs::AnswerLemmas::leaves_all, crate::proofs::AnswerLemmas::done_grow))]
    pub fn done(&mut self, claim: u32, by: u32) -> Result<(), KeptRefusal<PostRefusal>>
        requires { D.faults (disk_of self.old) < 2 ^ 64 - 1 }
        ensures answer { IsKeptAnswer (PostsDone (run_of self.old) claim by) (HasOneMore (run_of self.old) (ask.Done claim) by)
            (is_broken self.old) (run_of self.old) result (is_broken self.new) (run_of self.new) }
        ensures fault { CountsKept (D.faults (disk_of self.old)) (D.faults (disk_of self.new)) result }
        ensures leaves { LeavesKept D.tells D.moment D.image D.seen D.chosen (run_of self.old) (run_of self.new)
            (disk_of self.old) (disk_of self.new) (is_broken self.old) (is_broken self.new) }
    {
        if self.broken {
            return Err(KeptRefusal::Broken);
        }
        let count = self.run.history().len();
        let answer = self.run.done(claim, by);
        answer_kept(&mut self.disk, &self.run, count, answer, &mut self.broken)
    }

    /// Posts that the claim's task failed. One that comes too late is kept too, before it is refused.
    #[tactic(auto, using(crate::proofs::AnswerLemmas::told_answer, crate::proofs::AnswerLemmas::leaves_since, crate::proofs::AnswerLemmas::leaves_all, crate::proofs::AnswerLemmas::failed_grow))]
    pub fn fail(&mut self, claim: u32, by: u32) -> Result<FailEffect, KeptRefusal<PostRefusal>>
        requires { D.faults (disk_of self.old) < 2 ^ 64 - 1 }
        ensures answer { IsKeptAnswer (PostsFailed (run_of self.old) claim by) (HasOneMore (run_of self.old) (ask.Fail claim) by)
            (is_broken self.old) (run_of self.old) result (is_broken self.new) (run_of self.new) }
        ensures fault { CountsKept (D.faults (disk_of self.old)) (D.faults (disk_of self.new)) result }
        ensures leaves { LeavesKept D.tells D.moment D.image D.seen D.chosen (run_of self.old) (run_of self.new)
            (disk_of self.old) (disk_of self.new) (is_broken self.old) (is_broken self.new) }
    {
        if self.broken {
            return Err(KeptRefusal::Broken);
        }
        let count = self.run.history().len();
        let answer = self.run.fail(claim, by);
        answer_kept(&mut self.disk, &self.run, count, answer, &mut self.broken)
    }

    /// Goes back to the last place at which another choice is still free.
    #[tactic(auto, using(crate::proofs::AnswerLemmas::told_answer, crate::proofs::AnswerLemmas::leaves_since, crate::proofs::AnswerLemmas::leaves_all, crate::proofs::AnswerLemmas::rewinds_grow))]
    pub fn rewind(&mut self, by: u32) -> Result<u32, KeptRefusal<RewindRefusal>>
        requires { D.faults (disk_of self.old) < 2 ^ 64 - 1 }
        ensures answer { IsKeptAnswer (Rewinds (run_of self.old) by) (HasOneMore (run_of self.old) ask.Rewind by)
            (is_broken self.old) (run_of self.old) result (is_broken self.new) (run_of self.new) }
        ensures fault { CountsKept (D.faults (disk_of self.old)) (D.faults (disk_of self.new)) result }
        ensures leaves { LeavesKept D.tells D.moment D.image D.seen D.chosen (run_of self.old) (run_of self.new)
            (disk_of self.old) (disk_of self.new) (is_broken self.old) (is_broken self.new) }
    {
        if self.broken {
            return Err(KeptRefusal::Broken);
        }
        let count = self.run.history().len();
        let answer = self.run.rewind(by);
        answer_kept(&mut self.disk, &self.run, count, answer, &mut self.broken)
    }

    /// Ends the run: its journal is a whole execution.
    #[tactic(auto, using(crate::proofs::AnswerLemmas::told_answer, crate::proofs::AnswerLemmas::leaves_since, crate::proofs::AnswerLemmas::leaves_all, crate::proofs::AnswerLemmas::commits_grow))]
    pub fn commit(&mut self, by: u32) -> Result<(), KeptRefusal<CommitRefusal>>
        requires { D.faults (disk_of self.old) < 2 ^ 64 - 1 }
        ensures answer { IsKeptAnswer (Commits (run_of self.old) by) (HasOneMore (run_of self.old) ask.Commit by)
            (is_broken self.old) (run_of self.old) result (is_broken self.new) (run_of self.new) }
        ensures fault { CountsKept (D.faults (disk_of self.old)) (D.faults (disk_of self.new)) result }
        ensures leaves { LeavesKept D.tells D.moment D.image D.seen D.chosen (run_of self.old) (run_of self.new)
            (disk_of self.old) (disk_of self.new) (is_broken self.old) (is_broken self.new) }
    {
        if self.broken {
            return Err(KeptRefusal::Broken);
        }
        let count = self.run.history().len();
        let answer = self.run.commit(by);
        answer_kept(&mut self.disk, &self.run, count, answer, &mut self.broken)
    }
}
