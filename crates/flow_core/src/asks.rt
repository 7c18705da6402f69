//! What is asked of a run.
ghost use Rattle.std.specs.Prelude.{◌≡◌};

use crate::refusal::{CommitRefusal, DoRefusal, PostRefusal, RewindRefusal, TakeRefusal};
use crate::run::Core;
use flow_model::{Call, FailEffect, Label};
use flow_residual::Given;

impl Core {
    ghost use Rattle.flow_core.specs.Answers.{Takes, Performs, PostsDone, PostsFailed, Rewinds, Commits};
    ghost use Rattle.flow_core.specs.Claim.{IsStanding};
    ghost use Rattle.flow_core.specs.Holding.{MayTake};

    /// Gives a claim on an event's leaf: leave to perform its task.
    pub fn take(&mut self, leaf: u32, by: u32) -> Result<Call, TakeRefusal>
        ensures { Takes self.old leaf by result self.new }
    {
        self.prepare();
        let event = self.may_take(leaf)?;
        Ok(self.give(leaf, event, by))
    }

    /// The leaf's event, where a claim on it may be given, or why not. The first half of `take`: who may refuse a claim for causes of
    /// his own asks this first, and then calls `give`.
    pub fn may_take(&self, leaf: u32) -> Result<u32, TakeRefusal>
        ensures { MayTake self.now leaf result }
    {
        if self.committed {
            return Err(TakeRefusal::Closed);
        }
        if self.leaves() <= leaf {
            return Err(TakeRefusal::NoLeaf);
        }
        let Some(event) = self.event_at(leaf) else {
            return Err(TakeRefusal::WrongKind);
        };
        if !self.has_steps() {
            return Err(TakeRefusal::Spent { limit: self.limit });
        }
        if !self.can_take(leaf) {
            return Err(TakeRefusal::NotEnabled);
        }
        Ok(event)
    }

    /// Does a leaf that is no event: its test holds, or its update is made.
    pub fn perform(&mut self, leaf: u32, by: u32) -> Result<(), DoRefusal>
        ensures { Performs self.old leaf by result self.new }
    {
        self.prepare();
        self.perform_prepared(leaf, by)
    }

    fn perform_prepared(&mut self, leaf: u32, by: u32) -> Result<(), DoRefusal>
        ensures { Performs self.old leaf by result self.new }
    {
        if self.committed {
            return Err(DoRefusal::Closed);
        }
        let Some(label) = self.label_at(leaf) else {
            return Err(DoRefusal::NoLeaf);
        };
        if let Label::Event(_) = label {
            return Err(DoRefusal::WrongKind);
        }
        if !self.has_steps() {
            return Err(DoRefusal::Spent { limit: self.limit });
        }
        if !self.may_be_done(leaf) {
            return Err(DoRefusal::NotEnabled);
        }
        if !self.label_holds(label) {
            return Err(DoRefusal::TestFalse);
        }
        self.record_did(leaf, label, by);
        Ok(())
    }

    /// Posts that the claim's task succeeded: its leaf goes on the journal.
    pub fn done(&mut self, claim: u32, by: u32) -> Result<(), PostRefusal>
        ensures { PostsDone self.old claim by result self.new }
    {
        let given = self.standing(claim, by)?;
        self.record_done(claim, given, by);
        Ok(())
    }

    /// Posts that the claim's task failed. Where some execution goes on without its leaf, the leaf is banned.
    pub fn fail(&mut self, claim: u32, by: u32) -> Result<FailEffect, PostRefusal>
        ensures { PostsFailed self.old claim by result self.new }
    {
        let given = self.standing(claim, by)?;
        if self.can_avoid(given.leaf) {
            self.record_switched(claim, given.leaf, by);
            Ok(FailEffect::Switched)
        } else {
            self.record_kept(claim, by);
            Ok(FailEffect::Kept)
        }
    }

    /// The claim, where a result may be posted for it. A result that comes too late is recorded here.
    fn standing(&mut self, claim: u32, by: u32) -> Result<Given, PostRefusal>
        ensures { IsStanding self.old claim by result self.new }
    {
        if self.committed {
            return Err(PostRefusal::Closed);
        }
        let Some(given) = self.find(claim) else {
            return Err(PostRefusal::NoClaim);
        };
        if given.answered {
            return Err(PostRefusal::Answered);
        }
        if !self.has_steps() {
            return Err(PostRefusal::Spent { limit: self.limit });
        }
        let now = self.epoch();
        if given.epoch < now {
            self.record_late(claim, by);
            return Err(PostRefusal::Late {
                of: given.epoch,
                now,
            });
        }
        Ok(given)
    }

    /// Goes back to the last place at which another choice is still free, and answers that place.
    pub fn rewind(&mut self, by: u32) -> Result<u32, RewindRefusal>
        ensures { Rewinds self.old by result self.new }
    {
        if self.committed {
            return Err(RewindRefusal::Closed);
        }
        if !self.has_steps() {
            return Err(RewindRefusal::Spent { limit: self.limit });
        }
        let Some(index) = self.open_index() else {
            return Err(RewindRefusal::NoChoice);
        };
        self.record_rewound(index, by);
        Ok(index)
    }

    /// Ends the run: its journal is a whole execution.
    pub fn commit(&mut self, by: u32) -> Result<(), CommitRefusal>
        ensures { Commits self.old by result self.new }
    {
        if self.committed {
            return Err(CommitRefusal::Closed);
        }
        if !self.has_steps() {
            return Err(CommitRefusal::Spent { limit: self.limit });
        }
        if let Some(claim) = self.least_claim() {
            return Err(CommitRefusal::ClaimsOut { claim });
        }
        if !self.is_complete() {
            return Err(CommitRefusal::Unfinished);
        }
        self.record_commit(by);
        Ok(())
    }
}
