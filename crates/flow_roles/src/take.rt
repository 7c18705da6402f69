ghost use Rattle.std.specs.Prelude.{◌≡◌, ◌↔◌, ℕ, IsTrue, IsOk, MatchOption};
ghost use Rattle.flow_core.specs.Holding.{IsTakeable};
ghost use Rattle.flow_core.specs.Answers.{IsLeast};

use crate::desk::Desk;
use crate::refusal::{Denied, DutyRefusal};
use flow_core::{Call, FailEffect, PostRefusal, TakeRefusal};

impl Desk {
    ghost use Rattle.flow_roles.specs.Having.{HasEvent, IsWithAnother, IsOfAnother};
    ghost use Rattle.flow_roles.specs.Answers.{IsKeptApart, IsTiedElsewhere, IsLeftTo, IsLeftAt, IsDenied, DeskTakes, DeskPostsDone, DeskPostsFailed};

    /// Gives the user a claim on an event's leaf. What the run says against it comes first, then what the duties say.
    pub fn take(&mut self, leaf: u32, by: u32) -> Result<Call, DutyRefusal<TakeRefusal>>
        ensures answers { DeskTakes self.old leaf by result self.new }
        ensures allowed_exactly { IsOk result ↔ (IsTakeable self.old.run leaf × IsLeftAt self.old leaf by) }
    {
        let event = match self.core.may_take(leaf) {
            Ok(event) => event,
            Err(refusal) => return Err(DutyRefusal::Core(refusal)),
        };
        match self.denial(event, by) {
            Some(denied) => Err(DutyRefusal::Denied(denied)),
            None => Ok(self.core.give(leaf, event, by)),
        }
    }

    /// Posts that the claim's task succeeded, for the user who took it.
    pub fn done(&mut self, claim: u32, by: u32) -> Result<(), DutyRefusal<PostRefusal>>
        ensures { DeskPostsDone self.old claim by result self.new }
    {
        if self.is_of_another(claim, by) {
            return Err(DutyRefusal::Denied(Denied::Holder(claim)));
        }
        self.core.done(claim, by).map_err(DutyRefusal::Core)
    }

    /// Posts that the claim's task failed, for the user who took it.
    pub fn fail(&mut self, claim: u32, by: u32) -> Result<FailEffect, DutyRefusal<PostRefusal>>
        ensures { DeskPostsFailed self.old claim by result self.new }
    {
        if self.is_of_another(claim, by) {
            return Err(DutyRefusal::Denied(Denied::Holder(claim)));
        }
        self.core.fail(claim, by).map_err(DutyRefusal::Core)
    }

    /// Whether a result may be posted for the claim, late or not, and another took it.
    fn is_of_another(&self, claim: u32, by: u32) -> bool
        ensures { IsOfAnother self.now claim by result }
    {
        match self.core.holder_of(claim) {
            Some(holder) => holder != by,
            None => false,
        }
    }

    /// The first duty that keeps the event from the user.
    pub(crate) fn denial(&self, event: u32, by: u32) -> Option<Denied>
        ensures { MatchOption result (IsLeftTo self.now by event) (IsDenied self.now by event) }
    {
        if !self.policy.has_role(by, event) {
            return Some(Denied::Role);
        }
        if let Some(index) = self.separated_by(event, by) {
            return Some(Denied::Separate(index));
        }
        let index = self.bound_by(event, by)?;
        Some(Denied::Bind(index))
    }

    /// The least constraint by which the event is not for the user, who has another event.
    fn separated_by(&self, event: u32, by: u32) -> Option<u32>
        ensures { MatchOption result ((i : ℕ) → ¬ (IsKeptApart self.now by event i)) (IsLeast (IsKeptApart self.now by event)) }
    {
        let ties = self.policy.separations(event);
        for apart in ties {
            if self.has(apart.other, by) {
                return Some(apart.index);
            }
        }
        None
    }

    /// The least constraint by which the event is for the one who has another event, and that is another user.
    fn bound_by(&self, event: u32, by: u32) -> Option<u32>
        ensures { MatchOption result ((i : ℕ) → ¬ (IsTiedElsewhere self.now by event i)) (IsLeast (IsTiedElsewhere self.now by event)) }
    {
        let ties = self.policy.bindings(event);
        for bound in ties {
            if self.is_with_another(bound.other, by) {
                return Some(bound.index);
            }
        }
        None
    }

    /// Whether the user has the event: a leaf of it, done or under a claim that is out.
    fn has(&self, event: u32, by: u32) -> bool
        ensures { IsTrue result ↔ HasEvent self.now event by }
    {
        match self.core.taker_of_event(event) {
            Some(taker) => taker == by,
            None => false,
        }
    }

    /// Whether another user has the event.
    fn is_with_another(&self, event: u32, by: u32) -> bool
        ensures { IsTrue result ↔ IsWithAnother self.now event by }
    {
        let Some(taker) = self.core.taker_of_event(event) else {
            return false;
        };
        taker != by
    }
}
