//! The claims of a run.
ghost use Rattle.std.specs.Prelude.{◌≡◌, ◌↔◌, ◌⊎◌, [], IsTrue, None, Some, MatchOption};
ghost use Rattle.flow_model.specs.Lists.{◌∈◌};
ghost use Rattle.flow_model.specs.Run.{claim_at, current_claims, IsCurrent, IsLapsed};
ghost use Rattle.flow_model.specs.Takers.{taker_of};
ghost use Rattle.flow_model.specs.Verdict.{call_of};
ghost use Rattle.flow_residual.specs.Given.{is_out};

use crate::run::Core;
use flow_model::Call;
use flow_residual::Given;

impl Core {
    ghost use Rattle.flow_core.specs.Run.{schema, now};
    ghost use Rattle.flow_core.specs.Answers.{IsLeast, IsUnanswered, next_claim};
    ghost use Rattle.flow_core.specs.Claim.{IsGiven};
    ghost use Rattle.flow_core.specs.Holding.{MayPost, NoneHas, IsTheTaker};

    /// The claim of that number.
    pub(crate) fn find(&self, claim: u32) -> Option<Given>
        ensures { MatchOption result (claim_at (now self.now) claim ≡ None) (IsGiven self.now claim) }
    {
        self.claims.find(claim)
    }

    /// The claim of that number, where it is current.
    pub(crate) fn find_current(&self, claim: u32) -> Option<Given>
        ensures { MatchOption result (¬ (IsCurrent (now self.now) claim)) (λ given. IsCurrent (now self.now) claim × IsGiven self.now claim given) }
    {
        let given = self.find(claim)?;
        if self.is_current(claim) {
            Some(given)
        } else {
            None
        }
    }

    /// Whether the claim was given, is unanswered and of the present epoch.
    pub fn is_current(&self, claim: u32) -> bool
        ensures { IsTrue result ↔ IsCurrent (now self.now) claim }
    {
        self.claims.is_current(claim)
    }

    /// Whether the claim is unanswered and of an older epoch.
    pub(crate) fn is_lapsed(&self, claim: u32) -> bool
        ensures { IsTrue result ↔ IsLapsed (now self.now) claim }
    {
        match self.find(claim) {
            Some(given) => !given.answered && given.epoch < self.epoch(),
            None => false,
        }
    }

    /// The least claim that is out.
    pub fn least_claim(&self) -> Option<u32>
        ensures { MatchOption result (current_claims (now self.now) ≡ []) (IsLeast (IsCurrent (now self.now))) }
    {
        self.claims.least()
    }

    /// The number of the next claim.
    pub(crate) fn next_claim(&self) -> u32
        ensures { result ≡ next_claim self.now }
    {
        self.claims.count() + 1
    }

    /// The call of a claim that is not answered.
    pub fn call_of(&self, claim: u32) -> Option<Call>
        ensures { MatchOption result (¬ (IsUnanswered (now self.now) claim))
            (λ call. IsUnanswered (now self.now) claim × (call ≡ call_of (schema self.now) (now self.now) claim)) }
    {
        let given = self.find(claim)?;
        if given.answered {
            return None;
        }
        Some(Call {
            claim,
            leaf: given.leaf,
            event: given.event,
            attempt: given.attempt,
            note: self.workflow.notes()[given.event as usize],
        })
    }

    /// Who took the claim, where a result may be posted for it, and be it too late.
    pub fn holder_of(&self, claim: u32) -> Option<u32>
        ensures { MatchOption result (¬ (MayPost self.now claim)) (λ by. MayPost self.now claim × (taker_of self.now.history claim ≡ Some by)) }
    {
        if self.committed || !self.has_steps() {
            return None;
        }
        let given = self.find(claim)?;
        if given.answered { None } else { Some(given.by) }
    }

    /// Who has the event: the taker of its one leaf that is done or under a claim that is out. Takes constant time.
    pub fn taker_of_event(&self, event: u32) -> Option<u32>
        ensures { MatchOption result (NoneHas self.now event) (IsTheTaker self.now event) }
    {
        let given = self.claims.last_on(event)?;
        if self.still_has_leaf(given) {
            Some(given.by)
        } else {
            None
        }
    }

    /// Whether the claim is out, or its leaf is done.
    fn still_has_leaf(&self, given: Given) -> bool
        ensures { IsTrue result ↔ (IsTrue (is_out (now self.now).epoch given) ⊎ (given.leaf ∈ (now self.now).journal)) }
    {
        let out = !given.answered && given.epoch == self.epoch();
        out || self.is_done(given.leaf)
    }
}
