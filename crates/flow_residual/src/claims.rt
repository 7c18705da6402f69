ghost use Rattle.std.specs.Prelude.{◌≡◌, ◌+◌, ◌^◌, ◌<◌, ◌≤◌, ◌↔◌, IsTrue, IfOk, MatchOption, None, false, [], ◌∷◌, ◌++◌, length, map, slice_get};
ghost use Rattle.flow_model.specs.declared.limits.TheConstants.{MOST_ENTRIES};
ghost use Rattle.flow_model.specs.Lists.{◌∈◌};
ghost use Rattle.flow_model.specs.Schema.{Schema};
ghost use Rattle.flow_model.specs.Run.{Claim, RunState, current_claims, current_leaves, claim_at, IsCurrent, answer, with_new_epoch};
ghost use Rattle.flow_residual.specs.Remaining.{IsOf};
ghost use Rattle.flow_residual.specs.Claimed.{run_of, count_of, IsUnanswered, IsGivenAt, IsLastOn};

use crate::given::{Given, at, index_of, renew};
use crate::residual::Residual;
use crate::spared::thin;
use std::alloc::{AllocError, Global};
use std::marker::Model;

/// The claims that a run has given. All memory is taken when it is made.
#[derive(Drop)]
pub struct Claims {
    given: Vec<Given>,
    /// The places of the current ones, rising.
    current: Vec<u32>,
    /// The leaves of the current ones, in the same order.
    leaves: Vec<u32>,
    /// Of each event, the number of the last claim that was given on it; 0 where none was.
    last: Vec<u32>,
    epoch: u32,
}

impl Model for Claims {
    ghost use Rattle.flow_residual.specs.Claimed.{Claimed, claimed_code};

    ghost Value = { Claimed };

    ghost coded = { claimed_code };

    ghost use Rattle.flow_residual.specs.Fields.{claimed_by, AreInStep};

    ghost view = { claimed_by };

    ghost invariant = { AreInStep };
}

impl Claims {
    /// None given yet, and room for so many, on events below the number of kinds.
    pub fn new(alloc: Global, kinds: u32, room: u32) -> Result<Claims, AllocError>
        requires { room ≤ MOST_ENTRIES }
        ensures { IfOk result (λ claims. claims ≡ record { claims = []; events = []; takers = []; epoch = 0; room = room; kinds = kinds }) }
    {
        Ok(Claims {
            given: Vec::with_capacity(alloc, room as usize)?,
            current: Vec::with_capacity(alloc, room as usize)?,
            leaves: Vec::with_capacity(alloc, room as usize)?,
            last: vec![in alloc; 0; kinds as usize]?,
            epoch: 0,
        })
    }

    /// How many were given.
    #[tactic(auto, using(crate::proofs::Numbering::claims_counted))]
    pub fn count(&self) -> u32
        ensures given { result ≡ length self.now.claims }
        ensures room { result ≤ self.now.room }
    {
        self.given.len() as u32
    }

    /// The present epoch.
    pub fn epoch(&self) -> u32
        ensures { result ≡ self.now.epoch }
    {
        self.epoch
    }

    /// The claim of the number, if it was given.
    pub fn find(&self, claim: u32) -> Option<Given>
        ensures { MatchOption result (claim_at (run_of self.now) claim ≡ None) (IsGivenAt self.now claim) }
    {
        let given = &self.given;
        if claim == 0 {
            return None;
        }
        at(given, claim - 1)
    }

    /// Whether the claim is unanswered and of the present epoch.
    pub fn is_current(&self, claim: u32) -> bool
        ensures { IsTrue result ↔ IsCurrent (run_of self.now) claim }
    {
        match self.find(claim) {
            Some(given) => !given.answered && given.epoch == self.epoch,
            None => false,
        }
    }

    /// The leaves of the current claims, in the order in which these were given.
    pub fn leaves(&self) -> &[u32]
        ensures { result.now ≡ current_leaves (run_of self.now) }
    {
        &self.leaves
    }

    /// Whether a current claim is on the leaf.
    pub fn has_leaf(&self, leaf: u32) -> bool
        ensures { IsTrue result ↔ (leaf ∈ current_leaves (run_of self.now)) }
    {
        self.leaves.contains(&leaf)
    }

    /// The number of the first current claim.
    pub fn least(&self) -> Option<u32>
        ensures { result ≡ slice_get (map (λ (claim : Claim). claim.number) (current_claims (run_of self.now))) 0 }
    {
        match self.current.first() {
            Some(place) => Some(*place + 1),
            None => None,
        }
    }

    /// The last claim that was given on the event, if any was.
    pub fn last_on(&self, event: u32) -> Option<Given>
        ensures { MatchOption result (¬ (event ∈ self.now.events)) (IsLastOn self.now event) }
    {
        if self.last.len() <= event as usize {
            return None;
        }
        self.find(self.last[event as usize])
    }

    /// How many claims were given on the event.
    fn attempts(&self, event: u32) -> u32
        ensures { result ≡ count_of event self.now.events }
    {
        match self.last_on(event) {
            Some(given) => given.attempt,
            None => 0,
        }
    }

    /// One more is given to the caller, on the leaf of the event. Returns which attempt at the event it is.
    pub fn give(&mut self, leaf: u32, event: u32, by: u32) -> u32
        requires room { length self.old.claims < self.old.room }
        requires kind { event < self.old.kinds }
        ensures value { self.new ≡ record self.old {
          claims = self.old.claims ++ record { number = length self.old.claims + 1; leaf = leaf; epoch = self.old.epoch; answered = false } ∷ [];
          events = self.old.events ++ event ∷ [];
          takers = self.old.takers ++ by ∷ [];
        } }
        ensures attempt { result ≡ count_of event self.old.events + 1 }
    {
        let place = self.given.len() as u32;
        let attempt = self.attempts(event) + 1;
        let given = Given {
            leaf,
            event,
            by,
            epoch: self.epoch,
            attempt,
            answered: false,
        };
        self.last[event as usize] = place + 1;
        self.given.push_reserved(given);
        self.current.push_reserved(place);
        self.leaves.push_reserved(leaf);
        attempt
    }

    /// The claim is answered.
    pub fn answer(&mut self, claim: u32)
        requires { IsUnanswered (run_of self.old) claim }
        ensures { self.new ≡ record self.old { claims = answer claim self.old.claims } }
    {
        let given = &mut self.given;
        let place = claim - 1;
        given[place as usize].answered = true;
        if let Some(index) = index_of(&self.current, place) {
            self.current.remove(index);
            self.leaves.remove(index);
        }
    }

    /// A new epoch begins. Of the current claims, only those stay current that are spared.
    pub fn raise(&mut self, residual: &Residual)
        requires { self.old.epoch + 1 < 2 ^ 32 }
        ensures claims { (w : Schema) (s : RunState) → s.claims ≡ self.old.claims → s.epoch ≡ self.old.epoch → IsOf w s residual.now →
            self.new.claims ≡ (with_new_epoch w s).claims }
        ensures others { self.new ≡ record self.old { claims = self.new.claims; epoch = self.old.epoch + 1 } }
    {
        let kept = thin(residual, &mut self.current, &mut self.leaves);
        self.current.truncate(kept);
        self.leaves.truncate(kept);
        self.epoch += 1;
        renew(&mut self.given, &self.current, self.epoch);
    }
}
