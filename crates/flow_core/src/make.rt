ghost use Rattle.std.specs.Prelude.{◌≡◌, ◌↔◌, [], ◌∷◌, ◌++◌, false, IsTrue};
ghost use Rattle.flow_model.specs.Run.{IsCurrent, IsLegal};

use crate::refusal::PostRefusal;
use crate::run::Core;
use flow_model::{Entry, FailEffect, Step};

impl Core {
    ghost use Rattle.flow_core.specs.Run.{schema, now, with_entry};
    ghost use Rattle.flow_core.specs.Answers.{HasEffect};
    ghost use Rattle.flow_core.specs.Make.{CanMake, Makes};

    /// Makes that very entry, with its caller, where it may be made next; else nothing changes. Takes no memory. A loop of it over a
    /// history opens one that was kept, and tells whether one that somebody sent is legal.
    pub fn make(&mut self, entry: Entry) -> bool
        ensures made { IsTrue result → self.new ≡ with_entry self.old entry.by entry.step }
        ensures kept { result ≡ false → self.new ≡ self.old }

        // By the step table alone, and by what histories are legal.
        ensures allowed { IsTrue result ↔ CanMake self.old entry.step }
        ensures legal { IsTrue result ↔ IsLegal (schema self.old) self.old.limit (self.old.history ++ entry ∷ []) }
    {
        // brings what the run keeps: its history so far is legal, on which the last clause rests
        let _ = &self.history;
        self.make_step(entry.step, entry.by)
    }

    /// Makes an entry of that step, where it may be made next: where the run is asked for it, and answers with it.
    #[tactic(auto, using(crate::proofs::MakeByAsks::taken, crate::proofs::MakeByAsks::performed, crate::proofs::MakeByAsks::posted_done, crate::proofs::MakeByAsks::posted_failed))]
    fn make_step(&mut self, step: Step, by: u32) -> bool
        ensures { Makes self.old by step result self.new }
    {
        match step {
            Step::Took { claim, leaf } => claim == self.next_claim() && self.take(leaf, by).is_ok(),
            Step::Done { claim } => self.is_current(claim) && self.done(claim, by).is_ok(),
            Step::Failed { claim, effect } => self.would_have(claim, effect)
                && self.fail(claim, by).is_ok(),
            Step::Late { claim } => self.is_lapsed(claim)
                && matches!(self.done(claim, by), Err(PostRefusal::Late { .. })),
            Step::Did { leaf } => self.perform(leaf, by).is_ok(),
            Step::Rewound { index } => self.open_index() == Some(index) && self.rewind(by).is_ok(),
            Step::Committed => self.commit(by).is_ok(),
        }
    }

    /// Whether the claim is current, and its failure has that effect.
    fn would_have(&self, claim: u32, effect: FailEffect) -> bool
        ensures { IsTrue result ↔ (IsCurrent (now self.now) claim × HasEffect self.now claim effect) }
    {
        let Some(given) = self.find_current(claim) else {
            return false;
        };
        match effect {
            FailEffect::Switched => self.can_avoid(given.leaf),
            FailEffect::Kept => !self.can_avoid(given.leaf),
        }
    }
}
