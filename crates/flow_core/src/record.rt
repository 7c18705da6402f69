//! The entries of a run, each with what it changes.
ghost use Rattle.std.specs.Prelude.{◌≡◌, ℕ, List, Some, [], slice_get};
ghost use Rattle.flow_model.specs.declared.history.FailEffect.TheVariants as effects;
ghost use Rattle.flow_model.specs.declared.history.Step.TheVariants.{Took, Done, Failed, Late, Did, Rewound, Committed};
ghost use Rattle.flow_model.specs.Facts.{Holds, event_at};
ghost use Rattle.flow_model.specs.Lists.{◌∈◌};
ghost use Rattle.flow_model.specs.Schema.{IsGood};
ghost use Rattle.flow_model.specs.Run.{current_claims, database, leaf_of_claim, CanDoAside, CanTake, IsCurrent, IsFree, IsLapsed, IsOpenIndex};
ghost use Rattle.flow_model.specs.Verdict.{call_of};
ghost use Rattle.flow_residual.specs.Remaining.{IsAvoidable};

use crate::run::{Core, enter};
use flow_model::{Call, FailEffect, Label, Step};
use flow_residual::Given;

impl Core {
    ghost use Rattle.flow_core.specs.Run.{schema, now, with_entry, IsUncommitted, HasEntryLeft};
    ghost use Rattle.flow_core.specs.Answers.{next_claim};
    ghost use Rattle.flow_core.specs.Claim.{IsGiven};

    /// Gives the claim that `may_take` allowed: nothing is asked again.
    pub fn give(&mut self, leaf: u32, event: u32, by: u32) -> Call
        requires open { IsUncommitted self.old }
        requires steps { HasEntryLeft self.old }
        requires event { event_at (schema self.old).labels leaf ≡ Some event }
        requires enabled { CanTake (schema self.old) (now self.old) leaf }
        ensures entry { self.new ≡ with_entry self.old by (Took (next_claim self.old) leaf) }
        ensures call { result ≡ call_of (schema self.old) (now self.new) (next_claim self.old) }
    {
        let claim = self.next_claim();
        let attempt = self.claims.give(leaf, event, by);
        let step = Step::Took { claim, leaf };
        enter(&mut self.history, &mut self.looked, by, step);
        Call {
            claim,
            leaf,
            event,
            attempt,
            note: self.workflow.notes()[event as usize],
        }
    }

    /// Makes the entry of a leaf that may be done.
    pub(crate) fn record_did(&mut self, leaf: u32, label: Label, by: u32)
        requires open { IsUncommitted self.old }
        requires steps { HasEntryLeft self.old }
        requires label { slice_get (schema self.old).labels leaf ≡ Some label }
        requires enabled { CanDoAside (schema self.old) (now self.old) leaf }
        requires holds { Holds (database (schema self.old) (now self.old)) label }
        ensures { self.new ≡ with_entry self.old by (Did leaf) }
    {
        self.residual.push(leaf);
        self.world.perform(label);
        enter(&mut self.history, &mut self.looked, by, Step::Did { leaf });
    }

    pub(crate) fn record_done(&mut self, claim: u32, given: Given, by: u32)
        requires open { IsUncommitted self.old }
        requires steps { HasEntryLeft self.old }
        requires current { IsCurrent (now self.old) claim }
        requires given { IsGiven self.old claim given }
        ensures { self.new ≡ with_entry self.old by (Done claim) }
    {
        self.claims.answer(claim);
        self.residual.push(given.leaf);
        self.world.perform(Label::Event(given.event));
        let step = Step::Done { claim };
        enter(&mut self.history, &mut self.looked, by, step);
    }

    pub(crate) fn record_switched(&mut self, claim: u32, leaf: u32, by: u32)
        requires open { IsUncommitted self.old }
        requires steps { HasEntryLeft self.old }
        requires current { IsCurrent (now self.old) claim }
        requires leaf { leaf_of_claim (now self.old) claim ≡ leaf }
        requires avoidable { IsAvoidable (schema self.old) (now self.old) leaf }
        ensures { self.new ≡ with_entry self.old by (Failed claim effects.Switched) }
    {
        self.claims.answer(claim);
        self.residual.ban(leaf);
        self.claims.raise(&self.residual);
        let step = Step::Failed {
            claim,
            effect: FailEffect::Switched,
        };
        enter(&mut self.history, &mut self.looked, by, step);
    }

    pub(crate) fn record_kept(&mut self, claim: u32, by: u32)
        requires open { IsUncommitted self.old }
        requires steps { HasEntryLeft self.old }
        requires current { IsCurrent (now self.old) claim }
        requires needed { (t : List ℕ) → IsFree (schema self.old) (now self.old) t → leaf_of_claim (now self.old) claim ∈ t }
        ensures { self.new ≡ with_entry self.old by (Failed claim effects.Kept) }
    {
        self.claims.answer(claim);
        let step = Step::Failed {
            claim,
            effect: FailEffect::Kept,
        };
        enter(&mut self.history, &mut self.looked, by, step);
    }

    pub(crate) fn record_late(&mut self, claim: u32, by: u32)
        requires open { IsUncommitted self.old }
        requires steps { HasEntryLeft self.old }
        requires lapsed { IsLapsed (now self.old) claim }
        ensures { self.new ≡ with_entry self.old by (Late claim) }
    {
        self.claims.answer(claim);
        let step = Step::Late { claim };
        enter(&mut self.history, &mut self.looked, by, step);
    }

    pub(crate) fn record_rewound(&mut self, index: u32, by: u32)
        requires open { IsUncommitted self.old }
        requires steps { HasEntryLeft self.old }
        requires last { IsOpenIndex (schema self.old) (now self.old) index }
        ensures { self.new ≡ with_entry self.old by (Rewound index) }
    {
        self.residual.rewind_to(index);
        self.world.back_to(index as usize);
        self.claims.raise(&self.residual);
        let step = Step::Rewound { index };
        enter(&mut self.history, &mut self.looked, by, step);
    }

    pub(crate) fn record_commit(&mut self, by: u32)
        requires open { IsUncommitted self.old }
        requires steps { HasEntryLeft self.old }
        requires no_claim { current_claims (now self.old) ≡ [] }
        requires good { IsGood (schema self.old) (now self.old).journal }
        ensures { self.new ≡ with_entry self.old by Committed }
    {
        self.committed = true;
        enter(&mut self.history, &mut self.looked, by, Step::Committed);
    }
}
