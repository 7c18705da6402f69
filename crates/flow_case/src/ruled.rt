ghost use Rattle.std.specs.Prelude.{◌≡◌, ◌↔◌, [], ◌∷◌, ℕ, List, drop, false, IsTrue, MatchOption};
ghost use Rattle.flow_ask.specs.declared.ask.Ask.TheVariants as ask;
ghost use Rattle.flow_model.specs.declared.history.Step.TheVariants.{Rewound};
ghost use Rattle.flow_model.specs.Run.{current_claims};
ghost use Rattle.flow_form.specs.Script.{Said};
ghost use Rattle.flow_form.specs.Names.{event_names};
ghost use Rattle.flow_policy.specs.Policy.{IsPolicyOf};
ghost use Rattle.flow_roles.specs.Desked.{KeepsDuties};

use crate::bar::Bar;
use crate::rules::CaseRules;
use flow_ask::{Answer, Ask};
use flow_core::Core;
use flow_model::{Entry, Step};
use flow_roles::{Desk, Policy};
use std::marker::Model;

/// The run of a case under a policy: a desk, and what the policy says besides duties. It takes no memory.
#[derive(Drop)]
pub struct RuledRun {
    desk: Desk,
    rules: CaseRules,
}

impl Model for RuledRun {
    ghost use Rattle.flow_case.specs.Ruled.{Ruled, ruled_code};

    ghost Value = { Ruled };

    ghost coded = { ruled_code };

    ghost use Rattle.flow_case.specs.Invariant.{ruled_by, IsGoverned};

    ghost view = { ruled_by };

    ghost invariant = { IsGoverned };
}

impl RuledRun {
    ghost use Rattle.flow_core.specs.Run.{schema, now, IsUncommitted, HasEntryLeft};
    ghost use Rattle.flow_core.specs.Make.{CanMake};
    ghost use Rattle.flow_roles.specs.Ask.{with_entries};
    ghost use Rattle.flow_case.specs.Rules.{IsFinalLeaf, HasNoFinal, IsFirstFinal, KeepsRules};
    ghost use Rattle.flow_case.specs.Ruled.{MayLet};
    ghost use Rattle.flow_case.specs.Bar.{IsBarred, IsUnbarred, CanClose};
    ghost use Rattle.flow_case.specs.Ask.{RuledAnswers, CanMakeRuled};

    /// The case of a run that has no entry yet. The policy is of a script that declares the events of the run's workflow.
    pub fn new(core: Core, policy: Policy, rules: CaseRules) -> RuledRun
        requires empty { core.history ≡ [] }
        requires same_events { (text : List ℕ) × (s : Said) × IsPolicyOf text s policy × (event_names s.decls ≡ core.definition.events) }
        ensures { result ≡ record { desk = record { run = core; assigned = policy }; rules = rules } }
    {
        RuledRun {
            desk: Desk::new(core, policy),
            rules,
        }
    }

    /// The run. Duties hold after every step of it, and the rules of the case let each of its entries.
    pub fn core(&self) -> &Core
        ensures run { result.now ≡ self.now.desk.run }
        ensures duties { KeepsDuties self.now.desk }
        ensures rules { KeepsRules (schema self.now.desk.run) self.now.rules self.now.desk.run.history }
    {
        self.desk.core()
    }

    /// The policy under which tasks are taken.
    pub fn policy(&self) -> &Policy
        ensures { result.now ≡ self.now.desk.assigned }
    {
        self.desk.policy()
    }

    /// What the policy says besides duties.
    pub fn rules(&self) -> &CaseRules
        ensures { result.now ≡ self.now.rules }
    {
        &self.rules
    }

    /// Finds at once what can be taken or done, so that questions about this state cost little. Nothing else changes.
    pub fn look_ahead(&mut self)
        ensures { self.new ≡ self.old }
    {
        self.desk.look_ahead();
    }

    /// Asks the run one thing: the first rule that bars it is told; else it is as the desk answers.
    pub fn answer(&mut self, ask: Ask, by: u32) -> Answer
        ensures { RuledAnswers self.old ask by result self.new }
    {
        match self.bar(ask, by) {
            Some(bar) => Err(bar.into()),
            None => self.desk.answer(ask, by),
        }
    }

    /// Makes that very entry, with its caller, where it may be made next, and duties and rules leave it to him; else nothing changes.
    pub fn make(&mut self, entry: Entry) -> bool
        ensures made { IsTrue result → self.new ≡ record self.old { desk = with_entries self.old.desk (entry ∷ []) } }
        ensures kept { result ≡ false → self.new ≡ self.old }
        ensures allowed { IsTrue result ↔ CanMakeRuled self.old entry }
    {
        self.lets(entry) && self.desk.make(entry)
    }

    /// The first rule that bars the user's ask.
    pub fn bar(&self, ask: Ask, by: u32) -> Option<Bar>
        ensures { MatchOption result (IsUnbarred self.now ask by) (IsBarred self.now ask by) }
    {
        match ask {
            Ask::Rewind => self.bar_to_rewind(by),
            Ask::Commit => self.bar_to_commit(by),
            _ => None,
        }
    }

    #[tactic(auto, using(crate::proofs::Finals::let_back))]
    fn bar_to_rewind(&self, by: u32) -> Option<Bar>
        ensures { MatchOption result (IsUnbarred self.now ask.Rewind by) (IsBarred self.now ask.Rewind by) }
    {
        let Some(index) = self.way_back() else {
            return None;
        };
        if !self.rules.may_step_back(by) {
            return Some(Bar::Back);
        }
        match self.first_cut(index) {
            Some(leaf) => Some(Bar::Final { leaf }),
            None => None,
        }
    }

    fn bar_to_commit(&self, by: u32) -> Option<Bar>
        ensures { MatchOption result (IsUnbarred self.now ask.Commit by) (IsBarred self.now ask.Commit by) }
    {
        if self.can_close() && !self.rules.may_close(by) {
            Some(Bar::Close)
        } else {
            None
        }
    }

    /// Whether the run is going, with an entry left.
    fn is_going(&self) -> bool
        ensures { IsTrue result ↔ (IsUncommitted self.now.desk.run × HasEntryLeft self.now.desk.run) }
    {
        let core = self.desk.core();
        !core.committed() && core.history().len() < core.limit() as usize
    }

    /// Where the run can go back to.
    fn way_back(&self) -> Option<u32>
        ensures { MatchOption result ((index : ℕ) → ¬ (CanMake self.now.desk.run (Rewound index))) (λ index. CanMake self.now.desk.run (Rewound index)) }
    {
        if self.is_going() {
            self.desk.core().open_index()
        } else {
            None
        }
    }

    /// Whether the run can end, if its journal is a whole execution.
    fn can_close(&self) -> bool
        ensures { IsTrue result ↔ CanClose self.now.desk.run }
    {
        self.is_going() && self.has_no_claim()
    }

    /// Whether no claim is out.
    #[tactic(auto, using(crate::proofs::Finals::claim_out))]
    fn has_no_claim(&self) -> bool
        ensures { IsTrue result ↔ (current_claims (now self.now.desk.run) ≡ []) }
    {
        match self.desk.core().least_claim() {
            Some(_) => false,
            None => true,
        }
    }

    /// The leaves of the journal from there on.
    fn cut(&self, index: u32) -> &[u32]
        ensures { result.now ≡ drop index (now self.now.desk.run).journal }
    {
        match self.desk.core().journal().get(index as usize..) {
            Some(leaves) => leaves,
            None => &[],
        }
    }

    /// The first leaf of a final event that a step back to there would cut.
    fn first_cut(&self, index: u32) -> Option<u32>
        ensures { MatchOption result (HasNoFinal (schema self.now.desk.run) self.now.rules (drop index (now self.now.desk.run).journal))
            (IsFirstFinal (schema self.now.desk.run) self.now.rules (drop index (now self.now.desk.run).journal)) }
    {
        self.first_final(self.cut(index))
    }

    /// Whether a step back to there would cut no leaf of a final event.
    #[tactic(auto, using(crate::proofs::Finals::some_final))]
    fn cuts_no_final(&self, index: u32) -> bool
        ensures { IsTrue result ↔ HasNoFinal (schema self.now.desk.run) self.now.rules (drop index (now self.now.desk.run).journal) }
    {
        match self.first_cut(index) {
            Some(_) => false,
            None => true,
        }
    }

    /// The first leaf of a final event.
    fn first_final(&self, leaves: &[u32]) -> Option<u32>
        ensures { MatchOption result (HasNoFinal (schema self.now.desk.run) self.now.rules leaves.now)
            (IsFirstFinal (schema self.now.desk.run) self.now.rules leaves.now) }
    {
        for leaf in leaves {
            if self.is_final(*leaf) {
                return Some(*leaf);
            }
        }
        None
    }

    /// Whether the leaf is a final event's.
    fn is_final(&self, leaf: u32) -> bool
        ensures { IsTrue result ↔ IsFinalLeaf (schema self.now.desk.run) self.now.rules leaf }
    {
        match self.desk.core().workflow().tree().event(leaf) {
            Some(event) => self.rules.is_final(event),
            None => false,
        }
    }

    /// Whether the rules let the entry's caller make it.
    fn lets(&self, entry: Entry) -> bool
        ensures { IsTrue result ↔ MayLet self.now entry }
    {
        match entry.step {
            Step::Rewound { index } => {
                self.rules.may_step_back(entry.by) && self.cuts_no_final(index)
            }
            Step::Committed => self.rules.may_close(entry.by),
            _ => true,
        }
    }
}
