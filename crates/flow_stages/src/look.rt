//! What is asked, at a stage of an option.
ghost use Rattle.std.specs.Prelude.{◌≡◌, ◌<◌, ◌≤◌, ◌↔◌, ◌⊎◌, ℕ, List, Some, None, false, length, IsTrue, IfOk, IfNone, IfSome};
ghost use Rattle.leaf_rows.specs.Leaves.{has_leaf};
ghost use Rattle.flow_model.specs.declared.limits.TheConstants.{MOST_LEAVES};
ghost use Rattle.flow_model.specs.Facts.{event_at};
ghost use Rattle.flow_model.specs.Lists.{◌∈◌};
ghost use Rattle.flow_model.specs.Process;
ghost use Rattle.flow_workflow.specs.Definition.{schema_of};
ghost use Rattle.flow_plan.specs.FoldRows.{AreFoldRows};
ghost use Rattle.flow_plan.specs.Orders.{MayComeNext};
ghost use Rattle.flow_plan.specs.Rows.{IsRowOf};
ghost use Rattle.flow_stages.specs.declared.question.Question.TheVariants as asked;
ghost use Rattle.flow_stages.specs.declared.wanted.Wanted.TheVariants.{Anybody};
ghost use Rattle.flow_stages.specs.Asked.{IsEventOf, IsToHave, IsHopeless, FitsAfter};
ghost use Rattle.flow_stages.specs.Fitting.{HoldsRoles, Fits, HasSomebody, taker_by};
ghost use Rattle.flow_stages.specs.Listed.{IsOpen, IsHopelessLook, IsQuiet, IsReached, IsTold, IsLookedAt};
ghost use Rattle.flow_stages.specs.Stages.{IsAfter};

use crate::nodes::Node;
use crate::question::Question;
use crate::search::{Look, Search, Takers};
use crate::staffing::Filled;
use crate::stage::Stage;
use crate::wanted::Wanted;
use flow_model::MOST_LEAVES;
use flow_plan::Sides;
use leaf_rows::{LEAF_WORDS, LeafSet};
use std::alloc::{AllocError, Global};

impl Search<'_> {
    /// The leaves that may come next.
    pub(crate) fn next_row(&self, stage: &Stage) -> LeafSet<LEAF_WORDS>
        requires { AreFoldRows self.now.plan.now.process self.now.folds.now }
        ensures { (list : List ℕ) → (n : ℕ) → ((x : ℕ) → IsTrue (has_leaf stage.now.done x) ↔ (x ∈ list)) →
            IsTrue (has_leaf result n) ↔ MayComeNext self.now.plan.now (λ x. x ∈ list) n }
    {
        // what the plan keeps of its goal and its pairs
        let _tokens = self.plan.tokens();
        let none = LeafSet::new();
        let sides = Sides::new(self.folds, &stage.done, &none);
        self.plan.next_row(&sides)
    }

    /// The event of the leaf, if it is done.
    fn event_done(&self, stage: &Stage, leaf: u32) -> Option<u32>
        ensures none { IfNone result ((w : ℕ) → event_at (schema_of self.now.workflow.now).labels leaf ≡ Some w → leaf < MOST_LEAVES → ¬ IsTrue (has_leaf stage.now.done leaf)) }
        ensures some { IfSome result (λ event. (event_at (schema_of self.now.workflow.now).labels leaf ≡ Some event) × IsTrue (has_leaf stage.now.done leaf)) }
    {
        if leaf < MOST_LEAVES && stage.done.has(leaf) {
            self.workflow.tree().event(leaf)
        } else {
            None
        }
    }

    /// The events that are to have takers: those that the question names, and those of the leaves that are done.
    fn events(&self, alloc: Global, stage: &Stage) -> Result<Vec<u32>, AllocError>
        ensures { (list : List ℕ) → IsAfter (schema_of self.now.workflow.now) list stage.now →
            IfOk result (λ events. (e : ℕ) → (e ∈ events.items) ↔ IsToHave (schema_of self.now.workflow.now) self.now.question list e) }
    {
        let mut events = self.question.events(alloc)?;
        for leaf in 0..self.workflow.tree().leaves() {
            if let Some(event) = self.event_done(stage, leaf) {
                events.push(event)?;
            }
        }
        Ok(events)
    }

    /// Whether a leaf of the event is done.
    fn is_done(&self, stage: &Stage, event: u32) -> bool
        ensures out { (list : List ℕ) → IsAfter (schema_of self.now.workflow.now) list stage.now → result ≡ false → ¬ (IsEventOf (schema_of self.now.workflow.now) list event) }
        ensures done { (list : List ℕ) → IsAfter (schema_of self.now.workflow.now) list stage.now → IsTrue result → IsEventOf (schema_of self.now.workflow.now) list event }
    {
        for leaf in 0..self.workflow.tree().leaves() {
            if self.event_done(stage, leaf) == Some(event) {
                return true;
            }
        }
        false
    }

    /// Whether leaves of both events are done.
    fn are_done(&self, stage: &Stage, one: u32, two: u32) -> bool
        ensures out { (list : List ℕ) → IsAfter (schema_of self.now.workflow.now) list stage.now → result ≡ false →
            ¬ (IsEventOf (schema_of self.now.workflow.now) list one × IsEventOf (schema_of self.now.workflow.now) list two) }
        ensures done { (list : List ℕ) → IsAfter (schema_of self.now.workflow.now) list stage.now → IsTrue result →
            IsEventOf (schema_of self.now.workflow.now) list one × IsEventOf (schema_of self.now.workflow.now) list two }
    {
        self.is_done(stage, one) && self.is_done(stage, two)
    }

    /// That one user can have both events at the stage, where both are done.
    fn shown_for_both(
        &self,
        node: &Node,
        one: u32,
        two: u32,
        takers: Takers,
    ) -> Result<Look, AllocError>
        requires asked { self.now.question ≡ asked.Both one two }
        ensures going { IfOk result (λ look. ¬ (IsHopelessLook look)) }
        ensures quiet { IfOk result (λ look. IsOpen look → IsQuiet (schema_of self.now.workflow.now) self.now.staff.policy.now.duties self.now.plan.now self.now.question node.now.stage) }
        ensures told { (left : ℕ) → IsReached (schema_of self.now.workflow.now) self.now.plan.now node.now →
            FitsAfter (schema_of self.now.workflow.now) self.now.staff.policy.now.duties self.now.question node.now.leaves.items (taker_by takers.items) →
            IfOk result (IsTold (schema_of self.now.workflow.now) self.now.staff.policy.now.duties self.now.plan.now self.now.question left) }
    {
        if self.are_done(&node.stage, one, two) {
            node.shown(takers, one)
        } else {
            drop(takers);
            Ok(Look::Open)
        }
    }

    /// Whether one user can have both events at the stage.
    fn look_for_both(
        &self,
        alloc: Global,
        node: &Node,
        one: u32,
        two: u32,
        states: &mut u64,
    ) -> Result<Look, AllocError>
        requires roles { HoldsRoles self.now.staff.policy.now.duties self.now.staff.users }
        requires asked { self.now.question ≡ asked.Both one two }
        ensures hopeless { IfOk result (λ look. IsHopelessLook look → (list : List ℕ) → IsAfter (schema_of self.now.workflow.now) list node.now.stage →
            IsHopeless (schema_of self.now.workflow.now) self.now.staff.policy.now.duties self.now.question list) }
        ensures quiet { IfOk result (λ look. IsOpen look → IsQuiet (schema_of self.now.workflow.now) self.now.staff.policy.now.duties self.now.plan.now self.now.question node.now.stage) }
        ensures told { IsReached (schema_of self.now.workflow.now) self.now.plan.now node.now → IfOk result (IsTold (schema_of self.now.workflow.now) self.now.staff.policy.now.duties self.now.plan.now self.now.question states.new) }
        ensures fewer { states.new ≤ states.old }
    {
        let events = self.events(alloc, &node.stage)?;
        let mut takers = Vec::new(alloc);
        let wanted = Wanted::OneFor(one, two);
        match self.staff.fill(wanted, &events, 0, &mut takers, states)? {
            Filled::Never => Ok(Look::Hopeless),
            Filled::Spent => Ok(Look::Spent),
            Filled::Found => self.shown_for_both(node, one, two, takers),
        }
    }

    /// Whether the leaf is an event's that may be nobody's where these events have takers.
    fn look_at_leaf(
        &self,
        alloc: Global,
        node: &Node,
        events: &[u32],
        leaf: u32,
        states: &mut u64,
    ) -> Result<Look, AllocError>
        requires { HoldsRoles self.now.staff.policy.now.duties self.now.staff.users }
        ensures manned { (to : ℕ → ℕ) (e : ℕ) → Fits self.now.staff.policy.now.duties Anybody (λ f. f ∈ events.now) to →
            event_at (schema_of self.now.workflow.now).labels leaf ≡ Some e →
            IfOk result (λ look. IsOpen look → HasSomebody self.now.staff.policy.now.duties e (λ f. f ∈ events.now) to) }
        ensures going { IfOk result (λ look. ¬ (IsHopelessLook look)) }
        ensures told { IsLookedAt (schema_of self.now.workflow.now) self.now.plan.now self.now.question node.now events.now → MayComeNext self.now.plan.now (λ x. x ∈ node.now.leaves.items) leaf → IfOk result (IsTold (schema_of self.now.workflow.now) self.now.staff.policy.now.duties self.now.plan.now self.now.question states.new) }
        ensures fewer { states.new ≤ states.old }
    {
        let Some(event) = self.workflow.tree().event(leaf) else {
            return Ok(Look::Open);
        };
        let mut takers = Vec::new(alloc);
        match self
            .staff
            .fill_for_nobody(alloc, event, events, &mut takers, states)?
        {
            Filled::Never => Ok(Look::Open),
            Filled::Spent => Ok(Look::Spent),
            Filled::Found => node.shown(takers, event),
        }
    }

    /// The same, where the leaf may come next.
    fn look_if_next(
        &self,
        alloc: Global,
        node: &Node,
        events: &[u32],
        leaf: u32,
        row: &LeafSet<LEAF_WORDS>,
        states: &mut u64,
    ) -> Result<Look, AllocError>
        requires small { leaf < MOST_LEAVES }
        requires roles { HoldsRoles self.now.staff.policy.now.duties self.now.staff.users }
        ensures manned { (to : ℕ → ℕ) (e : ℕ) → Fits self.now.staff.policy.now.duties Anybody (λ f. f ∈ events.now) to →
            IsTrue (has_leaf row.now leaf) → event_at (schema_of self.now.workflow.now).labels leaf ≡ Some e →
            IfOk result (λ look. IsOpen look → HasSomebody self.now.staff.policy.now.duties e (λ f. f ∈ events.now) to) }
        ensures going { IfOk result (λ look. ¬ (IsHopelessLook look)) }
        ensures told { IsLookedAt (schema_of self.now.workflow.now) self.now.plan.now self.now.question node.now events.now → (IsTrue (has_leaf row.now leaf) → MayComeNext self.now.plan.now (λ x. x ∈ node.now.leaves.items) leaf) → IfOk result (IsTold (schema_of self.now.workflow.now) self.now.staff.policy.now.duties self.now.plan.now self.now.question states.new) }
        ensures fewer { states.new ≤ states.old }
    {
        if row.has(leaf) {
            self.look_at_leaf(alloc, node, events, leaf, states)
        } else {
            Ok(Look::Open)
        }
    }

    /// Whether an event of the leaves that may come next may be nobody's, where these events have takers.
    fn look_at_next(
        &self,
        alloc: Global,
        node: &Node,
        events: &[u32],
        row: &LeafSet<LEAF_WORDS>,
        states: &mut u64,
    ) -> Result<Look, AllocError>
        requires { HoldsRoles self.now.staff.policy.now.duties self.now.staff.users }
        ensures manned { (to : ℕ → ℕ) (n e : ℕ) → Fits self.now.staff.policy.now.duties Anybody (λ f. f ∈ events.now) to →
            n ∈ Process.leaves self.now.plan.now.process → IsTrue (has_leaf row.now n) → event_at (schema_of self.now.workflow.now).labels n ≡ Some e →
            IfOk result (λ look. IsOpen look → HasSomebody self.now.staff.policy.now.duties e (λ f. f ∈ events.now) to) }
        ensures going { IfOk result (λ look. ¬ (IsHopelessLook look)) }
        ensures told { IsLookedAt (schema_of self.now.workflow.now) self.now.plan.now self.now.question node.now events.now → ((n : ℕ) → IsTrue (has_leaf row.now n) → MayComeNext self.now.plan.now (λ x. x ∈ node.now.leaves.items) n) → IfOk result (IsTold (schema_of self.now.workflow.now) self.now.staff.policy.now.duties self.now.plan.now self.now.question states.new) }
        ensures fewer { states.new ≤ states.old }
    {
        for leaf in self.plan.leaves() {
            match self.look_if_next(alloc, node, events, *leaf, row, states)? {
                Look::Open => {}
                look => return Ok(look),
            }
        }
        Ok(Look::Open)
    }

    /// Whether some event may be begun at the stage that nobody may take.
    fn look_for_unmanned(
        &self,
        alloc: Global,
        node: &Node,
        states: &mut u64,
    ) -> Result<Look, AllocError>
        requires folds { AreFoldRows self.now.plan.now.process self.now.folds.now }
        requires roles { HoldsRoles self.now.staff.policy.now.duties self.now.staff.users }
        requires asked { self.now.question ≡ asked.Unmanned }
        ensures hopeless { IfOk result (λ look. IsHopelessLook look → (list : List ℕ) → IsAfter (schema_of self.now.workflow.now) list node.now.stage →
            IsHopeless (schema_of self.now.workflow.now) self.now.staff.policy.now.duties self.now.question list) }
        ensures quiet { IfOk result (λ look. IsOpen look → IsQuiet (schema_of self.now.workflow.now) self.now.staff.policy.now.duties self.now.plan.now self.now.question node.now.stage) }
        ensures told { IsReached (schema_of self.now.workflow.now) self.now.plan.now node.now → IfOk result (IsTold (schema_of self.now.workflow.now) self.now.staff.policy.now.duties self.now.plan.now self.now.question states.new) }
        ensures fewer { states.new ≤ states.old }
    {
        let events = self.events(alloc, &node.stage)?;
        let mut takers = Vec::new(alloc);
        match self
            .staff
            .fill(Wanted::Anybody, &events, 0, &mut takers, states)?
        {
            Filled::Never => Ok(Look::Hopeless),
            Filled::Spent => Ok(Look::Spent),
            Filled::Found => {
                let row = self.next_row(&node.stage);
                self.look_at_next(alloc, node, &events, &row, states)
            }
        }
    }

    /// Whether what is asked is so at the stage.
    pub(crate) fn look(
        &self,
        alloc: Global,
        node: &Node,
        states: &mut u64,
    ) -> Result<Look, AllocError>
        requires folds { AreFoldRows self.now.plan.now.process self.now.folds.now }
        requires roles { HoldsRoles self.now.staff.policy.now.duties self.now.staff.users }
        ensures hopeless { IfOk result (λ look. IsHopelessLook look → (list : List ℕ) → IsAfter (schema_of self.now.workflow.now) list node.now.stage →
            IsHopeless (schema_of self.now.workflow.now) self.now.staff.policy.now.duties self.now.question list) }
        ensures quiet { IfOk result (λ look. IsOpen look → IsQuiet (schema_of self.now.workflow.now) self.now.staff.policy.now.duties self.now.plan.now self.now.question node.now.stage) }
        ensures told { IsReached (schema_of self.now.workflow.now) self.now.plan.now node.now → IfOk result (IsTold (schema_of self.now.workflow.now) self.now.staff.policy.now.duties self.now.plan.now self.now.question states.new) }
        ensures fewer { states.new ≤ states.old }
    {
        match self.question {
            Question::Both(one, two) => self.look_for_both(alloc, node, one, two, states),
            Question::Unmanned => self.look_for_unmanned(alloc, node, states),
        }
    }
}
