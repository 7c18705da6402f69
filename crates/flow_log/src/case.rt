//! What is asked of the workflow and its plans.
ghost use Rattle.std.specs.Prelude.{◌≡◌, ◌<◌, ◌≤◌, ◌*◌, ◌↔◌, ℕ, List, IsTrue, Some, length, slice_get};
ghost use Rattle.leaf_rows.specs.Leaves.{has_leaf};
ghost use Rattle.flow_model.specs.Lists.{◌∈◌};
ghost use Rattle.flow_model.specs.FoldedReady.{IsFoldedReady};
ghost use Rattle.flow_model.specs.Resolution.{ChoiceOption};
ghost use Rattle.flow_plan.specs.Options.{option_of};
ghost use Rattle.flow_plan.specs.Orders.{TellOf};
ghost use Rattle.flow_plan.specs.Planned.{pairs_of};
ghost use Rattle.flow_plan.specs.Sided.{IsDoneIn};
ghost use Rattle.flow_residual.specs.Options.{HasAt};
ghost use Rattle.flow_residual.specs.Telling.{IsOrderedOption};
ghost use Rattle.flow_trace.specs.Fronts.{Follows, Finishes};
ghost use Rattle.flow_log.specs.Case.{AreFacts, IsCase, fitted_of};
ghost use Rattle.flow_model.specs.Facts.{state_with};
ghost use Rattle.flow_log.specs.Search.{AreSides, MayFollow};

use flow_plan::{FoldRow, KnotFree, Plan, Sides};
use flow_workflow::Workflow;
use leaf_rows::LeafSet;

/// A list of events, and the workflow to which it is fitted.
#[derive(Drop)]
pub(crate) struct Case<'a> {
    pub(crate) workflow: &'a Workflow,
    pub(crate) plans: &'a [KnotFree],
    pub(crate) folds: &'a [FoldRow],
    /// For each fact a leaf that speaks of it.
    pub(crate) places: Vec<u32>,
    pub(crate) events: &'a [u32],
}

/// Whether the leaf may come next in the plan.
fn may_come_next(plan: &Plan, sides: &Sides, leaf: u32) -> bool
    requires { IsOrderedOption (option_of plan.now) → TellOf plan.now sides.now }
    ensures ordered { IsOrderedOption (option_of plan.now) }
    ensures ready { IsTrue result ↔ IsFoldedReady plan.now.process (pairs_of plan.now.tokens) (IsDoneIn sides.now) leaf }
{
    // what the plan keeps of its goal and its pairs
    let _tokens = plan.tokens();
    plan.ready(sides, leaf)
}

/// The leaves that may come next in the plan, as far as there is room.
fn all_that_come_next<const W: usize>(plan: &Plan, sides: &Sides) -> LeafSet<W>
    requires wide { W ≤ 64 }
    requires tell { IsOrderedOption (option_of plan.now) → TellOf plan.now sides.now }
    ensures ordered { IsOrderedOption (option_of plan.now) }
    ensures all { (leaf : ℕ) → leaf < 64 * W → IsFoldedReady plan.now.process (pairs_of plan.now.tokens) (IsDoneIn sides.now) leaf → IsTrue (has_leaf result leaf) }
{
    // what the plan keeps of its goal and its pairs
    let _tokens = plan.tokens();
    plan.next_row_in(sides)
}

/// Whether a list of leaves that is a ready run of the plan is a whole execution of it.
fn is_finished(plan: &Plan, sides: &Sides) -> bool
    requires { IsOrderedOption (option_of plan.now) → TellOf plan.now sides.now }
    ensures ordered { IsOrderedOption (option_of plan.now) }
    ensures finished { (list : List ℕ) → Follows list (option_of plan.now) → ((n : ℕ) → IsDoneIn sides.now n ↔ (n ∈ list))
        → IsTrue result ↔ Finishes list (option_of plan.now) }
{
    // what the plan keeps of its goal and its pairs
    let _tokens = plan.tokens();
    plan.complete(sides)
}

impl Case<'_> {
    /// What choices tell where these leaves are done.
    pub(crate) fn sides<const W: usize>(&self, done: &LeafSet<W>) -> Sides
        requires wide { W ≤ 64 }
        requires case { IsCase self.now }
        ensures { AreSides self.now.plans.now done.now result }
    {
        Sides::new(self.folds, &done.resized(), &LeafSet::new())
    }

    /// All leaves that may come next in some of the options.
    pub(crate) fn all_next<const W: usize>(
        &self,
        options: &LeafSet<W>,
        sides: &Sides,
        done: &LeafSet<W>,
    ) -> LeafSet<W>
        requires wide { W ≤ 64 }
        requires few { length self.now.plans.now ≤ 64 * W }
        requires sides { AreSides self.now.plans.now done.now sides.now }
        ensures { (j leaf : ℕ) (o : ChoiceOption) → IsTrue (has_leaf options.now j) → slice_get (fitted_of self.now).options j ≡ Some o →
            leaf < 64 * W → MayFollow done.now leaf o → IsTrue (has_leaf result leaf) }
    {
        let mut next = LeafSet::new();
        for (place, kept) in self.plans.iter().enumerate() {
            if options.has(place as u32) {
                next.union_with(&all_that_come_next(kept.plan(), sides));
            }
        }
        next
    }

    /// Those of the options in which the leaf may come next.
    pub(crate) fn takers<const W: usize>(
        &self,
        options: &LeafSet<W>,
        sides: &Sides,
        done: &LeafSet<W>,
        leaf: u32,
    ) -> LeafSet<W>
        requires wide { W ≤ 64 }
        requires few { length self.now.plans.now ≤ 64 * W }
        requires sides { AreSides self.now.plans.now done.now sides.now }
        ensures { (j : ℕ) → IsTrue (has_leaf result j) ↔ (IsTrue (has_leaf options.now j) × HasAt (MayFollow done.now leaf) (fitted_of self.now).options j) }
    {
        let mut takers = LeafSet::new();
        for (place, kept) in self.plans.iter().enumerate() {
            if options.has(place as u32) && may_come_next(kept.plan(), sides, leaf) {
                takers.insert(place as u32);
            }
        }
        takers
    }

    /// Whether what is done is a whole execution of one of the options.
    pub(crate) fn has_end<const W: usize>(
        &self,
        options: &LeafSet<W>,
        sides: &Sides,
        done: &LeafSet<W>,
    ) -> bool
        requires wide { W ≤ 64 }
        requires few { length self.now.plans.now ≤ 64 * W }
        requires sides { AreSides self.now.plans.now done.now sides.now }
        ensures yes { IsTrue result → (list : List ℕ) → ((n : ℕ) → IsTrue (has_leaf done.now n) ↔ (n ∈ list))
            → ((j : ℕ) → IsTrue (has_leaf options.now j) → HasAt (Follows list) (fitted_of self.now).options j)
            → (j : ℕ) × HasAt (Finishes list) (fitted_of self.now).options j }
        ensures no { ¬ (IsTrue result) → (j : ℕ) (list : List ℕ) → IsTrue (has_leaf options.now j) → ((n : ℕ) → IsTrue (has_leaf done.now n) ↔ (n ∈ list))
            → HasAt (Follows list) (fitted_of self.now).options j → ¬ (HasAt (Finishes list) (fitted_of self.now).options j) }
    {
        for (place, kept) in self.plans.iter().enumerate() {
            if options.has(place as u32) && is_finished(kept.plan(), sides) {
                return true;
            }
        }
        false
    }

    /// The facts that hold at the start, each by its place.
    pub(crate) fn first_facts<const W: usize>(&self) -> LeafSet<W>
        requires case { IsCase self.now }
        requires wide { W ≤ 64 }
        requires leaves { length self.now.workflow.now.tree.labels ≤ 64 * W }
        ensures { AreFacts self.now.workflow.now.tree.labels self.now.places.items (state_with self.now.workflow.now.held) (has_leaf result) }
    {
        let leaves = self.workflow.tree().leaves();
        let mut facts = LeafSet::new();
        for fact in self.workflow.held() {
            let place = self.places[*fact as usize];
            if place < leaves {
                facts.insert(place);
            }
        }
        facts
    }
}
