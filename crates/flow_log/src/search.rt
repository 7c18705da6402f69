//! The search: points are made in order, and each is gone through once.
ghost use Rattle.std.specs.Prelude.{◌≡◌, ◌<◌, ◌≤◌, ◌+◌, ◌*◌, ◌∷◌, ◌++◌, [], ℕ, List, IsTrue, IfOk, Some, length, slice_get};
ghost use Rattle.leaf_rows.specs.Leaves.{has_leaf};
ghost use Rattle.flow_log.specs.Case.{Fitted, IsCase, fitted_of};
ghost use Rattle.flow_log.specs.declared.point.Point.{Point};
ghost use Rattle.flow_log.specs.Search.{AreBefore, AreLed, AreSides, Goes, IsEnd, IsFound, IsLed, IsNoEnd, LeadsTo};

use crate::case::Case;
use crate::found::Found;
use crate::point::Point;
use crate::points::Points;
use flow_plan::Sides;
use leaf_rows::LeafSet;
use std::alloc::{AllocError, Global};

/// The point of the empty list, with all options.
pub(crate) fn first_point<const W: usize>(case: &Case) -> Point<W>
    requires case { IsCase case.now }
    requires wide { W ≤ 64 }
    requires few { length case.now.plans.now ≤ 64 * W }
    requires leaves { length case.now.workflow.now.tree.labels ≤ 64 * W }
    ensures leads { 0 < length case.now.plans.now → LeadsTo (fitted_of case.now) [] result }
    ensures options { (j : ℕ) → j < length case.now.plans.now → IsTrue (has_leaf result.options j) }
{
    let mut options = LeafSet::new();
    for place in 0..case.plans.len() {
        options.insert(place as u32);
    }
    Point {
        done: LeafSet::new(),
        facts: case.first_facts(),
        options,
        count: 0,
        before: 0,
        leaf: 0,
        key: 0,
    }
}

impl<const W: usize> Points<W> {
    /// Tries the leaf from the point, which stands at that place: what it leads to is known then. `false` where the budget is spent
    /// before.
    fn try_leaf(
        &mut self,
        case: &Case,
        sides: &Sides,
        point: &Point<W>,
        place: usize,
        leaf: u32,
        budget: u32,
    ) -> Result<bool, AllocError>
        requires case { IsCase case.now }
        requires wide { W ≤ 64 }
        requires few { length case.now.plans.now ≤ 64 * W }
        requires leaves { length case.now.workflow.now.tree.labels ≤ 64 * W }
        requires leaf { leaf < length case.now.workflow.now.tree.labels }
        requires there { slice_get self.old.points.items place ≡ Some point.now }
        requires led { IsLed (fitted_of case.now) self.old.points.items }
        requires before { AreBefore self.old.points.items place leaf }
        requires sides { AreSides case.now.plans.now point.now.done sides.now }
        ensures { IfOk result (λ going. Goes (fitted_of case.now) budget self.old.points.items self.new.points.items place leaf (leaf + 1) going) }
    {
        let Some(mut next) = case.turn(point, place, leaf) else {
            return Ok(true);
        };
        let takers = case.takers(&point.options, sides, &point.done, leaf);
        next.options = self.fresh(&next, &takers);
        if next.options.first().is_none() {
            return Ok(true);
        }
        if budget as usize <= self.points.len() {
            return Ok(false);
        }
        self.push(next)?;
        Ok(true)
    }

    /// Tries each leaf from the point at that place. `false` where the budget is spent before.
    fn expand(&mut self, case: &Case, place: usize, budget: u32) -> Result<bool, AllocError>
        requires case { IsCase case.now }
        requires wide { W ≤ 64 }
        requires few { length case.now.plans.now ≤ 64 * W }
        requires leaves { length case.now.workflow.now.tree.labels ≤ 64 * W }
        requires place { place < length self.old.points.items }
        requires led { IsLed (fitted_of case.now) self.old.points.items }
        requires before { AreBefore self.old.points.items place 0 }
        ensures { IfOk result (λ going. Goes (fitted_of case.now) budget self.old.points.items self.new.points.items place 0 (length case.now.workflow.now.tree.labels) going) }
    {
        let point = self.points[place];
        let sides = case.sides(&point.done);
        let next = case.all_next(&point.options, &sides, &point.done);
        for leaf in 0..case.workflow.tree().leaves() {
            if next.has(leaf) && !self.try_leaf(case, &sides, &point, place, leaf, budget)? {
                return Ok(false);
            }
        }
        Ok(true)
    }

    /// Whether the point is one after a whole execution.
    fn is_end(&self, case: &Case, place: usize) -> bool
        requires case { IsCase case.now }
        requires wide { W ≤ 64 }
        requires few { length case.now.plans.now ≤ 64 * W }
        requires place { place < length self.now.points.items }
        requires led { IsLed (fitted_of case.now) self.now.points.items }
        ensures yes { IsTrue result → (p : Point W) → slice_get self.now.points.items place ≡ Some p → IsEnd (fitted_of case.now) p }
        ensures no { ¬ (IsTrue result) → (p : Point W) → slice_get self.now.points.items place ≡ Some p → IsNoEnd (fitted_of case.now) p }
    {
        let point = self.points[place];
        point.count == case.events.len()
            && case.has_end(&point.options, &case.sides(&point.done), &point.done)
    }

    /// Goes through the points, and makes more of them, until one is an end, none is left, or the budget is spent.
    pub(crate) fn find(&mut self, case: &Case, budget: u32) -> Result<Found, AllocError>
        requires case { IsCase case.now }
        requires wide { W ≤ 64 }
        requires few { length case.now.plans.now ≤ 64 * W }
        requires leaves { length case.now.workflow.now.tree.labels ≤ 64 * W }
        requires led { IsLed (fitted_of case.now) self.old.points.items }
        requires one { length self.old.points.items ≡ 1 }
        ensures led { IfOk result (λ _. IsLed (fitted_of case.now) self.new.points.items) }
        ensures found { IfOk result (IsFound (fitted_of case.now) budget self.new.points.items) }
    {
        let mut place = 0;
        let mut furthest = 0;
        while place < self.points.len() {
            if self.is_end(case, place) {
                return Ok(Found::Whole(place));
            }
            if self.points[furthest].count < self.points[place].count {
                furthest = place;
            }
            if !self.expand(case, place, budget)? {
                return Ok(Found::Spent);
            }
            place += 1;
        }
        Ok(Found::Furthest(furthest))
    }

    /// The list of leaves that leads to the point at that place.
    pub(crate) fn list_of(&self, alloc: Global, place: usize) -> Result<Vec<u32>, AllocError>
        requires place { place < length self.now.points.items }
        requires led { (f : Fitted) × IsLed f self.now.points.items }
        ensures { (lists : List (List ℕ)) (f : Fitted) → AreLed f self.now.points.items lists → IfOk result (λ list. slice_get lists place ≡ Some list.items) }
    {
        let mut leaves = Vec::new(alloc);
        let mut at = place;
        while 0 < at {
            let point = &self.points[at];
            leaves.push(point.leaf)?;
            at = point.before;
        }
        leaves.reverse();
        Ok(leaves)
    }
}
