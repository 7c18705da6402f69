//! What a leaf makes of a point.
ghost use Rattle.std.specs.Prelude.{◌≡◌, ◌<◌, ◌≤◌, ◌*◌, ◌↔◌, ◌∷◌, ◌++◌, [], ℕ, List, IsTrue, IfNone, IfSome, MatchOption, None, Some, length, slice_get};
ghost use Rattle.leaf_rows.specs.Leaves.{has_leaf};
ghost use Rattle.flow_model.specs.Facts.{State, Holds, after};
ghost use Rattle.flow_log.specs.Case.{AreFacts, CountsTo, IsBegun, IsCase, IsPlaceOf, fact_in, fitted_of};
ghost use Rattle.flow_log.specs.Search.{IsAfter};

use crate::case::Case;
use crate::fact_places::fact_of;
use crate::point::Point;
use flow_model::Label;

impl Case<'_> {
    /// How many of the events there are behind a leaf with that label, where there were so many before it. `None` where the label is
    /// an event's, and not of the one that comes next.
    fn count_after(&self, count: usize, label: Label) -> Option<usize>
        ensures some { IfSome result (λ next. count ≤ length self.now.events.now → CountsTo self.now.events.now count label next) }
        ensures none { IfNone result ((next : ℕ) → ¬ (CountsTo self.now.events.now count label next)) }
    {
        let Label::Event(event) = label else {
            return Some(count);
        };
        if count < self.events.len() && self.events[count] == event {
            Some(count + 1)
        } else {
            None
        }
    }

    /// The place of the label's fact, if it has one.
    fn place_of(&self, label: Label) -> Option<u32>
        requires case { IsCase self.now }
        requires label { (n : ℕ) × (slice_get self.now.workflow.now.tree.labels n ≡ Some label) }
        ensures place { MatchOption result (fact_in label ≡ None) (IsPlaceOf self.now label) }
        ensures small { IfSome result (λ place. place < length self.now.workflow.now.tree.labels) }
    {
        // the numbers of its facts
        let _tree = self.workflow.tree();
        let fact = fact_of(label)?;
        Some(self.places[fact as usize])
    }

    /// Performs the label if it holds.
    fn perform<const W: usize>(&self, label: Label, point: &mut Point<W>) -> bool
        requires case { IsCase self.now }
        requires wide { length self.now.workflow.now.tree.labels ≤ 64 * W }
        requires label { (n : ℕ) × (slice_get self.now.workflow.now.tree.labels n ≡ Some label) }
        ensures holds { (s : State) → AreFacts self.now.workflow.now.tree.labels self.now.places.items s (has_leaf point.old.facts) →
            IsTrue result ↔ Holds s label }
        ensures facts { (s : State) → AreFacts self.now.workflow.now.tree.labels self.now.places.items s (has_leaf point.old.facts) →
            AreFacts self.now.workflow.now.tree.labels self.now.places.items (after s label) (has_leaf point.new.facts) }
        ensures others { point.new ≡ record point.old { facts = point.new.facts; key = point.new.key } }
    {
        let Some(place) = self.place_of(label) else {
            return true;
        };
        match label {
            Label::Event(_) => true,
            Label::Test(_) => point.facts.has(place),
            Label::Absent(_) => !point.facts.has(place),
            Label::Ins(_) => {
                point.put_fact(place, true);
                true
            }
            Label::Del(_) => {
                point.put_fact(place, false);
                true
            }
        }
    }

    /// The point to which the leaf leads from the one at that place, with the options of that one. `None` where its label does not
    /// hold, and where it is an event and another one comes next.
    pub(crate) fn turn<const W: usize>(
        &self,
        point: &Point<W>,
        place: usize,
        leaf: u32,
    ) -> Option<Point<W>>
        requires case { IsCase self.now }
        requires wide { length self.now.workflow.now.tree.labels ≤ 64 * W }
        requires leaf { leaf < length self.now.workflow.now.tree.labels }
        ensures made { IfSome result (λ next. (next.before ≡ place) × (next.leaf ≡ leaf)) }
        ensures some { IfSome result (λ next. (list : List ℕ) → IsBegun (fitted_of self.now) list point.now.count → IsAfter (fitted_of self.now) list point.now →
            IsBegun (fitted_of self.now) (list ++ leaf ∷ []) next.count × IsAfter (fitted_of self.now) (list ++ leaf ∷ []) next) }
        ensures none { IfNone result ((list : List ℕ) (count : ℕ) → IsBegun (fitted_of self.now) list point.now.count → IsAfter (fitted_of self.now) list point.now →
            ¬ (IsBegun (fitted_of self.now) (list ++ leaf ∷ []) count)) }
    {
        let label = self.workflow.tree().label(leaf)?;
        let count = self.count_after(point.count, label)?;
        let mut next = *point;
        next.count = count;
        next.before = place;
        next.leaf = leaf;
        next.put_leaf(leaf);
        if self.perform(label, &mut next) {
            Some(next)
        } else {
            None
        }
    }
}
