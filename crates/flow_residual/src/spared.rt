ghost use Rattle.std.specs.Prelude.{◌≡◌, ◌↔◌, ◌<◌, ◌&&◌, not, ℕ, List, IsTrue, Some, [], ◌∷◌, ◌++◌, if◌then◌else◌, length, slice_get};
ghost use Rattle.flow_model.specs.declared.limits.TheConstants.{MOST_LEAVES};
ghost use Rattle.flow_model.specs.Resolution.{ChoiceOption};
ghost use Rattle.leaf_rows.specs.Leaves.{has_leaf};
ghost use Rattle.flow_residual.specs.Options.{HasAt, SomeOption};
ghost use Rattle.flow_residual.specs.Question.{TakesAll};
ghost use Rattle.flow_residual.specs.Remaining.{IsLive};
ghost use Rattle.flow_residual.specs.Spared.{AllStay, AreThinned, IsCandidate};
ghost use Rattle.flow_residual.specs.Telling.{IsSetOf};

use crate::residual::Residual;
use crate::sets::{less, row_of};
use flow_model::MOST_LEAVES;
use leaf_rows::{LEAF_WORDS, LeafSet};

impl Residual {
    /// Of the others those that may come next in the plan at that place, where it is live, and that may be begun; less the
    /// claimed ones.
    fn candidates(
        &self,
        place: usize,
        claims: &LeafSet<LEAF_WORDS>,
        others: &LeafSet<LEAF_WORDS>,
    ) -> LeafSet<LEAF_WORDS>
        requires { place < length self.now.options }
        ensures { (o : ChoiceOption) (n : ℕ) → slice_get self.now.options place ≡ Some o → IsLive self.now o →
            IsTrue (has_leaf result n) → IsCandidate self.now claims.now o n }
    {
        let not_next = less(others, &self.next_row(place));
        let next = less(others, &not_next);
        let free = less(&next, &self.sides().barred);
        less(&free, claims)
    }

    /// Of the others those that, all of them, may follow with the claimed ones in the plan at that place, which takes these.
    ///
    /// They are asked together, once: none of them where some two do not go together, which then are asked one by one.
    fn all_beside(
        &self,
        place: usize,
        claims: &LeafSet<LEAF_WORDS>,
        others: &LeafSet<LEAF_WORDS>,
    ) -> LeafSet<LEAF_WORDS>
        requires { place < length self.now.options }
        ensures { (list : List ℕ) → IsSetOf list claims.now → HasAt (TakesAll self.now list) self.now.options place →
            AllStay self.now list result }
    {
        let more = self.candidates(place, claims, others);
        let mut all = more;
        all.union_with(claims);
        if self.plan(place).go_together(&self.apart(&all), &all) {
            more
        } else {
            LeafSet::new()
        }
    }

    /// Of the rest those that, all of them, may follow with the claimed leaves and this one in the plan at that place.
    fn beside(&self, place: usize, claims: &[u32], leaf: u32, rest: &[u32]) -> LeafSet<LEAF_WORDS>
        requires small { leaf < MOST_LEAVES }
        requires takes { HasAt (TakesAll self.now (claims.now ++ leaf ∷ [])) self.now.options place }
        ensures { AllStay self.now (claims.now ++ leaf ∷ []) result }
    {
        let Some(mut taken) = row_of(claims) else {
            return LeafSet::new();
        };
        taken.insert(leaf);
        match row_of(rest) {
            Some(others) => self.all_beside(place, &taken, &others),
            None => LeafSet::new(),
        }
    }

    /// Whether the leaf may follow with the claimed ones in every order, in some one option. Those of the rest that are known
    /// to do so stand beside them, and are not asked again.
    fn stays(
        &self,
        claims: &[u32],
        leaf: u32,
        rest: &[u32],
        beside: &mut LeafSet<LEAF_WORDS>,
    ) -> bool
        requires { AllStay self.now claims.now beside.old }
        ensures stays { IsTrue result ↔ SomeOption (TakesAll self.now (claims.now ++ leaf ∷ [])) self.now.options }
        ensures beside { AllStay self.now (if result then claims.now ++ leaf ∷ [] else claims.now) beside.new }
    {
        if leaf < MOST_LEAVES && beside.has(leaf) {
            beside.remove(leaf);
            return true;
        }
        match self.taker(claims, leaf) {
            Some(place) => {
                *beside = self.beside(place, claims, leaf, rest);
                true
            }
            None => false,
        }
    }
}

/// Of the leaves, one after another, only those stay that may follow together with the ones that stayed before, and
/// the places beside them. Returns how many.
///
/// Those that go together with all that stayed are found at once, so the time grows with the leaves: a leaf is asked for itself
/// where it does not stay, and where it stays by another plan than those before it.
pub(crate) fn thin(residual: &Residual, places: &mut [u32], leaves: &mut [u32]) -> usize
    requires { length places.old ≡ length leaves.old }
    ensures { AreThinned residual.now places.old leaves.old places.new leaves.new result }
{
    let mut kept = 0;
    let mut beside = LeafSet::new();
    for index in 0..leaves.len() {
        let all = &leaves[..];
        let leaf = all[index];
        if residual.stays(&all[..kept], leaf, &all[index..], &mut beside) {
            places[kept] = places[index];
            leaves[kept] = leaf;
            kept += 1;
        }
    }
    kept
}
