//! What all plans take, of all leaves at once.
ghost use Rattle.std.specs.Prelude.{◌≡◌, ◌<◌, ◌≤◌, ◌↔◌, ◌⊎◌, ℕ, List, IsTrue, Some, length, slice_get};
ghost use Rattle.flow_model.specs.Lists.{◌∈◌, Each, AreDistinct};
ghost use Rattle.flow_model.specs.Resolution.{ChoiceOption};
ghost use Rattle.leaf_rows.specs.Leaves.{has_leaf};
ghost use Rattle.flow_plan.specs.Rows.{IsRowOf};
ghost use Rattle.flow_residual.specs.Options.{EachHas, SomeOption};
ghost use Rattle.flow_residual.specs.Question.{Takes, TakesInOrder};
ghost use Rattle.flow_residual.specs.Telling.{IsApart};
ghost use Rattle.flow_residual.specs.Track.{IsNextRow};

use crate::question::Stand;
use crate::residual::Residual;
use crate::sets::is_covered;
use flow_plan::Words;
use leaf_rows::{LEAF_WORDS, LeafSet};

impl Residual {
    /// Adds to what is found the leaves that the plan at that place takes so, whether or not they may be begun, where it is
    /// known which may come next in it.
    fn add_taken<const W: usize>(
        &self,
        place: usize,
        next: &LeafSet<W>,
        claims: &[u32],
        row: &LeafSet<W>,
        apart: &LeafSet<W>,
        stand: Stand,
        found: &mut LeafSet<W>,
    )
        requires place { place < length self.now.options }
        requires next { (o : ChoiceOption) → slice_get self.now.options place ≡ Some o → IsNextRow self.now.journal o next.now }
        requires distinct { AreDistinct claims.now }
        requires row { IsRowOf (λ x. x ∈ claims.now) row.now }
        requires apart { Each (IsApart claims.now apart.now) self.now.options }
        ensures { (o : ChoiceOption) (leaf : ℕ) → slice_get self.now.options place ≡ Some o →
            IsTrue (has_leaf found.new leaf) ↔ (IsTrue (has_leaf found.old leaf) ⊎ TakesInOrder self.now claims.now stand leaf o) }
    {
        // a leaf that is taken so may come next, and no claimed one is taken twice
        if is_covered(next, row, found) {
            return;
        }
        self.add_new(place, next, claims, row, apart, stand, found);
    }

    /// The same, whatever is found already.
    fn add_new<const W: usize>(
        &self,
        place: usize,
        next: &LeafSet<W>,
        claims: &[u32],
        row: &LeafSet<W>,
        apart: &LeafSet<W>,
        stand: Stand,
        found: &mut LeafSet<W>,
    )
        requires place { place < length self.now.options }
        requires next { (o : ChoiceOption) → slice_get self.now.options place ≡ Some o → IsNextRow self.now.journal o next.now }
        requires distinct { AreDistinct claims.now }
        requires row { IsRowOf (λ x. x ∈ claims.now) row.now }
        requires apart { Each (IsApart claims.now apart.now) self.now.options }
        ensures { (o : ChoiceOption) (leaf : ℕ) → slice_get self.now.options place ≡ Some o →
            IsTrue (has_leaf found.new leaf) ↔ (IsTrue (has_leaf found.old leaf) ⊎ TakesInOrder self.now claims.now stand leaf o) }
    {
        if !self.is_live(place) {
            return;
        }
        let folds = self.folds();
        let sides = self.sides();
        let plan = self.plan(place);
        match stand {
            Stand::Among => plan.add_beside(next, row, apart, found),
            Stand::First => plan.add_first(folds, sides, next, claims, row, apart, found),
        }
    }

    /// The leaves that some plan takes so, where rows of that width are those of what may come next.
    fn all_cut<const W: usize>(
        &self,
        rows: &[LeafSet<W>],
        claims: &[u32],
        row: &LeafSet<W>,
        apart: &LeafSet<W>,
        stand: Stand,
    ) -> LeafSet<W>
        requires rows { EachHas (IsNextRow self.now.journal) self.now.options rows.now }
        requires distinct { AreDistinct claims.now }
        requires row { IsRowOf (λ x. x ∈ claims.now) row.now }
        requires apart { Each (IsApart claims.now apart.now) self.now.options }
        ensures { (leaf : ℕ) → IsTrue (has_leaf result leaf) ↔ SomeOption (TakesInOrder self.now claims.now stand leaf) self.now.options }
    {
        let mut found = LeafSet::new();
        for place in 0..self.count() {
            self.add_taken(place, &rows[place], claims, row, apart, stand, &mut found);
        }
        found
    }

    /// The leaves that some plan takes so, by what may come next, which is found for each plan anew.
    fn all_anew(
        &self,
        claims: &[u32],
        row: &LeafSet<LEAF_WORDS>,
        apart: &LeafSet<LEAF_WORDS>,
        stand: Stand,
    ) -> LeafSet<LEAF_WORDS>
        requires distinct { AreDistinct claims.now }
        requires row { IsRowOf (λ x. x ∈ claims.now) row.now }
        requires apart { Each (IsApart claims.now apart.now) self.now.options }
        ensures { (leaf : ℕ) → IsTrue (has_leaf result leaf) ↔ SomeOption (TakesInOrder self.now claims.now stand leaf) self.now.options }
    {
        let mut found = LeafSet::new();
        for place in 0..self.count() {
            let next = self.next_row(place);
            self.add_taken(place, &next, claims, row, apart, stand, &mut found);
        }
        found
    }

    /// The leaves that some plan takes so, by rows of that width where these have room for what is asked.
    fn all_by_rows<const W: usize>(
        &self,
        rows: &[LeafSet<W>],
        claims: &[u32],
        row: &LeafSet<LEAF_WORDS>,
        apart: &LeafSet<LEAF_WORDS>,
        stand: Stand,
    ) -> LeafSet<LEAF_WORDS>
        requires wide { W ≤ 64 }
        requires rows { EachHas (IsNextRow self.now.journal) self.now.options rows.now }
        requires distinct { AreDistinct claims.now }
        requires row { IsRowOf (λ x. x ∈ claims.now) row.now }
        requires apart { Each (IsApart claims.now apart.now) self.now.options }
        ensures { (leaf : ℕ) → IsTrue (has_leaf result leaf) ↔ SomeOption (TakesInOrder self.now claims.now stand leaf) self.now.options }
    {
        // a claim that no plan has, or what it closes off, may lie past the rows
        if !row.is_within::<W>() || !apart.is_within::<W>() {
            return self.all_anew(claims, row, apart, stand);
        }
        let mine = row.resized();
        let closed = apart.resized();
        let found = self.all_cut(rows, claims, &mine, &closed, stand);
        found.resized()
    }

    /// The leaves that some plan takes so, whether or not they may be begun.
    fn all_in_order(
        &self,
        claims: &[u32],
        row: &LeafSet<LEAF_WORDS>,
        stand: Stand,
    ) -> LeafSet<LEAF_WORDS>
        requires distinct { AreDistinct claims.now }
        requires row { IsRowOf (λ x. x ∈ claims.now) row.now }
        ensures { (leaf : ℕ) → IsTrue (has_leaf result leaf) ↔ SomeOption (TakesInOrder self.now claims.now stand leaf) self.now.options }
    {
        let apart = self.apart(row);
        let Some(rows) = self.next_rows() else {
            return self.all_anew(claims, row, &apart, stand);
        };
        match rows.words {
            Words::Narrow => self.all_by_rows(&rows.narrow, claims, row, &apart, stand),
            Words::Middle => self.all_by_rows(&rows.middle, claims, row, &apart, stand),
            Words::Wide => self.all_by_rows(&rows.wide, claims, row, &apart, stand),
        }
    }

    /// The leaves that some plan takes so.
    pub(crate) fn all_taken(&self, claims: &[u32], stand: Stand) -> LeafSet<LEAF_WORDS>
        ensures { (leaf : ℕ) → IsTrue (has_leaf result leaf) ↔ SomeOption (Takes self.now claims.now stand leaf) self.now.options }
    {
        let Some(row) = self.beginning(claims) else {
            return LeafSet::new();
        };
        let mut found = self.all_in_order(claims, &row, stand);
        found.remove_all(&self.sides().barred);
        found
    }
}
