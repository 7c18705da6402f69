ghost use Rattle.std.specs.Prelude.{◌<◌, ◌≤◌, ◌↔◌, ℕ, IsTrue};
ghost use Rattle.flow_model.specs.declared.limits.TheConstants.{MOST_LEAVES};
ghost use Rattle.leaf_rows.specs.Leaves.{has_leaf, LiesIn};
ghost use Rattle.leaf_rows.specs.declared.TheConstants.{LEAF_WORDS};

use flow_goal::Fold;
use leaf_rows::{LEAF_WORDS, LeafSet};
use std::alloc::{AllocError, Global};

/// The leaves of the two sides of a choice that stays, and the words in which they have their bits.
///
/// A pass through many choices touches these words alone.
#[derive(Clone, Copy)]
pub struct FoldRow {
    left: LeafSet<LEAF_WORDS>,
    right: LeafSet<LEAF_WORDS>,
    from: usize,
    to: usize,
    ghost within: { to ≤ LEAF_WORDS },
    ghost left_lies: { LiesIn from to left },
    ghost right_lies: { LiesIn from to right },
}

/// Which sides of a choice have some leaf of a set.
#[derive(Clone, Copy)]
pub(crate) struct Met {
    left: bool,
    right: bool,
}

/// The leaves from the first up to the end.
fn between(first: u32, end: u32) -> LeafSet<LEAF_WORDS>
    requires { end ≤ MOST_LEAVES }
    ensures { (n : ℕ) → IsTrue (has_leaf result n) ↔ (first ≤ n × n < end) }
{
    let mut set = LeafSet::new();
    for leaf in first..end {
        set.insert(leaf);
    }
    set
}

impl FoldRow {
    ghost use Rattle.std.specs.Prelude.{◌≡◌, ◌⊎◌, ◌&&◌, ◌||◌, Bool, All, IfOk};
    ghost use Rattle.flow_model.specs.Lists.{◌∈◌, AreDistinct};
    ghost use Rattle.flow_model.specs.Process.{Process, leaves};
    ghost use Rattle.flow_model.specs.Folding.{choices_of, folded_resolutions, staying_choices};
    ghost use Rattle.flow_goal.specs.Folds.{AreSpansOf};
    ghost use Rattle.flow_plan.specs.FoldRows.{AreFoldRows, HasLeaf, IsRowFor, IsWithin, IsWithinLimit, Meets, spoils_after};

    /// The row of a choice, by where it has its leaves.
    fn new(fold: &Fold) -> FoldRow
        requires { IsWithinLimit fold.now }
        ensures { IsRowFor fold.now result }
    {
        FoldRow {
            left: between(fold.first, fold.middle),
            right: between(fold.middle, fold.end),
            from: (fold.first / 64) as usize,
            to: (fold.end as usize).div_ceil(64),
        }
    }

    /// The rows of choices that stay, by where they have their leaves.
    pub fn of_folds(alloc: Global, folds: &[Fold]) -> Result<Vec<FoldRow>, AllocError>
        requires { All IsWithinLimit folds.now }
        // of all choices of one goal, each of which stays
        ensures own { IfOk result (λ rows. (q : Process) → AreSpansOf (choices_of q) folds.now → AreFoldRows q rows.items) }
        // of those that stay of a goal: the rows serve each goal to which that one folds
        ensures shared { IfOk result (λ rows. (apart : ℕ → Bool) (g q : Process) → AreDistinct (leaves g) →
            AreSpansOf (staying_choices apart g) folds.now → q ∈ folded_resolutions apart g → AreFoldRows q rows.items) }
    {
        let mut rows = Vec::with_capacity(alloc, folds.len())?;
        for fold in folds {
            rows.push(FoldRow::new(fold))?;
        }
        Ok(rows)
    }

    /// Which sides have some leaf of the set.
    pub(crate) fn met(&self, set: &LeafSet<LEAF_WORDS>) -> Met
        ensures left { IsTrue result.left ↔ Meets self.now.left set.now }
        ensures right { IsTrue result.right ↔ Meets self.now.right set.now }
    {
        Met {
            left: self.left.meets_between(set, self.from, self.to),
            right: self.right.meets_between(set, self.from, self.to),
        }
    }

    /// Puts the leaves of both sides in.
    fn put_in(&self, set: &mut LeafSet<LEAF_WORDS>)
        ensures { (n : ℕ) → has_leaf set.new n ≡ (has_leaf set.old n || (has_leaf self.now.left n || has_leaf self.now.right n)) }
    {
        set.union_between(&self.left, self.from, self.to);
        set.union_between(&self.right, self.from, self.to);
    }

    /// Puts the leaves of both sides in where one of them has that leaf.
    pub(crate) fn put_in_with(&self, leaf: u32, set: &mut LeafSet<LEAF_WORDS>)
        requires { leaf < MOST_LEAVES }
        ensures { (n : ℕ) → IsTrue (has_leaf set.new n) ↔ (IsTrue (has_leaf set.old n) ⊎ (HasLeaf self.now leaf × HasLeaf self.now n)) }
    {
        if self.left.has(leaf) || self.right.has(leaf) {
            self.put_in(set);
        }
    }

    /// Where all of one side is settled, so is the choice.
    pub(crate) fn settle(&self, settled: &mut LeafSet<LEAF_WORDS>)
        ensures { (n : ℕ) → IsTrue (has_leaf settled.new n) ↔ (IsTrue (has_leaf settled.old n)
            ⊎ (HasLeaf self.now n × (IsWithin self.now.left settled.old ⊎ IsWithin self.now.right settled.old))) }
    {
        let FoldRow { from, to, .. } = *self;
        if self.left.is_subset_between(settled, from, to)
            || self.right.is_subset_between(settled, from, to)
        {
            self.put_in(settled);
        }
    }

    /// A side that is begun closes the other one off.
    pub(crate) fn close(&self, begun: Met, closed: &mut LeafSet<LEAF_WORDS>)
        ensures { (n : ℕ) → has_leaf closed.new n ≡ ((has_leaf closed.old n || (begun.left && has_leaf self.now.right n))
            || (begun.right && has_leaf self.now.left n)) }
    {
        if begun.left {
            closed.union_between(&self.right, self.from, self.to);
        }
        if begun.right {
            closed.union_between(&self.left, self.from, self.to);
        }
    }

    /// A side that cannot go on without a banned leaf is barred.
    pub(crate) fn bar(&self, spoilt: Met, barred: &mut LeafSet<LEAF_WORDS>)
        ensures { (n : ℕ) → has_leaf barred.new n ≡ ((has_leaf barred.old n || (spoilt.left && has_leaf self.now.left n))
            || (spoilt.right && has_leaf self.now.right n)) }
    {
        if spoilt.left {
            barred.union_between(&self.left, self.from, self.to);
        }
        if spoilt.right {
            barred.union_between(&self.right, self.from, self.to);
        }
    }

    /// Where neither side can be taken, since it cannot go on without a banned leaf or the other one is begun, the choice
    /// as a whole is spoilt; else no leaf of it is.
    pub(crate) fn spoil(&self, begun: Met, spoilt: Met, leaves: &mut LeafSet<LEAF_WORDS>)
        ensures { (n : ℕ) → has_leaf leaves.new n ≡ spoils_after self.now begun spoilt (has_leaf leaves.old n) n }
    {
        if (spoilt.left || begun.right) && (spoilt.right || begun.left) {
            self.put_in(leaves);
        } else {
            leaves.remove_between(&self.left, self.from, self.to);
            leaves.remove_between(&self.right, self.from, self.to);
        }
    }
}
