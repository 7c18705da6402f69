ghost use Rattle.std.specs.Prelude.{◌≡◌, ◌↔◌, ◌||◌, false, ℕ, IsTrue};
ghost use Rattle.leaf_rows.specs.Leaves.{has_leaf};
ghost use Rattle.flow_model.specs.Lists.{◌∈◌, AreDistinct};
ghost use Rattle.flow_model.specs.Process;
ghost use Rattle.flow_model.specs.FoldedReady.{IsClosedOff};
ghost use Rattle.flow_model.specs.Folding.{IsFolded};
ghost use Rattle.flow_plan.specs.FoldRows.{AreFoldRows};
ghost use Rattle.flow_plan.specs.Sided.{AreSidesOf, TakesFold};

use crate::fold_row::FoldRow;
use leaf_rows::{LEAF_WORDS, LeafSet};

/// The done leaves, and what choices that stay in plans say of leaves by them and the banned ones.
#[derive(Clone, Copy)]
pub struct Sides {
    pub done: LeafSet<LEAF_WORDS>,
    /// Done, or in a choice of which one side is finished.
    pub settled: LeafSet<LEAF_WORDS>,
    /// On a side whose other side is begun.
    pub closed: LeafSet<LEAF_WORDS>,
    /// Those after which a goal that can still go on could not do so without the banned leaves.
    pub barred: LeafSet<LEAF_WORDS>,
    /// A goal that has one of these cannot go on without the banned leaves.
    pub spoilt: LeafSet<LEAF_WORDS>,
}

/// The leaves that the done ones close off, which is `closed` of the sides that have these as done: it asks less of each choice.
pub fn closed_off(folds: &[FoldRow], done: &LeafSet<LEAF_WORDS>) -> LeafSet<LEAF_WORDS>
    ensures { (q : Process.Process) → AreFoldRows q folds.now → (n : ℕ) → n ∈ Process.leaves q →
        IsTrue (has_leaf result n) ↔ IsClosedOff q (λ m. IsTrue (has_leaf done.now m)) n }
{
    let mut closed = LeafSet::new();
    for fold in folds {
        fold.close(fold.met(done), &mut closed);
    }
    closed
}

impl Sides {
    /// What the choices say, inner ones first. It takes no memory.
    ///
    /// One list of rows serves all goals to which a workflow's goal folds.
    pub fn new(folds: &[FoldRow], done: &LeafSet<LEAF_WORDS>, banned: &LeafSet<LEAF_WORDS>) -> Sides
        ensures { (q : Process.Process) → AreFoldRows q folds.now → IsFolded q → AreDistinct (Process.leaves q) →
            AreSidesOf q (λ n. IsTrue (has_leaf done.now n)) (λ n. IsTrue (has_leaf banned.now n)) result }
    {
        let mut sides = Sides {
            done: *done,
            settled: *done,
            closed: LeafSet::new(),
            barred: *banned,
            spoilt: *banned,
        };
        for fold in folds {
            sides.take(fold, done);
        }
        sides.barred.union_with(&sides.closed);
        sides
    }

    /// Looks at one more choice.
    fn take(&mut self, fold: &FoldRow, done: &LeafSet<LEAF_WORDS>)
        ensures { TakesFold fold.now done.now self.old self.new }
    {
        let begun = fold.met(done);
        let spoilt = fold.met(&self.spoilt);
        fold.settle(&mut self.settled);
        fold.close(begun, &mut self.closed);
        fold.bar(spoilt, &mut self.barred);
        fold.spoil(begun, spoilt, &mut self.spoilt);
    }
}
