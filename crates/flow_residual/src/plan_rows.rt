//! For each plan a set of leaves, in rows of one width.
ghost use Rattle.std.specs.Prelude.{◌≡◌, ◌<◌, ◌≤◌, ◌*◌, ℕ, List, IsTrue, IfOk, Some, length, slice_get};
ghost use Rattle.flow_model.specs.declared.limits.TheConstants.{MOST_LEAVES};
ghost use Rattle.flow_model.specs.Lists.{◌∈◌, Each};
ghost use Rattle.flow_model.specs.Resolution.{ChoiceOption};
ghost use Rattle.flow_plan.specs.Options.{options_of};
ghost use Rattle.flow_residual.specs.Options.{EachHas};
ghost use Rattle.flow_residual.specs.PlanRows.{AreLeafRows, HasLeafIn, IsLeafRow};

use crate::sets::set_of;
use flow_model::MOST_LEAVES;
use flow_plan::{KnotFree, MIDDLE_WORDS, NARROW_WORDS, Words};
use leaf_rows::{LEAF_WORDS, LeafSet};
use std::alloc::{AllocError, Global};

/// For each plan a set of leaves, as wide as the plans' leaves ask for. The sets stand one after another in memory, so a look at all
/// of them takes less time than a question to each plan.
#[derive(Drop)]
pub(crate) struct PlanRows {
    /// Which of the three have a row a plan. The other two are empty.
    pub(crate) words: Words,
    pub(crate) narrow: Vec<LeafSet<NARROW_WORDS>>,
    pub(crate) middle: Vec<LeafSet<MIDDLE_WORDS>>,
    pub(crate) wide: Vec<LeafSet<LEAF_WORDS>>,
}

/// The wider of the two.
fn wider(one: Words, other: Words) -> Words {
    match (one, other) {
        (Words::Wide, _) | (_, Words::Wide) => Words::Wide,
        (Words::Middle, _) | (_, Words::Middle) => Words::Middle,
        (Words::Narrow, Words::Narrow) => Words::Narrow,
    }
}

/// The width that has room for the leaves of each plan. No answer rests on it.
fn widest(plans: &[KnotFree]) -> Words {
    let mut widest = Words::Narrow;
    for plan in plans {
        widest = wider(widest, plan.plan().words());
    }
    widest
}

/// Makes each row the leaves of its plan, as far as there is room.
fn fill<const W: usize>(plans: &[KnotFree], rows: &mut [LeafSet<W>])
    requires wide { W ≤ 64 }
    requires one_each { length rows.old ≡ length plans.now }
    ensures { EachHas IsLeafRow (options_of plans.now) rows.new }
{
    for (place, row) in rows.iter_mut().enumerate() {
        *row = set_of(plans[place].plan().leaves()).resized();
    }
}

/// The leaves of each plan, as far as there is room.
fn leaves_of<const W: usize>(
    alloc: Global,
    plans: &[KnotFree],
) -> Result<Vec<LeafSet<W>>, AllocError>
    requires { W ≤ 64 }
    ensures { IfOk result (λ rows. EachHas IsLeafRow (options_of plans.now) rows.items) }
{
    let mut rows = vec![in alloc; LeafSet::new(); plans.len()]?;
    fill(plans, &mut rows);
    Ok(rows)
}

/// Whether the row at that place has a leaf of the set.
fn row_meets<const W: usize>(rows: &[LeafSet<W>], place: usize, set: &LeafSet<LEAF_WORDS>) -> bool
    requires { W ≤ 64 }
    ensures { (os : List ChoiceOption) (o : ChoiceOption) → EachHas IsLeafRow os rows.now → slice_get os place ≡ Some o →
        IsTrue result → HasLeafIn o set.now }
{
    if rows.len() <= place {
        return false;
    }
    rows[place].meets(&set.resized())
}

impl PlanRows {
    /// Of each plan no leaf.
    pub(crate) fn new(alloc: Global, plans: &[KnotFree]) -> Result<PlanRows, AllocError> {
        let words = widest(plans);
        let count = plans.len();
        let (narrow, middle, wide) = match words {
            Words::Narrow => (count, 0, 0),
            Words::Middle => (0, count, 0),
            Words::Wide => (0, 0, count),
        };
        Ok(PlanRows {
            words,
            narrow: vec![in alloc; LeafSet::new(); narrow]?,
            middle: vec![in alloc; LeafSet::new(); middle]?,
            wide: vec![in alloc; LeafSet::new(); wide]?,
        })
    }

    /// The leaves of each plan.
    pub(crate) fn of_leaves(alloc: Global, plans: &[KnotFree]) -> Result<PlanRows, AllocError>
        ensures { IfOk result (λ rows. AreLeafRows (options_of plans.now) rows) }
    {
        let (narrow, middle, wide) = (Vec::new(alloc), Vec::new(alloc), Vec::new(alloc));
        match widest(plans) {
            Words::Narrow => Ok(PlanRows {
                words: Words::Narrow,
                narrow: leaves_of(alloc, plans)?,
                middle,
                wide,
            }),
            Words::Middle => Ok(PlanRows {
                words: Words::Middle,
                narrow,
                middle: leaves_of(alloc, plans)?,
                wide,
            }),
            Words::Wide => Ok(PlanRows {
                words: Words::Wide,
                narrow,
                middle,
                wide: leaves_of(alloc, plans)?,
            }),
        }
    }

    /// How many leaves a row has room for.
    pub(crate) fn most_leaves(&self) -> u32
        ensures { result ≤ MOST_LEAVES }
    {
        match self.words {
            Words::Narrow => 64 * NARROW_WORDS as u32,
            Words::Middle => 64 * MIDDLE_WORDS as u32,
            Words::Wide => MOST_LEAVES,
        }
    }

    /// Whether the row of the plan at that place has a leaf of the set.
    pub(crate) fn meets(&self, place: usize, set: &LeafSet<LEAF_WORDS>) -> bool
        ensures { (os : List ChoiceOption) (o : ChoiceOption) → AreLeafRows os self.now → slice_get os place ≡ Some o →
            IsTrue result → HasLeafIn o set.now }
    {
        match self.words {
            Words::Narrow => row_meets(&self.narrow, place, set),
            Words::Middle => row_meets(&self.middle, place, set),
            Words::Wide => row_meets(&self.wide, place, set),
        }
    }
}
