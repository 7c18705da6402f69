ghost use Rattle.std.specs.Prelude.{◌<◌, ◌≤◌, ◌*◌, ◌+◌, ◌↔◌, ◌⊎◌, ℕ, IsTrue, IfOk, length, slice_get, take};
ghost use Rattle.flow_model.specs.declared.limits.TheConstants.{MOST_LEAVES};
ghost use Rattle.flow_model.specs.Lists.{◌∈◌, Each};
ghost use Rattle.leaf_rows.specs.Leaves.{has_leaf};
ghost use Rattle.flow_plan.specs.Courses.{IsAdvanced, IsCourse, IsServed, IsTurn, IsTurnBetween, ToldBy};
ghost use Rattle.flow_plan.specs.CutSides.{IsCut};
ghost use Rattle.flow_plan.specs.Planned.{Planned};

use crate::cut_sides::CutSides;
use crate::fold_row::FoldRow;
use crate::sides::Sides;
use flow_model::MOST_LEAVES;
use leaf_rows::{LEAF_WORDS, LeafSet};
use std::alloc::{AllocError, Global};

/// What choices that stay tell besides, once one more leaf is done.
#[derive(Drop)]
pub(crate) struct Turn {
    settled: Vec<u32>,
    closed: Vec<u32>,
}

/// What choices that stay tell while the leaves of a list are done in turn: of nothing done, and what each leaf changes.
///
/// One course serves all plans. Where no choice stays, it has no turns.
#[derive(Drop)]
pub struct Course {
    start: CutSides<LEAF_WORDS>,
    turns: Vec<Turn>,
}

/// The members of the one set that the other lacks.
fn besides(
    alloc: Global,
    set: &LeafSet<LEAF_WORDS>,
    other: &LeafSet<LEAF_WORDS>,
) -> Result<Vec<u32>, AllocError>
    ensures { IfOk result (λ list. (n : ℕ) → (n ∈ list.items) ↔ (IsTrue (has_leaf set.now n) × ¬ IsTrue (has_leaf other.now n))) }
{
    let mut rest = *set;
    rest.remove_all(other);
    let mut list = Vec::new(alloc);
    while let Some(leaf) = rest.first() {
        list.push(leaf)?;
        rest.remove(leaf);
    }
    Ok(list)
}

impl Turn {
    /// What the second sides tell besides the first.
    fn between(
        alloc: Global,
        before: &CutSides<LEAF_WORDS>,
        after: &CutSides<LEAF_WORDS>,
    ) -> Result<Turn, AllocError>
        ensures { IfOk result (IsTurnBetween before.now after.now) }
    {
        Ok(Turn {
            settled: besides(alloc, &after.settled, &before.settled)?,
            closed: besides(alloc, &after.closed, &before.closed)?,
        })
    }
}

/// What the choices tell of done leaves.
fn told(folds: &[FoldRow], done: &LeafSet<LEAF_WORDS>) -> CutSides<LEAF_WORDS>
    ensures { ToldBy folds.now done.now result }
{
    Sides::new(folds, done, &LeafSet::new()).cut()
}

/// Puts the leaves in for which there is room.
fn put_in<const W: usize>(leaves: &[u32], set: &mut LeafSet<W>)
    requires { W ≤ 64 }
    ensures { (n : ℕ) → n < 64 * W → IsTrue (has_leaf set.new n) ↔ (IsTrue (has_leaf set.old n) ⊎ (n ∈ leaves.now)) }
{
    for leaf in leaves {
        if *leaf < 64 * W as u32 {
            set.insert(*leaf);
        }
    }
}

impl Course {
    /// That of a list of leaves. It looks at each choice once a leaf, and keeps what that changes.
    pub fn new(alloc: Global, folds: &[FoldRow], leaves: &[u32]) -> Result<Course, AllocError>
        ensures { IfOk result (λ course. (p : Planned) → IsServed folds.now p → IsCourse p leaves.now course) }
    {
        let start = told(folds, &LeafSet::new());
        let turns = if folds.is_empty() {
            Vec::new(alloc)
        } else {
            turns_of(alloc, folds, leaves)?
        };
        Ok(Course { start, turns })
    }

    /// What is told of nothing done, as far as sets of that width have room.
    pub(crate) fn begin<const W: usize>(&self) -> CutSides<W>
        requires { W ≤ 64 }
        ensures done { IsCut self.now.start.done result.done }
        ensures settled { IsCut self.now.start.settled result.settled }
        ensures closed { IsCut self.now.start.closed result.closed }
    {
        CutSides {
            done: self.start.done.resized(),
            settled: self.start.settled.resized(),
            closed: self.start.closed.resized(),
        }
    }

    /// Takes in what is told once the leaf at that place is done.
    pub(crate) fn pass<const W: usize>(&self, place: usize, leaf: u32, sides: &mut CutSides<W>)
        requires wide { W ≤ 64 }
        requires small { leaf < 64 * W }
        ensures { IsAdvanced (slice_get self.now.turns.items place) leaf sides.old sides.new }
    {
        sides.done.insert(leaf);
        sides.settled.insert(leaf);
        if let Some(turn) = self.turns.get(place) {
            put_in(&turn.settled, &mut sides.settled);
            put_in(&turn.closed, &mut sides.closed);
        }
    }
}

/// What each of the leaves changes, as far as plans can go.
fn turns_of(alloc: Global, folds: &[FoldRow], leaves: &[u32]) -> Result<Vec<Turn>, AllocError>
    ensures { IfOk result (λ turns. (p : Planned) → IsServed folds.now p →
        (i : ℕ) → i < length leaves.now → Each (λ n. n < MOST_LEAVES) (take (i + 1) leaves.now) →
        IsTurn p (λ n. n ∈ take i leaves.now) (λ n. n ∈ take (i + 1) leaves.now) (slice_get turns.items i)) }
{
    let mut turns = Vec::new(alloc);
    let mut done = LeafSet::new();
    let mut before = told(folds, &done);
    for leaf in leaves {
        // no plan has a greater one
        if MOST_LEAVES <= *leaf {
            return Ok(turns);
        }
        done.insert(*leaf);
        let after = told(folds, &done);
        turns.push(Turn::between(alloc, &before, &after)?)?;
        before = after;
    }
    Ok(turns)
}
