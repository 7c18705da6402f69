//! What is known of the first leaves of a plan, and which parts may then keep leaves out.
ghost use Rattle.std.specs.Prelude.{◌≡◌, ◌<◌, ◌≤◌, ◌*◌, ◌+◌, ◌↔◌, ◌^◌, ℕ, List, IsTrue, All, if◌then◌else◌, length, get_or};
ghost use Rattle.leaf_rows.specs.Leaves.{has_leaf};
ghost use Rattle.leaf_rows.specs.declared.leaf_set.LeafSet.{LeafSet};
ghost use Rattle.flow_plan.specs.Parts.{IsPlaced, PartAllows};
ghost use Rattle.flow_plan.specs.Passed.{ArePassed, IsHeld};

use crate::cut_sides::CutSides;
use crate::part_row::PartRow;
use crate::span::Span;
use leaf_rows::LeafSet;

/// Of the leaves up to a place: behind which one the last stands that is done, that is not, and that is asked about; 0 where there is none.
///
/// So a part that ends there is begun, lacks a leaf, has one that is asked about, just where that is behind its first place.
#[derive(Clone, Copy)]
pub(crate) struct Passed {
    place: usize,
    done: usize,
    lacking: usize,
    asked: usize,
}

/// Leaves that are kept so far, and the places of the last part that held them all to itself.
#[derive(Clone, Copy)]
pub(crate) struct Kept<const W: usize> {
    pub(crate) leaves: LeafSet<W>,
    pub(crate) within: Option<Span>,
}

/// The one where so, else the other.
fn either(so: bool, one: usize, other: usize) -> usize
    ensures { result ≡ if so then one else other }
{
    if so { one } else { other }
}

impl Passed {
    /// No leaf yet.
    pub(crate) fn new() -> Passed
        ensures place { result.place ≡ 0 }
        ensures passed { (w : ℕ) (ns : List ℕ) (sides : CutSides w) (asked : LeafSet w) → ArePassed ns sides asked result }
    {
        Passed {
            place: 0,
            done: 0,
            lacking: 0,
            asked: 0,
        }
    }

    /// The same where that is not past the place. Parts come by their ends, so it is; no answer rests on that.
    fn not_past(self, end: usize) -> Passed
        ensures place { result.place ≤ end }
        ensures passed { (w : ℕ) (ns : List ℕ) (sides : CutSides w) (asked : LeafSet w) → ArePassed ns sides asked self → ArePassed ns sides asked result }
    {
        if self.place <= end {
            self
        } else {
            Passed::new()
        }
    }

    /// With one leaf more.
    fn with<const W: usize>(self, leaf: u32, sides: &CutSides<W>, asked: &LeafSet<W>) -> Passed
        requires room { self.place + 1 < 2 ^ 64 }
        requires small { leaf < 64 * W }
        ensures place { result.place ≡ self.place + 1 }
        ensures passed { (ns : List ℕ) → ArePassed ns sides.now asked.now self → leaf ≡ get_or ns self.place 0 → self.place < length ns →
            ArePassed ns sides.now asked.now result }
    {
        let place = self.place + 1;
        let done = sides.done.has(leaf);
        Passed {
            place,
            done: either(done, place, self.done),
            lacking: either(done, self.lacking, place),
            asked: either(asked.has(leaf), place, self.asked),
        }
    }

    /// Up to that place.
    pub(crate) fn up_to<const W: usize>(
        self,
        end: usize,
        leaves: &[u32],
        sides: &CutSides<W>,
        asked: &LeafSet<W>,
    ) -> Passed
        requires { All (λ n. n < 64 * W) leaves.now }
        ensures { end ≤ length leaves.now → ArePassed leaves.now sides.now asked.now self →
            ArePassed leaves.now sides.now asked.now result × (result.place ≡ end) }
    {
        let mut passed = self.not_past(end);
        for place in passed.place..end.min(leaves.len()) {
            passed = passed.with(leaves[place], sides, asked);
        }
        passed
    }
}

impl<const W: usize> Kept<W> {
    /// Whether it is known that the part there has all of them.
    fn lie_in(&self, span: Span) -> bool
        ensures { IsTrue result → (ns : List ℕ) (row : PartRow W) → span ≡ row.span → IsPlaced ns row → IsHeld ns self.now → (n : ℕ) →
            IsTrue (has_leaf self.now.leaves n) → IsTrue (has_leaf row.inside n) }
    {
        match self.within {
            Some(held) => held.lies_in(span),
            None => false,
        }
    }

    /// Of the leaves those that the part there lets come next. Its row is read where it may keep one out: not where it is finished, is not
    /// begun and has none of them, or has all of them.
    pub(crate) fn pass(
        &mut self,
        span: Span,
        part: &PartRow<W>,
        passed: &Passed,
        sides: &CutSides<W>,
    )
        ensures { (ns : List ℕ) (asked : LeafSet W) → span ≡ part.now.span → IsPlaced ns part.now → ArePassed ns sides.now asked passed.now → passed.now.place ≡ part.now.span.end →
            ((n : ℕ) → IsTrue (has_leaf self.old.leaves n) → IsTrue (has_leaf asked n)) → IsHeld ns self.old →
            IsHeld ns self.new × ((n : ℕ) → IsTrue (has_leaf self.new.leaves n) ↔ (IsTrue (has_leaf self.old.leaves n) × PartAllows part.now sides.now n)) }
    {
        let Span { first, .. } = span;
        if passed.done <= first {
            if first < passed.asked {
                self.leaves = part.keep_allowed(sides, self.leaves);
            }
        } else if first < passed.lacking && !self.lie_in(span) {
            self.leaves = part.keep_allowed(sides, self.leaves);
            self.within = Some(span);
        }
    }
}
