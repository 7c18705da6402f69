ghost use Rattle.std.specs.Prelude.{◌≡◌, ◌<◌, ◌↔◌, ℕ, Bool, List, IsTrue, [], ◌∷◌, IfSome, IfNone};
ghost use Rattle.flow_model.specs.declared.limits.TheConstants.{MOST_LEAVES};
ghost use Rattle.flow_model.specs.Lists.{◌∈◌, Each, AreDistinct};
ghost use Rattle.flow_model.specs.Process;
ghost use Rattle.flow_model.specs.FoldedReady.{IsCompleteFoldedRun, IsFinished, IsFoldedRun};
ghost use Rattle.flow_model.specs.FoldedRun.{CanAvoid};
ghost use Rattle.leaf_rows.specs.Leaves.{has_leaf};
ghost use Rattle.flow_plan.specs.CutSides.{TellIn};
ghost use Rattle.flow_plan.specs.Orders.{AreApart, MayComeNext, MayFollowInEveryOrder, TellOf};
ghost use Rattle.flow_plan.specs.Fields.{Fills, IsTableOf};
ghost use Rattle.flow_plan.specs.Planned.{Planned, pairs_of};
ghost use Rattle.flow_plan.specs.Sided.{AreSidesOf, IsDoneIn};
ghost use Rattle.flow_plan.specs.Rows.{IsRowOf};

use crate::cut_sides::CutSides;
use crate::plan::Plan;
use crate::sets::with;
use crate::sides::Sides;
use crate::table::{Rows, Table, by_width};
use leaf_rows::{LEAF_WORDS, LeafSet};

/// The leaves as a set, where none of them stands twice.
#[tactic(auto, using(crate::proofs::Together::twice_there))]
pub fn distinct(list: &[u32]) -> Option<LeafSet<LEAF_WORDS>>
    requires { Each (λ n. n < MOST_LEAVES) list.now }
    ensures some { IfSome result (λ set. AreDistinct list.now × IsRowOf (λ x. x ∈ list.now) set) }
    ensures none { IfNone result (¬ (AreDistinct list.now)) }
{
    let mut set = LeafSet::new();
    for leaf in list {
        if set.has(*leaf) {
            return None;
        }
        set.insert(*leaf);
    }
    Some(set)
}

impl<const W: usize> Table<W> {
    /// Whether each of the leaves may come next.
    fn each_ready(&self, leaves: &[u32], sides: &CutSides<W>, list: &[u32]) -> bool
        requires { Fills leaves.now self.now.before.items }
        ensures { (p : Planned) → IsTableOf p self.now → p.leaves ≡ leaves.now → (done : ℕ → Bool) →
            TellIn p (λ x. IsTrue (done x)) sides.now → IsTrue result ↔ Each (MayComeNext p (λ x. IsTrue (done x))) list.now }
    {
        for leaf in list {
            if !self.ready(leaves, sides, *leaf) {
                return false;
            }
        }
        true
    }
}

impl Plan {
    /// Whether each of the leaves may come next.
    fn each_ready(&self, sides: &Sides, list: &[u32]) -> bool
        requires { TellOf self.now sides.now }
        ensures { IsTrue result ↔ Each (MayComeNext self.now (IsDoneIn sides.now)) list.now }
    {
        by_width!(&self.rows, table => table.each_ready(self.leaves(), &sides.cut(), list))
    }

    /// Whether leaves that may come next, none of them twice, may follow in every order, where it is known which leaves
    /// they close off. It takes no memory.
    pub fn go_together(&self, apart: &LeafSet<LEAF_WORDS>, leaves: &LeafSet<LEAF_WORDS>) -> bool
        ensures { (done : ℕ → Bool) (list : List ℕ) → IsRowOf (λ x. x ∈ list) leaves.now → AreDistinct list →
            Each (MayComeNext self.now (λ x. IsTrue (done x))) list → AreApart self.now list apart.now →
            IsTrue result ↔ MayFollowInEveryOrder self.now (λ x. IsTrue (done x)) list }
    {
        // the rows keep that the goal is folded and ordered
        let _ = &self.rows;
        !leaves.meets(apart) && self.keeps_together(leaves)
    }

    /// Whether the leaves may follow the done ones in every order, where it is known which leaves they close off. It takes
    /// no memory.
    pub fn in_every_order(&self, sides: &Sides, apart: &LeafSet<LEAF_WORDS>, list: &[u32]) -> bool
        requires tell { TellOf self.now sides.now }
        requires apart { AreApart self.now list.now apart.now }
        ensures { IsTrue result ↔ MayFollowInEveryOrder self.now (IsDoneIn sides.now) list.now }
    {
        // the rows keep how large its leaves are
        let _ = &self.rows;
        if !self.each_ready(sides, list) {
            return false;
        }
        match distinct(list) {
            Some(set) => self.go_together(apart, &set),
            None => false,
        }
    }

    /// Whether the leaf and the claimed ones may follow the done ones in every order, where it is known which leaves they close
    /// off. It takes no memory.
    pub fn side_by_side(
        &self,
        sides: &Sides,
        apart: &LeafSet<LEAF_WORDS>,
        claims: &[u32],
        leaf: u32,
    ) -> bool
        requires tell { TellOf self.now sides.now }
        requires apart { AreApart self.now (leaf ∷ claims.now) apart.now }
        ensures { IsTrue result ↔ MayFollowInEveryOrder self.now (IsDoneIn sides.now) (leaf ∷ claims.now) }
    {
        // the rows keep how large its leaves are
        let _ = &self.rows;
        if !self.ready(sides, leaf) || !self.each_ready(sides, claims) {
            return false;
        }
        let Some(set) = distinct(claims) else {
            return false;
        };
        !set.has(leaf) && self.go_together(apart, &with(&set, leaf))
    }

    /// Whether nothing of the plan is left to do: each of its leaves is done or in a choice that is finished.
    pub fn complete(&self, sides: &Sides) -> bool
        requires { TellOf self.now sides.now }
        ensures finished { IsTrue result ↔ IsFinished self.now.process (IsDoneIn sides.now) }
        // of a ready run: whether it is complete
        ensures of_run { (run : List ℕ) → IsFoldedRun self.now.process (pairs_of self.now.tokens) run
            → ((n : ℕ) → IsDoneIn sides.now n ↔ (n ∈ run))
            → IsTrue result ↔ IsCompleteFoldedRun self.now.process (pairs_of self.now.tokens) run }
    {
        by_width!(&self.rows, table => table.complete(&sides.cut()))
    }

    /// Whether the plan cannot go on without the banned leaves.
    pub fn is_spoilt(&self, sides: &Sides) -> bool
        ensures { (done banned : ℕ → Bool) → AreSidesOf self.now.process (λ n. IsTrue (done n)) (λ n. IsTrue (banned n)) sides.now →
            IsTrue result ↔ ¬ (CanAvoid self.now.process (λ n. IsTrue (done n)) (λ n. IsTrue (banned n))) }
    {
        by_width!(&self.rows, table => table.has_some(&sides.spoilt.resized()))
    }
}
