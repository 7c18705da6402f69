ghost use Rattle.std.specs.Prelude.{◌≡◌, ◌↔◌, ℕ, IsTrue, [], ◌∷◌, ◌++◌, MatchOption};
ghost use Rattle.flow_model.specs.Lists.{Each};
ghost use Rattle.flow_model.specs.Run.{RunState, IsOpen, IsOpenIndex, MayAllFollow, MayFollowFirst};
ghost use Rattle.flow_model.specs.Schema.{Schema, IsGood};
ghost use Rattle.leaf_rows.specs.Leaves.{has_leaf};
ghost use Rattle.flow_residual.specs.Remaining.{IsOf, MayComeNext, IsAvoidable};

use crate::question::{Question, Stand};
use crate::residual::Residual;
use leaf_rows::{LEAF_WORDS, LeafSet};

impl Residual {
    /// Whether, in some one option, the claimed leaves and this one may follow in every order.
    pub fn legal_take(&self, claims: &[u32], leaf: u32) -> bool
        ensures follow { (w : Schema) (s : RunState) → IsOf w s self.now →
            IsTrue result ↔ MayAllFollow w s (claims.now ++ leaf ∷ []) }
        ensures next { IsTrue result → Each (MayComeNext self.now) (claims.now ++ leaf ∷ []) }
    {
        self.takes_among(claims, leaf)
    }

    /// Whether, in some one option, the leaf may come next, and the claimed leaves then in every order.
    pub fn legal_do(&self, claims: &[u32], leaf: u32) -> bool
        ensures first { (w : Schema) (s : RunState) → IsOf w s self.now →
            IsTrue result ↔ MayFollowFirst w s leaf claims.now }
        ensures next { IsTrue result → MayComeNext self.now leaf }
        ensures alone { claims.now ≡ [] → IsTrue result ↔ MayComeNext self.now leaf }
    {
        self.takes_before(claims, leaf)
    }

    /// The leaves that, in some one option, may follow with the claimed ones in every order.
    pub fn all_that_follow(&self, claims: &[u32]) -> LeafSet<LEAF_WORDS>
        ensures { (w : Schema) (s : RunState) → IsOf w s self.now → (leaf : ℕ) →
            IsTrue (has_leaf result leaf) ↔ MayAllFollow w s (claims.now ++ leaf ∷ []) }
    {
        self.all_taken(claims, Stand::Among)
    }

    /// The leaves that, in some one option, may come next, and the claimed leaves then in every order.
    pub fn all_that_follow_first(&self, claims: &[u32]) -> LeafSet<LEAF_WORDS>
        ensures { (w : Schema) (s : RunState) → IsOf w s self.now → (leaf : ℕ) →
            IsTrue (has_leaf result leaf) ↔ MayFollowFirst w s leaf claims.now }
    {
        self.all_taken(claims, Stand::First)
    }

    /// Whether the order leaves the run a way to be completed without the leaf, whatever facts hold.
    pub fn can_avoid(&self, leaf: u32) -> bool
        ensures { (w : Schema) (s : RunState) → IsOf w s self.now → IsTrue result ↔ IsAvoidable w s leaf }
    {
        self.goes_without(leaf)
    }

    /// Whether the journal is a whole execution.
    pub fn is_complete(&self) -> bool
        ensures { (w : Schema) (s : RunState) → IsOf w s self.now → IsTrue result ↔ IsGood w s.journal }
    {
        self.some_has(&Question::Finished, &[])
    }

    /// The last place of the journal at which another choice is still free.
    #[tactic(auto, using(crate::proofs::OpenPlaces::last_open))]
    pub fn open_index(&self) -> Option<u32>
        ensures { (w : Schema) (s : RunState) → IsOf w s self.now →
            MatchOption result ((i : ℕ) → ¬ (IsOpen w s i)) (λ i. IsOpenIndex w s i) }
    {
        self.opens().last().copied()
    }
}
