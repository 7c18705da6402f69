//! What may come next of a run, leaf by leaf.
ghost use Rattle.std.specs.Prelude.{◌≡◌, ◌↔◌, ℕ, IsTrue, MatchOption, [], ◌∷◌, ◌++◌, length, slice_get};
ghost use Rattle.flow_model.specs.Facts.{event_at, Holds};
ghost use Rattle.flow_model.specs.Schema.{IsEventLeaf, IsGood, IsOtherLeaf};
ghost use Rattle.flow_model.specs.Run.{current_leaves, database, CanDoAside, CanTake, IsOpen, IsOpenIndex, MayAllFollow, MayFollowFirst};
ghost use Rattle.flow_residual.specs.Remaining.{IsAvoidable};

use crate::run::Core;
use flow_model::{Label, MOST_LEAVES};

impl Core {
    ghost use Rattle.flow_core.specs.Run.{schema, now};

    /// How many leaves the goal has.
    pub(crate) fn leaves(&self) -> u32
        ensures { result ≡ length (schema self.now).labels }
    {
        self.workflow.tree().leaves()
    }

    /// The label of a leaf, if the goal has such a leaf.
    pub(crate) fn label_at(&self, leaf: u32) -> Option<Label>
        ensures { result ≡ slice_get (schema self.now).labels leaf }
    {
        self.workflow.tree().label(leaf)
    }

    /// The event of a leaf, if the goal has such a leaf, and it is an event's.
    pub(crate) fn event_at(&self, leaf: u32) -> Option<u32>
        ensures { result ≡ event_at (schema self.now).labels leaf }
    {
        self.workflow.tree().event(leaf)
    }

    /// Whether the label may be performed now.
    pub(crate) fn label_holds(&self, label: Label) -> bool
        ensures { IsTrue result ↔ Holds (database (schema self.now) (now self.now)) label }
    {
        self.world.holds(label)
    }

    /// Finds at once what can be taken or done, so that the questions about this state cost little. The run stays as it is.
    pub fn look_ahead(&mut self)
        ensures { self.new ≡ self.old }
    {
        if !self.looked {
            self.residual.look_ahead();
            self.beside = self.residual.all_that_follow(self.claims.leaves());
            self.first = self.residual.all_that_follow_first(self.claims.leaves());
            self.looked = true;
        }
    }

    /// Is called before a question about one leaf, which is not worth a look ahead. Many such questions about one state are. The run
    /// stays as it is.
    pub(crate) fn prepare(&mut self)
        ensures { self.new ≡ self.old }
    {
        self.residual.prepare();
    }

    /// Whether, in some one option, the leaf and those of the claims may follow in every order.
    pub(crate) fn may_all_follow(&self, leaf: u32) -> bool
        ensures { IsTrue result ↔ MayAllFollow (schema self.now) (now self.now) (current_leaves (now self.now) ++ leaf ∷ []) }
    {
        if self.looked && leaf < MOST_LEAVES {
            self.beside.has(leaf)
        } else {
            self.residual.legal_take(self.claims.leaves(), leaf)
        }
    }

    /// Whether, in some one option, the leaf may come next, and those of the claims then in every order.
    pub(crate) fn may_follow_first(&self, leaf: u32) -> bool
        ensures { IsTrue result ↔ MayFollowFirst (schema self.now) (now self.now) leaf (current_leaves (now self.now)) }
    {
        if self.looked && leaf < MOST_LEAVES {
            self.first.has(leaf)
        } else {
            self.residual.legal_do(self.claims.leaves(), leaf)
        }
    }

    /// Whether the leaf can be taken.
    pub(crate) fn can_take(&self, leaf: u32) -> bool
        requires { IsEventLeaf (schema self.now) leaf }
        ensures { IsTrue result ↔ CanTake (schema self.now) (now self.now) leaf }
    {
        !self.claims.has_leaf(leaf) && self.may_all_follow(leaf)
    }

    /// Whether the leaf can be done, whatever holds.
    pub(crate) fn may_be_done(&self, leaf: u32) -> bool
        requires { IsOtherLeaf (schema self.now) leaf }
        ensures { IsTrue result ↔ CanDoAside (schema self.now) (now self.now) leaf }
    {
        self.may_follow_first(leaf)
    }

    /// Whether some execution goes on without the leaf.
    pub(crate) fn can_avoid(&self, leaf: u32) -> bool
        ensures { IsTrue result ↔ IsAvoidable (schema self.now) (now self.now) leaf }
    {
        self.residual.can_avoid(leaf)
    }

    /// The last place of the journal at which another choice is still free.
    pub fn open_index(&self) -> Option<u32>
        ensures { MatchOption result ((i : ℕ) → ¬ (IsOpen (schema self.now) (now self.now) i)) (IsOpenIndex (schema self.now) (now self.now)) }
    {
        self.residual.open_index()
    }

    /// Whether the journal is a whole execution.
    pub fn is_complete(&self) -> bool
        ensures { IsTrue result ↔ IsGood (schema self.now) (now self.now).journal }
    {
        self.residual.is_complete()
    }
}
