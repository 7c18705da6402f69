//! What is asked of each plan.
ghost use Rattle.std.specs.Prelude.{◌≡◌, ◌<◌, ◌≤◌, ◌↔◌, ◌⊎◌, ℕ, List, IsTrue, IfNone, IfSome, Some, [], ◌∷◌, ◌++◌, length, slice_get};
ghost use Rattle.flow_model.specs.declared.limits.TheConstants.{MOST_LEAVES};
ghost use Rattle.flow_model.specs.Lists.{◌∈◌, Each, AreDistinct};
ghost use Rattle.flow_model.specs.FoldedReady.{IsFoldedRun};
ghost use Rattle.flow_model.specs.FoldedRun.{CanAvoid};
ghost use Rattle.flow_model.specs.Resolution.{ChoiceOption};
ghost use Rattle.leaf_rows.specs.Leaves.{has_leaf};
ghost use Rattle.leaf_rows.specs.declared.leaf_set.LeafSet.{LeafSet};
ghost use Rattle.flow_plan.specs.Rows.{IsRowOf};
ghost use Rattle.flow_residual.specs.Options.{EachHas, HasAt, SomeOption};
ghost use Rattle.flow_residual.specs.Question.{Has, AreWanted, IsAsked, TakesAll, TakesFirst, Takes, TakesInOrder, LeavesOut, IsWhole, AllFollow, FollowsFirst};
ghost use Rattle.flow_residual.specs.declared.question.Question.TheVariants.{Among, First};
ghost use Rattle.flow_residual.specs.Remaining.{IsLive};
ghost use Rattle.flow_residual.specs.Telling.{IsApart, Tells};
ghost use Rattle.flow_residual.specs.Track.{IsNextRow};

use crate::residual::Residual;
use flow_plan::{Sides, Words};
use leaf_rows::{LEAF_WORDS, LeafSet};

/// Where a leaf stands to the claimed ones.
#[derive(Clone, Copy)]
pub(crate) enum Stand {
    /// In every order with them.
    Among,
    /// Before them, and they then in every order.
    First,
}

/// What is asked of a plan about leaves, with what the choices say of it.
#[derive(Clone, Copy)]
pub(crate) enum Question {
    /// Whether it is live, and this leaf may follow in every order with them. With what all of them close off.
    Among(u32, LeafSet<LEAF_WORDS>),
    /// Whether it is live, and this leaf may follow, and they then in every order. With what is told once this leaf is done, and
    /// what they close off.
    First(u32, Sides, LeafSet<LEAF_WORDS>),
    /// Whether it would be live if they were banned besides. With what is told then.
    Without(Sides),
    /// Whether the journal is a whole execution of it.
    Finished,
}

impl Residual {
    /// Whether the journal is a ready run of the plan at that place.
    fn follows(&self, place: usize) -> bool
        requires { place < length self.now.options }
        ensures { (o : ChoiceOption) → slice_get self.now.options place ≡ Some o →
            IsTrue result ↔ IsFoldedRun o.resolution o.order self.now.journal }
    {
        self.front(place) == self.journal().len()
    }

    /// Whether the plan at that place can go on without the banned leaves of which the sides tell. It is asked only where its row of
    /// leaves does not tell.
    fn is_spared(&self, place: usize, sides: &Sides) -> bool
        requires { place < length self.now.options }
        ensures { (o : ChoiceOption) (bans : List ℕ) → slice_get self.now.options place ≡ Some o →
            Tells self.now.options self.now.journal bans sides.now → IsTrue result
            ↔ CanAvoid o.resolution (λ n. n ∈ self.now.journal) (λ n. n ∈ bans) }
    {
        if self.has_leaf_in(place, &sides.spoilt) {
            return false;
        }
        !self.plan(place).is_spoilt(sides)
    }

    /// Whether the plan at that place follows the journal, and can go on without the banned leaves of which the sides tell.
    fn goes_on(&self, place: usize, sides: &Sides) -> bool
        requires { place < length self.now.options }
        ensures { (o : ChoiceOption) (bans : List ℕ) → slice_get self.now.options place ≡ Some o →
            Tells self.now.options self.now.journal bans sides.now → IsTrue result
            ↔ (IsFoldedRun o.resolution o.order self.now.journal × CanAvoid o.resolution (λ n. n ∈ self.now.journal) (λ n. n ∈ bans)) }
    {
        self.follows(place) && self.is_spared(place, sides)
    }

    /// Whether the plan at that place is live.
    pub(crate) fn is_live(&self, place: usize) -> bool
        requires { place < length self.now.options }
        ensures { (o : ChoiceOption) → slice_get self.now.options place ≡ Some o → IsTrue result ↔ IsLive self.now o }
    {
        self.goes_on(place, self.sides())
    }

    /// Whether the plan at that place is live, and the leaf may follow in every order with the claimed ones, each of which
    /// may be begun.
    fn takes(&self, place: usize, claims: &[u32], leaf: u32, apart: &LeafSet<LEAF_WORDS>) -> bool
        requires place { place < length self.now.options }
        requires asked { IsAsked self.now claims.now (Among leaf apart.now) }
        ensures { (o : ChoiceOption) → slice_get self.now.options place ≡ Some o →
            IsTrue result ↔ TakesAll self.now (claims.now ++ leaf ∷ []) o }
    {
        self.is_live(place)
            && self
                .plan(place)
                .side_by_side(self.sides(), apart, claims, leaf)
    }

    /// Whether the plan at that place is live, and the leaf may follow, and then the claimed ones in every order.
    fn takes_first(
        &self,
        place: usize,
        claims: &[u32],
        leaf: u32,
        after: &Sides,
        apart: &LeafSet<LEAF_WORDS>,
    ) -> bool
        requires place { place < length self.now.options }
        requires asked { IsAsked self.now claims.now (First leaf after.now apart.now) }
        ensures { (o : ChoiceOption) → slice_get self.now.options place ≡ Some o →
            IsTrue result ↔ TakesFirst self.now leaf claims.now o }
    {
        if !self.is_live(place) {
            return false;
        }
        let plan = self.plan(place);
        plan.ready(self.sides(), leaf) && plan.in_every_order(after, apart, claims)
    }

    /// Whether the journal is a whole execution of the plan at that place.
    fn is_whole(&self, place: usize) -> bool
        requires { place < length self.now.options }
        ensures { (o : ChoiceOption) → slice_get self.now.options place ≡ Some o → IsTrue result ↔ IsWhole self.now o }
    {
        self.follows(place) && self.plan(place).complete(self.sides())
    }

    /// What the plan at that place answers.
    fn has(&self, place: usize, question: &Question, claims: &[u32]) -> bool
        requires place { place < length self.now.options }
        requires asked { IsAsked self.now claims.now question.now }
        ensures { (o : ChoiceOption) → slice_get self.now.options place ≡ Some o →
            IsTrue result ↔ Has self.now claims.now question.now o }
    {
        match question {
            Question::Among(leaf, apart) => self.takes(place, claims, *leaf, apart),
            Question::First(leaf, after, apart) => {
                self.takes_first(place, claims, *leaf, after, apart)
            }
            Question::Without(sides) => self.goes_on(place, sides),
            Question::Finished => self.is_whole(place),
        }
    }

    /// The place of the first plan that says yes.
    fn first_that_has(&self, question: &Question, claims: &[u32]) -> Option<usize>
        requires { IsAsked self.now claims.now question.now }
        ensures some { IfSome result (HasAt (Has self.now claims.now question.now) self.now.options) }
        ensures none { IfNone result (¬ (SomeOption (Has self.now claims.now question.now) self.now.options)) }
    {
        for place in 0..self.count() {
            if self.has(place, question, claims) {
                return Some(place);
            }
        }
        None
    }

    /// What the plan at that place answers, where its row tells which leaves may come next, and the wanted ones do where it says yes.
    fn has_by_row<const W: usize>(
        &self,
        place: usize,
        row: &LeafSet<W>,
        question: &Question,
        claims: &[u32],
        wanted: &LeafSet<W>,
    ) -> bool
        requires place { place < length self.now.options }
        requires row { (o : ChoiceOption) → slice_get self.now.options place ≡ Some o → IsNextRow self.now.journal o row.now }
        requires asked { IsAsked self.now claims.now question.now }
        requires wanted { AreWanted self.now claims.now question.now wanted.now }
        ensures { (o : ChoiceOption) → slice_get self.now.options place ≡ Some o →
            IsTrue result ↔ Has self.now claims.now question.now o }
    {
        wanted.is_subset(row) && self.has(place, question, claims)
    }

    /// The place of the first plan that says yes, where rows tell which leaves may come next in each, and the wanted ones do in
    /// one that says yes. Where its row lacks one of these, a plan is not asked.
    fn first_by_rows<const W: usize>(
        &self,
        rows: &[LeafSet<W>],
        question: &Question,
        claims: &[u32],
        wanted: &LeafSet<LEAF_WORDS>,
    ) -> Option<usize>
        requires wide { W ≤ 64 }
        requires rows { EachHas (IsNextRow self.now.journal) self.now.options rows.now }
        requires asked { IsAsked self.now claims.now question.now }
        requires wanted { AreWanted self.now claims.now question.now wanted.now }
        ensures some { IfSome result (HasAt (Has self.now claims.now question.now) self.now.options) }
        ensures none { IfNone result (¬ (SomeOption (Has self.now claims.now question.now) self.now.options)) }
    {
        let mine = wanted.resized();
        for place in 0..self.count() {
            if self.has_by_row(place, &rows[place], question, claims, &mine) {
                return Some(place);
            }
        }
        None
    }

    /// The place of the first plan that says yes, where the wanted leaves may come next in one that does.
    fn first_that_wants(
        &self,
        question: &Question,
        claims: &[u32],
        wanted: &LeafSet<LEAF_WORDS>,
    ) -> Option<usize>
        requires asked { IsAsked self.now claims.now question.now }
        requires wanted { AreWanted self.now claims.now question.now wanted.now }
        ensures some { IfSome result (HasAt (Has self.now claims.now question.now) self.now.options) }
        ensures none { IfNone result (¬ (SomeOption (Has self.now claims.now question.now) self.now.options)) }
    {
        let Some(rows) = self.next_rows() else {
            return self.first_that_has(question, claims);
        };
        match rows.words {
            Words::Narrow => self.first_by_rows(&rows.narrow, question, claims, wanted),
            Words::Middle => self.first_by_rows(&rows.middle, question, claims, wanted),
            Words::Wide => self.first_by_rows(&rows.wide, question, claims, wanted),
        }
    }

    /// Whether some plan says yes.
    pub(crate) fn some_has(&self, question: &Question, claims: &[u32]) -> bool
        requires { IsAsked self.now claims.now question.now }
        ensures { IsTrue result ↔ SomeOption (Has self.now claims.now question.now) self.now.options }
    {
        self.first_that_has(question, claims).is_some()
    }

    /// The place of a plan in which the claimed leaves and this one may follow in every order.
    pub(crate) fn taker(&self, claims: &[u32], leaf: u32) -> Option<usize>
        ensures some { IfSome result (HasAt (TakesAll self.now (claims.now ++ leaf ∷ [])) self.now.options) }
        ensures small { IfSome result (λ _. leaf < MOST_LEAVES) }
        ensures none { IfNone result (¬ (SomeOption (TakesAll self.now (claims.now ++ leaf ∷ [])) self.now.options)) }
    {
        let Some(mut set) = self.beginning(claims) else {
            return None;
        };
        if !self.may_begin(leaf) {
            return None;
        }
        set.insert(leaf);
        let apart = self.apart(&set);
        self.first_that_wants(&Question::Among(leaf, apart), claims, &set)
    }

    /// Whether, in some one option, the claimed leaves and this one may follow in every order.
    pub(crate) fn takes_among(&self, claims: &[u32], leaf: u32) -> bool
        ensures { IsTrue result ↔ SomeOption (TakesAll self.now (claims.now ++ leaf ∷ [])) self.now.options }
    {
        self.taker(claims, leaf).is_some()
    }

    /// Whether, in some one option, the leaf may come next, and the claimed leaves then in every order.
    pub(crate) fn takes_before(&self, claims: &[u32], leaf: u32) -> bool
        ensures { IsTrue result ↔ SomeOption (TakesFirst self.now leaf claims.now) self.now.options }
    {
        let Some(set) = self.beginning(claims) else {
            return false;
        };
        if !self.may_begin(leaf) {
            return false;
        }
        let after = self.sides_after(leaf);
        let apart = self.apart(&set);
        let mut next = LeafSet::new();
        next.insert(leaf);
        let question = Question::First(leaf, after, apart);
        self.first_that_wants(&question, claims, &next).is_some()
    }

    /// Whether some option would be live if the leaf were banned besides.
    pub(crate) fn goes_without(&self, leaf: u32) -> bool
        ensures { IsTrue result ↔ SomeOption (LeavesOut self.now (leaf ∷ [])) self.now.options }
    {
        let sides = self.sides_without(leaf);
        self.some_has(&Question::Without(sides), &[leaf])
    }
}
