ghost use Rattle.std.specs.Prelude.{◌≡◌, ◌≢◌, ◌<◌, ◌↔◌, ℕ, List, IsTrue, IfOk};
ghost use Rattle.std.specs.List.Sorted.{IsStrictlyIncreasing};
ghost use Rattle.flow_model.specs.Lists.{◌∈◌, Each, AreDistinct};
ghost use Rattle.flow_model.specs.Process;
ghost use Rattle.flow_model.specs.Ready.{DirectlyBefore};
ghost use Rattle.flow_laws.specs.WellFormed.{EachTwo};
ghost use Rattle.flow_fold_laws.specs.Unfolding.{IsFoldedOrdered};
ghost use Rattle.flow_model.specs.Folding.{outside_choices};
ghost use Rattle.flow_goal.specs.LeftSides.{left_sides};
ghost use Rattle.flow_goal.specs.Goal.{process_of};
ghost use Rattle.flow_goal.specs.Written.{nodes_of};
ghost use Rattle.leaf_rows.specs.Leaves.{has_leaf};
ghost use Rattle.flow_plan.specs.Rows.{IsRowOf};
ghost use Rattle.flow_plan.specs.Planned.{pairs_of};

use crate::sides::Sides;
use crate::table::{Rows, by_width, parts_keep_together};
use crate::token::OrderToken;
use crate::words::Words;
use flow_goal::{Choiceless, Goal, Node};
use flow_model::MOST_LEAVES;
use leaf_rows::{LEAF_WORDS, LeafSet};
use std::alloc::{AllocError, Global};
use std::marker::Model;

/// A goal whose choices all stay, and orders between some of its leaves outside choices.
#[derive(Drop)]
pub struct Plan {
    goal: Choiceless,
    tokens: Vec<OrderToken>,
    pub(crate) rows: Rows,
}

impl Model for Plan {
    ghost use Rattle.flow_plan.specs.Planned.{Planned, planned_code};

    ghost Value = { Planned };

    ghost coded = { planned_code };

    ghost use Rattle.flow_plan.specs.Planned.{planned};
    ghost use Rattle.flow_plan.specs.Fields.{IsPlanOf};

    ghost view = { λ p. planned p.goal p.tokens.items };

    ghost invariant = { λ p. IsPlanOf (planned p.goal p.tokens.items) p.rows };
}

impl Plan {
    ghost use Rattle.std.specs.Prelude.{Bool, ◌≤◌, ◌*◌};
    ghost use Rattle.flow_model.specs.FoldedReady.{IsClosedOff};
    ghost use Rattle.flow_plan.specs.Orders.{TellOf, MayComeNext, MayComeAfter};
    ghost use Rattle.flow_plan.specs.Sided.{IsDoneIn};
    ghost use Rattle.flow_plan.specs.Widths.{words_of};

    /// A plan for the goal, in which each token's sender is done before its receiver.
    pub fn new(
        alloc: Global,
        goal: &Choiceless,
        tokens: Vec<OrderToken>,
    ) -> Result<Plan, AllocError>
        requires small { Each (λ n. n < MOST_LEAVES) goal.now.leaves }
        requires of_fixed { Each (λ pair. (pair.0 ∈ goal.now.fixed) × (pair.1 ∈ goal.now.fixed)) (pairs_of tokens.items) }
        requires different { Each (λ pair. pair.0 ≢ pair.1) (pairs_of tokens.items) }
        ensures process { IfOk result (λ plan. plan.process ≡ goal.now.process) }
        ensures leaves { IfOk result (λ plan. plan.leaves ≡ goal.now.leaves) }
        ensures tokens { IfOk result (λ plan. plan.tokens ≡ tokens.items) }
        ensures ordered { IfOk result (λ plan. IsFoldedOrdered plan.process (pairs_of plan.tokens)) }
    {
        let goal = goal.copy(alloc)?;
        let rows = Rows::new(alloc, &goal, &tokens)?;
        Ok(Plan { goal, tokens, rows })
    }

    /// The goal, built anew.
    pub fn goal(&self, alloc: Global) -> Result<Goal, AllocError>
        ensures process { IfOk result (λ goal. process_of goal ≡ self.now.process) }
        ensures ordered { IsFoldedOrdered self.now.process (pairs_of self.now.tokens) }
    {
        self.goal.goal(alloc)
    }

    /// The marks of the goal from left to right.
    pub fn nodes(&self) -> &[Node]
        ensures nodes { result.now ≡ nodes_of self.now.process }
        ensures ordered { IsFoldedOrdered self.now.process (pairs_of self.now.tokens) }
    {
        self.goal.nodes()
    }

    /// The leaves from left to right, which is from the least to the greatest.
    pub fn leaves(&self) -> &[u32]
        ensures leaves { result.now ≡ self.now.leaves }
        ensures listed { self.now.leaves ≡ Process.leaves self.now.process }
        ensures rising { IsStrictlyIncreasing self.now.leaves }
        ensures small { Each (λ n. n < MOST_LEAVES) self.now.leaves }
    {
        self.goal.leaves()
    }

    /// The tokens in the order in which they were given.
    pub fn tokens(&self) -> &[OrderToken]
        ensures tokens { result.now ≡ self.now.tokens }
        ensures ordered { IsFoldedOrdered self.now.process (pairs_of self.now.tokens) }
    {
        &self.tokens
    }

    /// The plan with the left side taken at each choice.
    pub fn left_sides(&self, alloc: Global) -> Result<Plan, AllocError>
        ensures process { IfOk result (λ plan. plan.process ≡ left_sides self.now.process) }
        ensures tokens { IfOk result (λ plan. plan.tokens ≡ self.now.tokens) }
    {
        let goal = self.goal.left_sides(alloc)?;
        let tokens = Vec::from_slice(alloc, &self.tokens)?;
        Plan::new(alloc, &goal, tokens)
    }

    /// The plan with its choices left out.
    pub fn outside(&self, alloc: Global) -> Result<Plan, AllocError>
        ensures process { IfOk result (λ plan. plan.process ≡ outside_choices self.now.process) }
        ensures tokens { IfOk result (λ plan. plan.tokens ≡ self.now.tokens) }
    {
        let goal = self.goal.outside(alloc)?;
        let tokens = Vec::from_slice(alloc, &self.tokens)?;
        Plan::new(alloc, &goal, tokens)
    }

    /// The leaves directly before that leaf, in the goal or by a token.
    pub fn all_before(&self, leaf: u32) -> LeafSet<LEAF_WORDS>
        ensures { (x : ℕ) → IsTrue (has_leaf result x) ↔ DirectlyBefore self.now.process (pairs_of self.now.tokens) x leaf }
    {
        // the rows keep how large its leaves are
        let _ = &self.rows;
        self.all_before_in(leaf)
    }

    /// The leaves directly before that leaf, as far as a set of that width has room for them. It takes as long as the set is wide.
    pub fn all_before_in<const V: usize>(&self, leaf: u32) -> LeafSet<V>
        requires { V ≤ 64 }
        ensures cut { (x : ℕ) → IsTrue (has_leaf result x) ↔ (x < 64 * V × DirectlyBefore self.now.process (pairs_of self.now.tokens) x leaf) }
        // all of them, where the set has room for each leaf of the plan
        ensures whole { Each (λ n. n < 64 * V) self.now.leaves → (x : ℕ) →
            IsTrue (has_leaf result x) ↔ DirectlyBefore self.now.process (pairs_of self.now.tokens) x leaf }
    {
        by_width!(&self.rows, table => table.all_before(self.leaves(), leaf).resized())
    }

    /// How many words rows ask for that have room for each leaf of the plan.
    pub fn words(&self) -> Words
        ensures within { Each (λ n. n < 64 * words_of result) self.now.leaves }
    {
        match &self.rows {
            Rows::Narrow(_) => Words::Narrow,
            Rows::Middle(_) => Words::Middle,
            Rows::Wide(_) => Words::Wide,
        }
    }

    /// Whether the first leaf is directly before the second, in the goal or by a token.
    pub fn before(&self, first: u32, second: u32) -> bool
        ensures { IsTrue result ↔ DirectlyBefore self.now.process (pairs_of self.now.tokens) first second }
    {
        let before = self.all_before(second);
        first < MOST_LEAVES && before.has(first)
    }

    /// Whether the leaf may come next after the done ones.
    pub fn ready(&self, sides: &Sides, leaf: u32) -> bool
        requires { TellOf self.now sides.now }
        ensures { IsTrue result ↔ MayComeNext self.now (IsDoneIn sides.now) leaf }
    {
        by_width!(&self.rows, table => table.ready(self.leaves(), &sides.cut(), leaf))
    }

    /// Whether leaves that may come next, none of them twice or closed off by another, may come next after one another.
    /// They may where each isolated part has all of them or none.
    pub(crate) fn keeps_together(&self, leaves: &LeafSet<LEAF_WORDS>) -> bool
        ensures { (done : ℕ → Bool) (list : List ℕ) → IsRowOf (λ x. x ∈ list) leaves.now → AreDistinct list →
            Each (MayComeNext self.now (λ n. IsTrue (done n))) list → Each (λ n. ¬ (IsClosedOff self.now.process (λ x. x ∈ list) n)) list →
            IsTrue result ↔ EachTwo (MayComeAfter self.now (λ n. IsTrue (done n))) list }
    {
        by_width!(&self.rows, table => parts_keep_together(&table.parts, &leaves.resized()))
    }
}
