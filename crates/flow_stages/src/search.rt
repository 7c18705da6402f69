//! The stages of an option, looked at in turn.
ghost use Rattle.std.specs.Prelude.{◌≡◌, ◌<◌, ◌≤◌, ◌++◌, ◌∷◌, [], ℕ, List, Some, IsTrue, IfOk, IfNone, IfSome, length, slice_get};
ghost use Rattle.leaf_rows.specs.Leaves.{has_leaf};
ghost use Rattle.flow_model.specs.declared.limits.TheConstants.{MOST_LEAVES};
ghost use Rattle.flow_model.specs.Facts.{HoldsAt, replay};
ghost use Rattle.flow_model.specs.Lists.{◌∈◌, Begins};
ghost use Rattle.flow_model.specs.Process;
ghost use Rattle.flow_model.specs.Schema.{start_of};
ghost use Rattle.flow_workflow.specs.Definition.{schema_of};
ghost use Rattle.flow_plan.specs.FoldRows.{AreFoldRows};
ghost use Rattle.flow_plan.specs.Orders.{MayComeNext};
ghost use Rattle.flow_stages.specs.declared.nodes.Node.{Node};
ghost use Rattle.flow_stages.specs.Asked.{IsNeverSo};
ghost use Rattle.flow_stages.specs.Fitting.{HoldsRoles};
ghost use Rattle.flow_stages.specs.Listed.{IsCovered, IsQuiet, AreQuiet, IsFollowed, IsOpen, IsReached, AreReached, IsToldOn};
ghost use Rattle.flow_stages.specs.Stages.{IsAfter};

use crate::nodes::{Node, is_known};
use crate::question::Question;
use crate::staffing::Staff;
use crate::stage::Stage;
use flow_model::MOST_LEAVES;
use flow_plan::{FoldRow, Plan};
use flow_workflow::Workflow;
use leaf_rows::{LEAF_WORDS, LeafSet};
use std::alloc::{AllocError, Global};

/// Events with the users who take them.
pub type Takers = Vec<(u32, u32)>;

/// What a stage comes to.
#[derive(Drop)]
pub enum Look {
    /// What is asked is not so here.
    Open,
    /// No users can take the events up to here so that what is asked could be so here or later.
    Hopeless,
    /// It is so here: the leaves that were done in turn, their takers, and the event.
    Shown(Vec<u32>, Takers, u32),
    /// The states are spent.
    Spent,
}

/// What was found.
#[derive(Drop)]
pub enum Searched {
    Nothing,
    /// Leaves done in turn, who takes their events, and the event that is asked about.
    Shown {
        leaves: Vec<u32>,
        takers: Takers,
        event: u32,
    },
    Spent,
}

/// An option that is searched for what is asked.
#[derive(Clone, Copy)]
pub struct Search<'a> {
    pub(crate) workflow: &'a Workflow,
    pub(crate) staff: Staff<'a>,
    pub(crate) folds: &'a [FoldRow],
    pub(crate) plan: &'a Plan,
    pub(crate) question: Question,
}

/// The leaves, and the leaf behind them.
fn with_leaf(leaves: &Vec<u32>, leaf: u32) -> Result<Vec<u32>, AllocError>
    ensures { IfOk result (λ more. more.items ≡ leaves.now.items ++ leaf ∷ []) }
{
    let mut more = leaves.clone()?;
    more.push(leaf)?;
    Ok(more)
}

impl Search<'_> {
    /// The stage once the leaf is done, where its label holds.
    fn stage_after(
        &self,
        alloc: Global,
        stage: &Stage,
        leaf: u32,
    ) -> Result<Option<Stage>, AllocError>
        requires { leaf < MOST_LEAVES }
        ensures none { (list : List ℕ) → IsAfter (schema_of self.now.workflow.now) list stage.now →
            IfOk result (λ next. IfNone next (¬ (HoldsAt (schema_of self.now.workflow.now).labels (replay (schema_of self.now.workflow.now).labels (start_of (schema_of self.now.workflow.now)) list) leaf))) }
        ensures after { (list : List ℕ) → IsAfter (schema_of self.now.workflow.now) list stage.now →
            IfOk result (λ next. IfSome next (IsAfter (schema_of self.now.workflow.now) (list ++ leaf ∷ []))) }
        ensures holds { (list : List ℕ) → IsAfter (schema_of self.now.workflow.now) list stage.now →
            IfOk result (λ next. IfSome next (λ x. HoldsAt (schema_of self.now.workflow.now).labels (replay (schema_of self.now.workflow.now).labels (start_of (schema_of self.now.workflow.now)) list) leaf)) }
    {
        let label = self.workflow.tree().label(leaf);
        if stage.lets(label) {
            Ok(Some(stage.with(alloc, leaf, label)?))
        } else {
            Ok(None)
        }
    }

    /// The stage at the place once the leaf is done there, where its label holds.
    fn node_after(&self, alloc: Global, node: &Node, leaf: u32) -> Result<Option<Node>, AllocError>
        requires { leaf < MOST_LEAVES }
        ensures none { (list : List ℕ) → IsAfter (schema_of self.now.workflow.now) list node.now.stage →
            IfOk result (λ next. IfNone next (¬ (HoldsAt (schema_of self.now.workflow.now).labels (replay (schema_of self.now.workflow.now).labels (start_of (schema_of self.now.workflow.now)) list) leaf))) }
        ensures after { (list : List ℕ) → IsAfter (schema_of self.now.workflow.now) list node.now.stage →
            IfOk result (λ next. IfSome next (λ next. IsAfter (schema_of self.now.workflow.now) (list ++ leaf ∷ []) next.stage)) }
        ensures reached { IsReached (schema_of self.now.workflow.now) self.now.plan.now node.now → MayComeNext self.now.plan.now (λ x. x ∈ node.now.leaves.items) leaf →
            IfOk result (λ next. IfSome next (IsReached (schema_of self.now.workflow.now) self.now.plan.now)) }
    {
        let Some(stage) = self.stage_after(alloc, &node.stage, leaf)? else {
            return Ok(None);
        };
        let leaves = with_leaf(&node.leaves, leaf)?;
        Ok(Some(Node { stage, leaves }))
    }

    /// Looks at a stage that is reached. It is kept where it is new and the search goes on from it.
    fn reach(
        &self,
        alloc: Global,
        nodes: &mut Vec<Node>,
        node: Node,
        states: &mut u64,
    ) -> Result<Look, AllocError>
        requires folds { AreFoldRows self.now.plan.now.process self.now.folds.now }
        requires roles { HoldsRoles self.now.staff.policy.now.duties self.now.staff.users }
        requires reached { AreReached (schema_of self.now.workflow.now) self.now.plan.now nodes.old.items }
        requires new { IsReached (schema_of self.now.workflow.now) self.now.plan.now node }
        ensures grows { Begins nodes.new.items nodes.old.items }
        ensures reached { AreReached (schema_of self.now.workflow.now) self.now.plan.now nodes.new.items }
        ensures told { IfOk result (IsToldOn (schema_of self.now.workflow.now) self.now.staff.policy.now.duties self.now.plan.now self.now.question states.new) }
        ensures fewer { states.new ≤ states.old }
        ensures quiet { IfOk result (λ look. IsOpen look → AreQuiet (schema_of self.now.workflow.now) self.now.staff.policy.now.duties self.now.plan.now self.now.question nodes.old.items →
            AreQuiet (schema_of self.now.workflow.now) self.now.staff.policy.now.duties self.now.plan.now self.now.question nodes.new.items) }
        ensures covered { IfOk result (λ look. IsOpen look → (list : List ℕ) → IsAfter (schema_of self.now.workflow.now) list node.stage →
            IsCovered (schema_of self.now.workflow.now) self.now.staff.policy.now.duties self.now.question nodes.new.items list) }
    {
        if is_known(nodes, &node.stage, node.leaves.len()) {
            return Ok(Look::Open);
        }
        match self.look(alloc, &node, states)? {
            Look::Hopeless => Ok(Look::Open),
            look => {
                nodes.push(node)?;
                Ok(look)
            }
        }
    }

    /// Looks at the stage once the leaf is done after the one at the place.
    fn follow(
        &self,
        alloc: Global,
        nodes: &mut Vec<Node>,
        place: usize,
        leaf: u32,
        states: &mut u64,
    ) -> Result<Look, AllocError>
        requires folds { AreFoldRows self.now.plan.now.process self.now.folds.now }
        requires roles { HoldsRoles self.now.staff.policy.now.duties self.now.staff.users }
        requires small { leaf < MOST_LEAVES }
        requires next { (node : Node) → slice_get nodes.old.items place ≡ Some node → MayComeNext self.now.plan.now (λ x. x ∈ node.leaves.items) leaf }
        requires reached { AreReached (schema_of self.now.workflow.now) self.now.plan.now nodes.old.items }
        ensures grows { Begins nodes.new.items nodes.old.items }
        ensures reached { AreReached (schema_of self.now.workflow.now) self.now.plan.now nodes.new.items }
        ensures told { IfOk result (IsToldOn (schema_of self.now.workflow.now) self.now.staff.policy.now.duties self.now.plan.now self.now.question states.new) }
        ensures fewer { states.new ≤ states.old }
        ensures quiet { IfOk result (λ look. IsOpen look → AreQuiet (schema_of self.now.workflow.now) self.now.staff.policy.now.duties self.now.plan.now self.now.question nodes.old.items →
            AreQuiet (schema_of self.now.workflow.now) self.now.staff.policy.now.duties self.now.plan.now self.now.question nodes.new.items) }
        ensures covered { IfOk result (λ look. IsOpen look → (node : Node) (list : List ℕ) → slice_get nodes.old.items place ≡ Some node →
            IsAfter (schema_of self.now.workflow.now) list node.stage →
            HoldsAt (schema_of self.now.workflow.now).labels (replay (schema_of self.now.workflow.now).labels (start_of (schema_of self.now.workflow.now)) list) leaf →
            IsCovered (schema_of self.now.workflow.now) self.now.staff.policy.now.duties self.now.question nodes.new.items (list ++ leaf ∷ [])) }
    {
        let Some(node) = nodes.get(place) else {
            return Ok(Look::Open);
        };
        match self.node_after(alloc, node, leaf)? {
            Some(next) => self.reach(alloc, nodes, next, states),
            None => Ok(Look::Open),
        }
    }

    /// The same, where the leaf is one of the row.
    fn follow_if_next(
        &self,
        alloc: Global,
        nodes: &mut Vec<Node>,
        place: usize,
        leaf: u32,
        row: &LeafSet<LEAF_WORDS>,
        states: &mut u64,
    ) -> Result<Look, AllocError>
        requires folds { AreFoldRows self.now.plan.now.process self.now.folds.now }
        requires roles { HoldsRoles self.now.staff.policy.now.duties self.now.staff.users }
        requires small { leaf < MOST_LEAVES }
        requires next { (node : Node) → slice_get nodes.old.items place ≡ Some node → IsTrue (has_leaf row.now leaf) → MayComeNext self.now.plan.now (λ x. x ∈ node.leaves.items) leaf }
        requires reached { AreReached (schema_of self.now.workflow.now) self.now.plan.now nodes.old.items }
        ensures grows { Begins nodes.new.items nodes.old.items }
        ensures reached { AreReached (schema_of self.now.workflow.now) self.now.plan.now nodes.new.items }
        ensures told { IfOk result (IsToldOn (schema_of self.now.workflow.now) self.now.staff.policy.now.duties self.now.plan.now self.now.question states.new) }
        ensures fewer { states.new ≤ states.old }
        ensures quiet { IfOk result (λ look. IsOpen look → AreQuiet (schema_of self.now.workflow.now) self.now.staff.policy.now.duties self.now.plan.now self.now.question nodes.old.items →
            AreQuiet (schema_of self.now.workflow.now) self.now.staff.policy.now.duties self.now.plan.now self.now.question nodes.new.items) }
        ensures covered { IfOk result (λ look. IsOpen look → (node : Node) (list : List ℕ) → slice_get nodes.old.items place ≡ Some node →
            IsAfter (schema_of self.now.workflow.now) list node.stage → IsTrue (has_leaf row.now leaf) →
            HoldsAt (schema_of self.now.workflow.now).labels (replay (schema_of self.now.workflow.now).labels (start_of (schema_of self.now.workflow.now)) list) leaf →
            IsCovered (schema_of self.now.workflow.now) self.now.staff.policy.now.duties self.now.question nodes.new.items (list ++ leaf ∷ [])) }
    {
        if row.has(leaf) {
            self.follow(alloc, nodes, place, leaf, states)
        } else {
            Ok(Look::Open)
        }
    }

    /// Looks at the stages once one of the leaves of the row is done after the one at the place, up to the first that shows what is asked.
    fn follow_all(
        &self,
        alloc: Global,
        nodes: &mut Vec<Node>,
        place: usize,
        row: &LeafSet<LEAF_WORDS>,
        states: &mut u64,
    ) -> Result<Look, AllocError>
        requires folds { AreFoldRows self.now.plan.now.process self.now.folds.now }
        requires roles { HoldsRoles self.now.staff.policy.now.duties self.now.staff.users }
        requires reached { AreReached (schema_of self.now.workflow.now) self.now.plan.now nodes.old.items }
        requires here { place < length nodes.old.items }
        requires next { (node : Node) (n : ℕ) → slice_get nodes.old.items place ≡ Some node → IsTrue (has_leaf row.now n) → MayComeNext self.now.plan.now (λ x. x ∈ node.leaves.items) n }
        ensures grows { Begins nodes.new.items nodes.old.items }
        ensures reached { AreReached (schema_of self.now.workflow.now) self.now.plan.now nodes.new.items }
        ensures told { IfOk result (IsToldOn (schema_of self.now.workflow.now) self.now.staff.policy.now.duties self.now.plan.now self.now.question states.new) }
        ensures fewer { states.new ≤ states.old }
        ensures quiet { IfOk result (λ look. IsOpen look → AreQuiet (schema_of self.now.workflow.now) self.now.staff.policy.now.duties self.now.plan.now self.now.question nodes.old.items →
            AreQuiet (schema_of self.now.workflow.now) self.now.staff.policy.now.duties self.now.plan.now self.now.question nodes.new.items) }
        ensures covered { IfOk result (λ look. IsOpen look → (node : Node) (list : List ℕ) (n : ℕ) → slice_get nodes.old.items place ≡ Some node →
            IsAfter (schema_of self.now.workflow.now) list node.stage → n ∈ Process.leaves self.now.plan.now.process → IsTrue (has_leaf row.now n) →
            HoldsAt (schema_of self.now.workflow.now).labels (replay (schema_of self.now.workflow.now).labels (start_of (schema_of self.now.workflow.now)) list) n →
            IsCovered (schema_of self.now.workflow.now) self.now.staff.policy.now.duties self.now.question nodes.new.items (list ++ n ∷ [])) }
    {
        for leaf in self.plan.leaves() {
            match self.follow_if_next(alloc, nodes, place, *leaf, row, states)? {
                Look::Open => {}
                look => return Ok(look),
            }
        }
        Ok(Look::Open)
    }

    /// Looks at the stages that come next after the one at the place, up to the first that shows what is asked.
    fn expand(
        &self,
        alloc: Global,
        nodes: &mut Vec<Node>,
        place: usize,
        states: &mut u64,
    ) -> Result<Look, AllocError>
        requires folds { AreFoldRows self.now.plan.now.process self.now.folds.now }
        requires roles { HoldsRoles self.now.staff.policy.now.duties self.now.staff.users }
        requires reached { AreReached (schema_of self.now.workflow.now) self.now.plan.now nodes.old.items }
        ensures grows { Begins nodes.new.items nodes.old.items }
        ensures reached { AreReached (schema_of self.now.workflow.now) self.now.plan.now nodes.new.items }
        ensures told { IfOk result (IsToldOn (schema_of self.now.workflow.now) self.now.staff.policy.now.duties self.now.plan.now self.now.question states.new) }
        ensures fewer { states.new ≤ states.old }
        ensures quiet { IfOk result (λ look. IsOpen look → AreQuiet (schema_of self.now.workflow.now) self.now.staff.policy.now.duties self.now.plan.now self.now.question nodes.old.items →
            AreQuiet (schema_of self.now.workflow.now) self.now.staff.policy.now.duties self.now.plan.now self.now.question nodes.new.items) }
        ensures followed { IfOk result (λ look. IsOpen look → (node : Node) → slice_get nodes.old.items place ≡ Some node →
            IsFollowed (schema_of self.now.workflow.now) self.now.staff.policy.now.duties self.now.plan.now self.now.question nodes.new.items node.stage) }
    {
        let Some(node) = nodes.get(place) else {
            return Ok(Look::Open);
        };
        let row = self.next_row(&node.stage);
        self.follow_all(alloc, nodes, place, &row, states)
    }

    /// Goes on from each of the stages in turn, which show nothing, up to the first that shows what is asked.
    fn explore(
        &self,
        alloc: Global,
        nodes: &mut Vec<Node>,
        states: &mut u64,
    ) -> Result<Look, AllocError>
        requires folds { AreFoldRows self.now.plan.now.process self.now.folds.now }
        requires roles { HoldsRoles self.now.staff.policy.now.duties self.now.staff.users }
        requires reached { AreReached (schema_of self.now.workflow.now) self.now.plan.now nodes.old.items }
        ensures grows { Begins nodes.new.items nodes.old.items }
        ensures reached { AreReached (schema_of self.now.workflow.now) self.now.plan.now nodes.new.items }
        ensures told { IfOk result (IsToldOn (schema_of self.now.workflow.now) self.now.staff.policy.now.duties self.now.plan.now self.now.question states.new) }
        ensures fewer { states.new ≤ states.old }
        ensures quiet { IfOk result (λ look. IsOpen look → AreQuiet (schema_of self.now.workflow.now) self.now.staff.policy.now.duties self.now.plan.now self.now.question nodes.old.items →
            AreQuiet (schema_of self.now.workflow.now) self.now.staff.policy.now.duties self.now.plan.now self.now.question nodes.new.items) }
        ensures followed { IfOk result (λ look. IsOpen look → (node : Node) → node ∈ nodes.new.items →
            IsFollowed (schema_of self.now.workflow.now) self.now.staff.policy.now.duties self.now.plan.now self.now.question nodes.new.items node.stage) }
    {
        for place in 0..usize::MAX {
            if place >= nodes.len() {
                return Ok(Look::Open);
            }
            if *states == 0 {
                return Ok(Look::Spent);
            }
            *states -= 1;
            match self.expand(alloc, nodes, place, states)? {
                Look::Open => {}
                look => return Ok(look),
            }
        }
        // no search has so many states
        *states = 0;
        Ok(Look::Spent)
    }

    /// Goes on from the first stage, which shows nothing.
    fn go_on(&self, alloc: Global, node: Node, states: &mut u64) -> Result<Look, AllocError>
        requires folds { AreFoldRows self.now.plan.now.process self.now.folds.now }
        requires roles { HoldsRoles self.now.staff.policy.now.duties self.now.staff.users }
        requires first { IsAfter (schema_of self.now.workflow.now) [] node.stage }
        requires reached { IsReached (schema_of self.now.workflow.now) self.now.plan.now node }
        requires quiet { IsQuiet (schema_of self.now.workflow.now) self.now.staff.policy.now.duties self.now.plan.now self.now.question node.stage }
        ensures never { IfOk result (λ look. IsOpen look → IsNeverSo (schema_of self.now.workflow.now) self.now.staff.policy.now.duties self.now.plan.now self.now.question) }
        ensures told { IfOk result (IsToldOn (schema_of self.now.workflow.now) self.now.staff.policy.now.duties self.now.plan.now self.now.question states.new) }
        ensures fewer { states.new ≤ states.old }
    {
        let mut nodes = Vec::new(alloc);
        nodes.push(node)?;
        self.explore(alloc, &mut nodes, states)
    }

    /// The first stage.
    fn first(&self, alloc: Global) -> Result<Node, AllocError>
        ensures first { IfOk result (λ node. IsAfter (schema_of self.now.workflow.now) [] node.stage) }
        ensures reached { IfOk result (IsReached (schema_of self.now.workflow.now) self.now.plan.now) }
    {
        let stage = Stage::first(alloc, self.workflow.held())?;
        Ok(Node {
            stage,
            leaves: Vec::new(alloc),
        })
    }

    /// Looks at the stages of the option, those with fewer leaves first.
    pub(crate) fn run(&self, alloc: Global, states: &mut u64) -> Result<Look, AllocError>
        requires folds { AreFoldRows self.now.plan.now.process self.now.folds.now }
        requires roles { HoldsRoles self.now.staff.policy.now.duties self.now.staff.users }
        ensures never { IfOk result (λ look. IsOpen look → IsNeverSo (schema_of self.now.workflow.now) self.now.staff.policy.now.duties self.now.plan.now self.now.question) }
        ensures told { IfOk result (IsToldOn (schema_of self.now.workflow.now) self.now.staff.policy.now.duties self.now.plan.now self.now.question states.new) }
        ensures fewer { states.new ≤ states.old }
    {
        let node = self.first(alloc)?;
        match self.look(alloc, &node, states)? {
            Look::Open => self.go_on(alloc, node, states),
            Look::Hopeless => Ok(Look::Open),
            look => Ok(look),
        }
    }
}
