ghost use Rattle.std.specs.Prelude.{◌≡◌, ◌<◌, ◌^◌, length, IfOk};
ghost use Rattle.std.specs.List.Sorted.{IsStrictlyIncreasing};
ghost use Rattle.flow_model.specs.Process;
ghost use Rattle.flow_model.specs.Folding.{IsFolded, fixed_leaves, outside_choices};
ghost use Rattle.flow_goal.specs.Goal.{process_of};
ghost use Rattle.flow_goal.specs.Resolved.{IsResolved};
ghost use Rattle.flow_goal.specs.LeftSides.{left_sides};
ghost use Rattle.flow_goal.specs.Keeping.{line_kept};
ghost use Rattle.flow_goal.specs.Pattern.{line_of};
ghost use Rattle.flow_goal.specs.Written.{nodes_of};

use crate::goal::Goal;
use crate::goal_stack::{read_node, take_top};
use crate::keeping::{Kept, text_of};
use crate::node::Node;
use crate::text::Text;
use std::alloc::{AllocError, Global};
use std::marker::Model;

/// A goal whose choices all stay, a byte a mark, the list of its leaves, and the list of those outside choices.
#[derive(Drop)]
pub struct Choiceless {
    nodes: Vec<Node>,
    leaves: Vec<u32>,
    fixed: Vec<u32>,
}

impl Model for Choiceless {
    ghost use Rattle.flow_goal.specs.Resolved.{Resolved, resolved_code};

    ghost Value = { Resolved };

    ghost coded = { resolved_code };

    ghost use Rattle.flow_goal.specs.Written.{read, IsWritten};

    ghost view = { λ c. read c.nodes.items c.leaves.items c.fixed.items };

    ghost invariant = { λ c. IsWritten c.nodes.items c.leaves.items c.fixed.items };
}

impl Choiceless {
    /// The goal with those marks and leaves, of which these are outside choices.
    #[tactic(auto, using(crate::proofs::WrittenLemmas::read_resolved, crate::proofs::WrittenLemmas::read_whole))]
    pub(crate) fn new(nodes: Vec<Node>, leaves: Vec<u32>, fixed: Vec<u32>) -> Choiceless
        requires written { (q : Process.Process) × IsFolded q × (nodes.items ≡ nodes_of q) × (leaves.items ≡ Process.leaves q) × (fixed.items ≡ fixed_leaves q) }
        requires rising { IsStrictlyIncreasing leaves.items }
        ensures process { (q : Process.Process) → nodes.items ≡ nodes_of q → leaves.items ≡ Process.leaves q →
            result.process ≡ q }
        ensures leaves { result.leaves ≡ leaves.items }
        ensures fixed { result.fixed ≡ fixed.items }
    {
        Choiceless {
            nodes,
            leaves,
            fixed,
        }
    }

    /// The same goal in memory of its own.
    pub fn copy(&self, alloc: Global) -> Result<Choiceless, AllocError>
        ensures same { IfOk result (λ new. new ≡ self.now) }
        ensures resolved { IfOk result IsResolved }
    {
        let nodes = Vec::from_slice(alloc, &self.nodes)?;
        let leaves = Vec::from_slice(alloc, &self.leaves)?;
        let fixed = Vec::from_slice(alloc, &self.fixed)?;
        Ok(Choiceless {
            nodes,
            leaves,
            fixed,
        })
    }

    /// The goal as a tree, built anew.
    pub fn goal(&self, alloc: Global) -> Result<Goal, AllocError>
        ensures process { IfOk result (λ goal. process_of goal ≡ self.now.process) }
        ensures folded { IsFolded self.now.process }
    {
        let mut stack = Vec::new(alloc);
        let mut place = 0;
        for node in &self.nodes {
            place = read_node(alloc, node, &self.leaves, place, &mut stack)?;
        }
        Ok(take_top(&mut stack))
    }

    /// The marks of the goal from left to right.
    pub fn nodes(&self) -> &[Node]
        ensures nodes { result.now ≡ nodes_of self.now.process }
        ensures folded { IsFolded self.now.process }
    {
        &self.nodes
    }

    /// The leaves from left to right, which is from the least to the greatest.
    pub fn leaves(&self) -> &[u32]
        ensures leaves { result.now ≡ self.now.leaves }
        ensures listed { self.now.leaves ≡ Process.leaves self.now.process }
        ensures rising { IsStrictlyIncreasing self.now.leaves }
    {
        &self.leaves
    }

    /// The leaves outside choices from left to right: every execution has them.
    pub fn fixed(&self) -> &[u32]
        ensures fixed { result.now ≡ self.now.fixed }
        ensures outside { self.now.fixed ≡ fixed_leaves self.now.process }
    {
        &self.fixed
    }

    /// The goal with the left side taken at each choice.
    pub fn left_sides(&self, alloc: Global) -> Result<Choiceless, AllocError>
        ensures process { IfOk result (λ new. new.process ≡ left_sides self.now.process) }
        ensures resolved { IfOk result IsResolved }
    {
        // what the type keeps of its leaves
        let _leaves = self.leaves();
        let text = self.text(alloc, Kept::Left)?;
        Ok(Choiceless::new(text.nodes, text.leaves, text.fixed))
    }

    /// The goal with its choices left out.
    pub fn outside(&self, alloc: Global) -> Result<Choiceless, AllocError>
        ensures process { IfOk result (λ new. new.process ≡ outside_choices self.now.process) }
        ensures resolved { IfOk result IsResolved }
    {
        // what the type keeps of its leaves
        let _leaves = self.leaves();
        let text = self.text(alloc, Kept::Outside)?;
        Ok(Choiceless::new(text.nodes, text.leaves, text.fixed))
    }

    /// What is kept of the goal as a text, by way of a tree.
    fn text(&self, alloc: Global, kept: Kept) -> Result<Text, AllocError>
        ensures written { IfOk result (λ text. line_of text ≡ line_kept kept self.now.process) }
        ensures folded { IsFolded self.now.process }
    {
        let goal = self.goal(alloc)?;
        let text = text_of(alloc, &goal, kept);
        drop(goal);
        text
    }
}
