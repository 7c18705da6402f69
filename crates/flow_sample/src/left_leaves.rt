ghost use Rattle.std.specs.Prelude.{◌≡◌, ◌≤◌, ◌<◌, ◌+◌, ◌-◌, ◌^◌, IfOk, OnOk};
ghost use Rattle.flow_model.specs.Process;
ghost use Rattle.flow_goal.specs.LeftSides.{left_sides};
ghost use Rattle.flow_goal.specs.declared.node.Node.TheVariants.{Leaf};
ghost use Rattle.flow_sample.specs.LeftLeaves.{WalksOn};

use crate::gathering::leaf_in_place;
use flow_goal::Node;
use flow_plan::Plan;
use std::alloc::{AllocError, Global};

/// A walk through the marks of a goal that takes the leaves on left sides.
#[derive(Drop)]
pub(crate) struct LeftWalk {
    /// The place of the next leaf.
    place: usize,
    /// How many choices are open whose right side is passed over.
    passed: usize,
    taken: Vec<u32>,
}

impl LeftWalk {
    /// Takes the next leaf, unless it is passed over.
    fn leaf(&mut self, plan: &Plan) -> Result<(), AllocError>
        ensures walks { OnOk result (WalksOn plan.now.leaves Leaf self.old self.new) }
        ensures passed { OnOk result (self.new.passed ≡ self.old.passed) }
    {
        let Some(leaf) = leaf_in_place(plan, self.place) else {
            return Ok(());
        };
        self.place += 1;
        if self.passed != 0 {
            return Ok(());
        }
        self.taken.push(leaf)?;
        Ok(())
    }

    /// Reads one mark.
    fn read(&mut self, plan: &Plan, node: &Node) -> Result<(), AllocError>
        requires { self.old.passed < 2 ^ 64 - 1 }
        ensures walks { OnOk result (WalksOn plan.now.leaves node.now self.old self.new) }
        ensures passed { OnOk result (self.new.passed ≤ self.old.passed + 1) }
    {
        match node {
            Node::Leaf => self.leaf(plan),
            Node::Or => {
                self.passed += 1;
                Ok(())
            }
            Node::Chosen => {
                self.passed = self.passed.saturating_sub(1);
                Ok(())
            }
            _ => Ok(()),
        }
    }
}

/// The leaves of a plan from left to right, of the left side alone at each choice.
pub(crate) fn left_leaves(alloc: Global, plan: &Plan) -> Result<Vec<u32>, AllocError>
    ensures { IfOk result (λ list. list.items ≡ Process.leaves (left_sides plan.now.process)) }
{
    // what the type keeps of its leaves
    let _leaves = plan.leaves();
    let mut walk = LeftWalk {
        place: 0,
        passed: 0,
        taken: Vec::new(alloc),
    };
    for node in plan.nodes() {
        walk.read(plan, node)?;
    }
    Ok(walk.taken)
}
