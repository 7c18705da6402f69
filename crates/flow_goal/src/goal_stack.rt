ghost use Rattle.std.specs.Prelude.{◌≡◌, ◌<◌, ◌≤◌, ◌+◌, ◌^◌, ◌∷◌, List, IfOk, OnOk};
ghost use Rattle.flow_goal.specs.Goal.{process_of, together};
ghost use Rattle.flow_model.specs.Process.{Isolated};
ghost use Rattle.flow_goal.specs.declared.node.Node.{Node};
ghost use Rattle.flow_goal.specs.Written.{leaf_of, read_on, rest, goals_on, top};

use crate::goal::{Goal, together};
use crate::node::Node;
use flow_model::Operator;
use std::alloc::{AllocError, Global};

/// The leaf at that place, or nothing.
#[tactic(auto, using(crate::proofs::WrittenLemmas::leaf_found, crate::proofs::WrittenLemmas::leaf_missing))]
fn leaf_at(leaves: &[u32], place: usize) -> Goal
    ensures { process_of result ≡ leaf_of leaves.now place }
{
    if place < leaves.len() {
        Goal::Leaf(leaves[place])
    } else {
        Goal::Nop
    }
}

/// Takes the goal on top off the stack. One that is missing is nothing.
pub(crate) fn take_top(stack: &mut Vec<Goal>) -> Goal
    ensures taken { process_of result ≡ top (goals_on stack.old.items) }
    ensures left { goals_on stack.new.items ≡ rest (goals_on stack.old.items) }
{
    stack.pop().unwrap_or(Goal::Nop)
}

/// Puts the goal on the stack.
fn put(goal: Goal, stack: &mut Vec<Goal>) -> Result<(), AllocError>
    ensures { OnOk result (goals_on stack.new.items ≡ process_of goal ∷ goals_on stack.old.items) }
{
    stack.push(goal)?;
    Ok(())
}

/// Makes one goal of the two on top of the stack.
fn join(alloc: Global, operator: Operator, stack: &mut Vec<Goal>) -> Result<(), AllocError>
    ensures { OnOk result (goals_on stack.new.items ≡
        together operator (top (rest (goals_on stack.old.items))) (top (goals_on stack.old.items)) ∷ rest (rest (goals_on stack.old.items))) }
{
    let right = take_top(stack);
    let left = take_top(stack);
    put(together(alloc, operator, left, right)?, stack)
}

/// Isolates the goal on top of the stack.
fn isolate(alloc: Global, stack: &mut Vec<Goal>) -> Result<(), AllocError>
    ensures { OnOk result (goals_on stack.new.items ≡ Isolated (top (goals_on stack.old.items)) ∷ rest (goals_on stack.old.items)) }
{
    let part = Box::new(alloc, take_top(stack))?;
    put(Goal::Iso(part), stack)
}

/// Reads one mark: what it joins is taken off the stack, and the goal that it makes is put there. Returns the
/// place of the next leaf.
pub(crate) fn read_node(
    alloc: Global,
    node: &Node,
    leaves: &[u32],
    place: usize,
    stack: &mut Vec<Goal>,
) -> Result<usize, AllocError>
    requires { place + 1 < 2 ^ 64 }
    ensures next { IfOk result (λ next. next ≤ place + 1) }
    ensures read { IfOk result (λ next. (nodes : List Node) →
        read_on (node.now ∷ nodes) leaves.now place (goals_on stack.old.items)
        ≡ read_on nodes leaves.now next (goals_on stack.new.items)) }
{
    match node {
        Node::Fork | Node::Split | Node::Open | Node::Choose | Node::Or => {}
        Node::Nop => put(Goal::Nop, stack)?,
        Node::Leaf => {
            put(leaf_at(leaves, place), stack)?;
            return Ok(place + 1);
        }
        Node::Serial => join(alloc, Operator::Serial, stack)?,
        Node::Join => join(alloc, Operator::Beside, stack)?,
        Node::Chosen => join(alloc, Operator::Either, stack)?,
        Node::Close => isolate(alloc, stack)?,
    }
    Ok(place)
}
