ghost use Rattle.std.specs.Prelude.{◌≡◌, IfOk, OnOk};
ghost use Rattle.flow_model.specs.Process;
ghost use Rattle.flow_goal.specs.Goal.{process_of};
ghost use Rattle.flow_goal.specs.Keeping.{line_kept};
ghost use Rattle.flow_goal.specs.Pattern.{line_of, then};

use crate::goal::Goal;
use crate::node::Node;
use crate::text::Text;
use std::alloc::{AllocError, Global};

/// What is written of a goal.
#[derive(Clone, Copy)]
pub(crate) enum Kept {
    /// All of it.
    All,
    /// All of it, where it stands inside a choice.
    Inside,
    /// The left side of each choice.
    Left,
    /// Nothing in place of each choice.
    Outside,
}

/// Puts a leaf behind what is written.
fn put_leaf(leaf: u32, kept: Kept, out: &mut Text) -> Result<(), AllocError>
    ensures { OnOk result (line_of out.new ≡ then (line_of out.old) (line_kept kept (Process.Task leaf))) }
{
    match kept {
        Kept::Inside => out.put_chosen_leaf(leaf),
        Kept::All | Kept::Left | Kept::Outside => out.put_leaf(leaf),
    }
}

/// Puts a choice of two goals behind what is written.
#[cycle(keeping)]
fn put_choice(left: &Goal, right: &Goal, kept: Kept, out: &mut Text) -> Result<(), AllocError>
    ensures { OnOk result (line_of out.new ≡
        then (line_of out.old) (line_kept kept (Process.Choice (process_of left.now) (process_of right.now)))) }
{
    match kept {
        Kept::All | Kept::Inside => {
            out.put(Node::Choose)?;
            put_goal(left, Kept::Inside, out)?;
            out.put(Node::Or)?;
            put_goal(right, Kept::Inside, out)?;
            out.put(Node::Chosen)
        }
        Kept::Left => put_goal(left, kept, out),
        Kept::Outside => out.put(Node::Nop),
    }
}

/// Puts what is kept of a goal behind what is written. It walks the goal once.
#[cycle(keeping)]
pub(crate) fn put_goal(goal: &Goal, kept: Kept, out: &mut Text) -> Result<(), AllocError>
    ensures { OnOk result (line_of out.new ≡ then (line_of out.old) (line_kept kept (process_of goal.now))) }
{
    match goal {
        Goal::Nop => out.put(Node::Nop),
        Goal::Leaf(n) => put_leaf(*n, kept, out),
        Goal::Serial(left, right) => {
            put_goal(left, kept, out)?;
            put_goal(right, kept, out)?;
            out.put(Node::Serial)
        }
        Goal::Beside(left, right) => {
            out.put(Node::Fork)?;
            put_goal(left, kept, out)?;
            out.put(Node::Split)?;
            put_goal(right, kept, out)?;
            out.put(Node::Join)
        }
        Goal::Either(left, right) => put_choice(left, right, kept, out),
        Goal::Iso(part) => {
            out.put(Node::Open)?;
            put_goal(part, kept, out)?;
            out.put(Node::Close)
        }
    }
}

/// What is kept of a goal as a text.
pub(crate) fn text_of(alloc: Global, goal: &Goal, kept: Kept) -> Result<Text, AllocError>
    ensures { IfOk result (λ text. line_of text ≡ line_kept kept (process_of goal.now)) }
{
    let mut text = Text::new(alloc);
    match put_goal(goal, kept, &mut text) {
        Ok(()) => Ok(text),
        Err(refused) => {
            drop(text);
            Err(refused)
        }
    }
}
