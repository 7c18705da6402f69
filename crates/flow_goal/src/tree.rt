ghost use Rattle.std.specs.Prelude.{◌≡◌, ◌<◌, ◌^◌, ◌↔◌, length, IfOk, IsErr, IsTrue, slice_get};
ghost use Rattle.flow_model.specs.Facts.{event_at, is_event};
ghost use Rattle.flow_model.specs.Process.{IsNumbered};
ghost use Rattle.flow_goal.specs.Goal.{process_of};
ghost use Rattle.flow_goal.specs.Numbering;

use crate::goal::Goal;
use flow_model::Label;
use std::marker::Model;
use thiserror::Error;

/// Why a goal and labels make no tree.
#[derive(Clone, Copy, Debug, Error)]
pub enum TreeRefusal {
    /// The leaves from left to right are not numbered 0, 1, .. below the number of labels.
    #[error("the leaves from left to right have not the numbers of the labels")]
    Numbering,
}

/// A goal and the labels of its leaves.
#[derive(Drop)]
pub struct Tree {
    goal: Goal,
    labels: Vec<Label>,
}

impl Model for Tree {
    ghost use Rattle.flow_goal.specs.Labelled.{Labelled, labelled_code};

    ghost Value = { Labelled };

    ghost coded = { labelled_code };

    ghost use Rattle.flow_goal.specs.Labelled.{labelled, IsLabelled};

    ghost view = { λ t. labelled t.goal t.labels.items };

    ghost invariant = { λ t. IsLabelled (labelled t.goal t.labels.items) };
}

/// The number after the leaves of the goal, if they are numbered onwards from `next` and stay below
/// `end`.
fn number_after(goal: &Goal, next: u32, end: u32) -> Option<u32>
    ensures { result ≡ Numbering.number_after (process_of goal.now) next end }
{
    match goal {
        Goal::Nop => Some(next),
        Goal::Leaf(n) => {
            if *n == next && next < end {
                Some(next + 1)
            } else {
                None
            }
        }
        Goal::Serial(left, right) | Goal::Beside(left, right) | Goal::Either(left, right) => {
            let middle = number_after(left, next, end)?;
            number_after(right, middle, end)
        }
        Goal::Iso(part) => number_after(part, next, end),
    }
}

/// Whether the leaves from left to right are 0, 1, .. below the count.
#[tactic(auto, using(crate::proofs::Numbers::stopped, crate::proofs::Numbers::failed))]
fn is_numbered(goal: &Goal, count: u32) -> bool
    ensures { IsTrue result ↔ IsNumbered (process_of goal.now) count }
{
    match number_after(goal, 0, count) {
        Some(stop) => stop == count,
        None => false,
    }
}

impl Tree {
    /// Puts labels at the leaves of a goal.
    pub fn new(goal: Goal, labels: Vec<Label>) -> Result<Tree, TreeRefusal>
        requires { length labels.items < 2 ^ 32 }
        ensures numbering { IsErr result ↔ ¬ (IsNumbered (process_of goal) (length labels.items)) }
        ensures ok { IfOk result (λ tree. (tree.process ≡ process_of goal) × (tree.labels ≡ labels.items)) }
    {
        let count = labels.len() as u32;
        if is_numbered(&goal, count) {
            Ok(Tree { goal, labels })
        } else {
            drop(goal);
            Err(TreeRefusal::Numbering)
        }
    }

    /// The goal, without its labels.
    pub fn goal(&self) -> &Goal
        ensures { process_of result.now ≡ self.now.process }
    {
        &self.goal
    }

    /// The label of a leaf. `None` where the goal has no such leaf.
    pub fn label(&self, leaf: u32) -> Option<Label>
        ensures { result ≡ slice_get self.now.labels leaf }
    {
        self.labels.get(leaf as usize).copied()
    }

    /// The event of a leaf, if it has one.
    pub fn event(&self, leaf: u32) -> Option<u32>
        ensures { result ≡ event_at self.now.labels leaf }
    {
        match self.label(leaf)? {
            Label::Event(event) => Some(event),
            Label::Test(_) | Label::Absent(_) | Label::Ins(_) | Label::Del(_) => None,
        }
    }

    /// Whether a leaf has that event.
    pub(crate) fn has_event(&self, leaf: u32, event: u32) -> bool
        ensures { result ≡ is_event event (event_at self.now.labels leaf) }
    {
        match self.event(leaf) {
            Some(other) => other == event,
            None => false,
        }
    }

    /// How many leaves the goal has.
    pub fn leaves(&self) -> u32
        ensures count { result ≡ length self.now.labels }
        ensures numbered { IsNumbered self.now.process result }
    {
        self.labels.len() as u32
    }
}
