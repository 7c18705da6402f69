ghost use Rattle.std.specs.Prelude.{◌≡◌, ◌∷◌, [], ◌++◌, ◌<◌, ◌^◌, IfOk, OnOk, length};
ghost use Rattle.flow_model.specs.Process.{Task};
ghost use Rattle.flow_goal.specs.Goal.{process_of};
ghost use Rattle.flow_expand.specs.Leaves.{IsBuildable, IsBuiltAt};

use crate::fact_numbers::number_fact;
use crate::layout::{Layout, Piece, label_of};
use flow_facts::Fact;
use flow_goal::{Goal, together};
use flow_model::Label;
use flow_workflow::Numbered;
use std::alloc::{AllocError, Global};

/// The leaves of a goal so far, and the facts that are numbered.
#[derive(Drop)]
pub(crate) struct Leaves {
    pub(crate) facts: Numbered<Fact>,
    pub(crate) labels: Vec<Label>,
}

impl Leaves {
    /// The next leaf.
    fn add(&mut self, label: Label) -> Result<Goal, AllocError>
        requires { length self.old.labels.items < 2 ^ 32 }
        ensures facts { self.new.facts ≡ self.old.facts }
        ensures labels { OnOk result (self.new.labels.items ≡ self.old.labels.items ++ label ∷ []) }
        ensures leaf { IfOk result (λ goal. process_of goal ≡ Task (length self.old.labels.items)) }
    {
        let number = self.labels.len() as u32;
        self.labels.push(label)?;
        Ok(Goal::Leaf(number))
    }
}

/// Builds a piece of the layout, with its leaves and facts numbered onwards.
pub(crate) fn build(
    alloc: Global,
    layout: &Layout<'_>,
    place: usize,
    leaves: &mut Leaves,
) -> Result<Goal, AllocError>
    requires { IsBuildable layout.now.items place leaves.old }
    ensures { IfOk result (λ goal. IsBuiltAt layout.now.items place leaves.old leaves.new (process_of goal)) }
{
    match &layout[place] {
        Piece::Nop => Ok(Goal::Nop),
        Piece::Event(event) => leaves.add(Label::Event(*event)),
        Piece::Fact(deed, fact) => {
            let number = number_fact(alloc, &mut leaves.facts, fact)?;
            leaves.add(label_of(*deed, number))
        }
        Piece::Pair(how, left, right) => {
            let first = build(alloc, layout, *left, leaves)?;
            let second = build(alloc, layout, *right, leaves)?;
            together(alloc, *how, first, second)
        }
        Piece::Iso(part) => {
            let goal = build(alloc, layout, *part, leaves)?;
            Ok(Goal::Iso(Box::new(alloc, goal)?))
        }
    }
}
