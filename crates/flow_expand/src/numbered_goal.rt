ghost use Rattle.std.specs.Prelude.{◌≡◌, ◌<◌, ◌^◌, IfOk, length};
ghost use Rattle.flow_model.specs.Lists.{numbers_from};
ghost use Rattle.flow_model.specs.Process.{IsNumbered};
ghost use Rattle.flow_goal.specs.Goal.{process_of};
ghost use Rattle.flow_form.specs.Script.{said};
ghost use Rattle.flow_form.specs.Names.{IsClosed};
ghost use Rattle.flow_expand.specs.LaidGoal.{IsPrepared};
ghost use Rattle.flow_expand.specs.NumberedGoal.{IsNumberedGoal};

use crate::fact_numbers::declared_fact_set;
use crate::laid_goal::LaidGoal;
use crate::leaves::{Leaves, build};
use flow_form::Script;
use flow_goal::{Goal, Tree};
use flow_model::Label;
use flow_workflow::FactTable;
use std::alloc::{AllocError, Global};

/// A goal with labels at its leaves, and the facts by their numbers.
#[derive(Drop)]
pub(crate) struct NumberedGoal {
    pub(crate) facts: FactTable,
    /// The facts that are declared.
    pub(crate) held: Vec<u32>,
    pub(crate) tree: Tree,
}

/// The numbers below the count.
fn numbers_below(alloc: Global, count: u32) -> Result<Vec<u32>, AllocError>
    ensures { IfOk result (λ numbers. numbers.items ≡ numbers_from 0 count) }
{
    let mut numbers = Vec::new(alloc);
    for number in 0..count {
        numbers.push(number)?;
    }
    Ok(numbers)
}

/// Labels at the leaves of a goal that is numbered so.
fn tree_of(goal: Goal, labels: Vec<Label>) -> Tree
    requires numbered { IsNumbered (process_of goal) (length labels.items) }
    requires few { length labels.items < 2 ^ 32 }
    ensures process { result.process ≡ process_of goal }
    ensures labels { result.labels ≡ labels.items }
{
    match Tree::new(goal, labels) {
        Ok(tree) => tree,
        Err(_) => unreachable!(),
    }
}

/// Builds the goal of the layout. The facts that are declared have the first numbers.
pub(crate) fn number(
    alloc: Global,
    script: &Script,
    laid: &LaidGoal<'_>,
) -> Result<NumberedGoal, AllocError>
    requires closed { IsClosed (said script.now) }
    requires prepared { IsPrepared (said script.now) laid.now.layout.items laid.now.root }
    ensures { IfOk result (IsNumberedGoal (said script.now)) }
{
    let facts = declared_fact_set(alloc, &script.decls)?;
    let held = numbers_below(alloc, facts.count())?;
    let labels = Vec::new(alloc);
    let mut leaves = Leaves { facts, labels };
    let goal = build(alloc, &laid.layout, laid.root.place, &mut leaves)?;
    let Leaves { facts, labels } = leaves;
    let tree = tree_of(goal, labels);
    let facts = FactTable::new(facts);
    Ok(NumberedGoal { facts, held, tree })
}
