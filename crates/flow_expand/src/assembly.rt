ghost use Rattle.std.specs.Prelude.{◌≡◌, IfOk};
ghost use Rattle.flow_goal.specs.Repeats.{HoldsNoneTwice};
ghost use Rattle.flow_form.specs.Script.{said};
ghost use Rattle.flow_form.specs.Names.{IsClosed, event_names};
ghost use Rattle.flow_expand.specs.Numbers.{notes_of};
ghost use Rattle.flow_expand.specs.NumberedGoal.{IsNumberedGoal};
ghost use Rattle.flow_expand.specs.Workflows.{IsExpanded};

use crate::constraints::rules_of;
use crate::events::Events;
use crate::numbered_goal::NumberedGoal;
use flow_form::Script;
use flow_workflow::Workflow;
use std::alloc::{AllocError, Global};

/// The workflow of a goal that is numbered, with the events and the constraints of the script.
pub(crate) fn assemble(
    alloc: Global,
    script: &Script,
    events: Events,
    goal: NumberedGoal,
) -> Result<Workflow, AllocError>
    requires closed { IsClosed (said script.now) }
    requires names { events.names ≡ event_names (said script.now).decls }
    requires notes { events.notes.items ≡ notes_of (said script.now).decls }
    requires numbered { IsNumberedGoal (said script.now) goal }
    requires unique { HoldsNoneTwice goal.tree }
    ensures { IfOk result (IsExpanded (said script.now)) }
{
    let Events { names, notes } = events;
    let NumberedGoal { facts, held, tree } = goal;
    let workflow = Workflow::new(alloc, names, notes, facts, held, tree);
    match rules_of(alloc, &script.rules, &workflow) {
        Ok(rules) => Ok(workflow.with_rules(rules)),
        Err(error) => {
            drop(workflow);
            Err(error)
        }
    }
}
