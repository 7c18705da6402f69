ghost use Rattle.std.specs.Prelude.{◌≡◌, IfOk, IfErr};
ghost use Rattle.flow_goal.specs.Repeats.{HoldsNoneTwice};
ghost use Rattle.flow_form.specs.Script.{said};
ghost use Rattle.flow_form.specs.Names.{IsClosed, event_names};
ghost use Rattle.flow_expand.specs.Expansion.{Expansion, Becomes};
ghost use Rattle.flow_expand.specs.NumberedGoal.{IsNumberedGoal};
ghost use Rattle.flow_expand.specs.Refusals.{IsRefusal};
ghost use Rattle.flow_expand.specs.Workflows.{IsExpanded};

use crate::assembly::assemble;
use crate::events::Events;
use crate::laid_goal::prepare;
use crate::numbered_goal::{NumberedGoal, number};
use flow_facts::Name;
use flow_form::Script;
use flow_goal::twice_by_table;
use flow_workflow::{ExpandRefusal, Numbered, Workflow};
use std::alloc::Global;

/// The goal of a script with its leaves numbered, unless the script is refused.
fn goal_of(
    alloc: Global,
    script: &Script,
    events: &Numbered<Name>,
) -> Result<NumberedGoal, ExpandRefusal>
    requires closed { IsClosed (said script.now) }
    requires events { events.now ≡ event_names (said script.now).decls }
    ensures refused { IfErr result (IsRefusal (said script.now)) }
    ensures numbered { IfOk result (IsNumberedGoal (said script.now)) }
    ensures unique { IfOk result (λ goal. HoldsNoneTwice goal.tree) }
{
    let laid = prepare(alloc, script, events)?;
    let goal = number(alloc, script, &laid)?;
    let again = twice_by_table(alloc, &goal.tree)?;
    if let Some(found) = again {
        drop(goal);
        return Err(ExpandRefusal::Twice(found));
    }
    Ok(goal)
}

/// The workflow of a script, with each sub-workflow in its place. What is too large is refused before
/// anything is built.
pub fn expand(alloc: Global, script: &Script) -> Result<Workflow, ExpandRefusal>
    requires { IsClosed (said script.now) }
    ensures refused { IfErr result (IsRefusal (said script.now)) }
    ensures one { (e f : Expansion) → Becomes (said script.now).decls (said script.now).goal e → Becomes (said script.now).decls (said script.now).goal f → e ≡ f }
    ensures ok { IfOk result (IsExpanded (said script.now)) }
{
    let events = Events::new(alloc, &script.decls)?;
    let goal = goal_of(alloc, script, &events.names)?;
    Ok(assemble(alloc, script, events, goal)?)
}
