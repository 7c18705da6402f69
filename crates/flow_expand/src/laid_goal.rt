ghost use Rattle.std.specs.Prelude.{◌≡◌, ◌≤◌, IfOk, IfErr};
ghost use Rattle.flow_form.specs.Script.{said};
ghost use Rattle.flow_form.specs.Names.{IsClosed, event_names};
ghost use Rattle.flow_expand.specs.Calls.{IsSettlement};
ghost use Rattle.flow_expand.specs.Directory.{decls_of};
ghost use Rattle.flow_expand.specs.LaidGoal.{IsPrepared};
ghost use Rattle.flow_expand.specs.Refusals.{IsRefusal, flow_count};
ghost use Rattle.flow_expand.specs.Settlement.{IsIdle};

use crate::directory::Directory;
use crate::lay::lay;
use crate::layout::{Layout, Root};
use crate::rule_names::count_names;
use crate::settlement::Settlement;
use crate::size::at_most;
use flow_facts::Name;
use flow_form::Script;
use flow_model::{MOST_FLOWS, MOST_LEAVES, MOST_RULE_NAMES};
use flow_workflow::{ExpandRefusal, Numbered, Part};
use std::alloc::Global;

/// A goal that stands in a layout.
#[derive(Drop)]
pub(crate) struct LaidGoal<'a> {
    pub(crate) layout: Layout<'a>,
    pub(crate) root: Root,
}

/// Lays the goal of a script over its sub-workflows, unless it is refused.
fn lay_goal<'a>(
    alloc: Global,
    script: &'a Script,
    directory: &Directory<'a>,
    settlement: &mut Settlement<'a>,
) -> Result<Root, ExpandRefusal>
    requires closed { IsClosed (said script.now) }
    requires decls { decls_of directory.now ≡ (said script.now).decls }
    requires few { flow_count (said script.now) ≤ MOST_FLOWS }
    requires settlement { IsSettlement directory.now settlement.old }
    requires idle { IsIdle settlement.old.laid.items }
    ensures refused { IfErr result (IsRefusal (said script.now)) }
    ensures ok { IfOk result (λ root. IsPrepared (said script.now) settlement.new.layout.items root) }
{
    settlement.settle_all(alloc, directory)?;
    let root = lay(
        directory,
        &settlement.laid,
        &script.goal,
        &mut settlement.layout,
    )?;
    at_most(Part::Goal, root.size.most(), u64::from(MOST_LEAVES))?;
    at_most(Part::Rules, count_names(&script.rules), MOST_RULE_NAMES)?;
    Ok(root)
}

/// Lays the goal of a script, unless it is refused.
pub(crate) fn prepare<'a>(
    alloc: Global,
    script: &'a Script,
    events: &'a Numbered<Name>,
) -> Result<LaidGoal<'a>, ExpandRefusal>
    requires closed { IsClosed (said script.now) }
    requires events { events.now ≡ event_names (said script.now).decls }
    ensures refused { IfErr result (IsRefusal (said script.now)) }
    ensures ok { IfOk result (λ goal. IsPrepared (said script.now) goal.layout.items goal.root) }
{
    let directory = Directory::new(alloc, &script.decls, events)?;
    if let Err(refusal) = at_most(Part::Flows, directory.goals.len() as u64, MOST_FLOWS) {
        drop(directory);
        return Err(refusal);
    }
    let Ok(mut settlement) = Settlement::new(alloc, &directory) else {
        drop(directory);
        return Err(ExpandRefusal::NoMemory);
    };
    let laid = lay_goal(alloc, script, &directory, &mut settlement);
    drop(directory);
    match laid {
        Ok(root) => Ok(LaidGoal {
            layout: settlement.layout,
            root,
        }),
        Err(refusal) => {
            drop(settlement);
            Err(refusal)
        }
    }
}
