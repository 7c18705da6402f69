ghost use Rattle.std.specs.Prelude.{◌≡◌, ◌≤◌, [], length, IfOk, IfErr, OnOk};
ghost use Rattle.flow_model.specs.declared.limits.TheConstants.{MOST_ENTRIES};
ghost use Rattle.flow_model.specs.Run.{IsLegal};
ghost use Rattle.flow_plan.specs.Compilation.{IsCompiled};
ghost use Rattle.flow_workflow.specs.Definition.{schema_of};
ghost use Rattle.flow_core.specs.Run.{schema};
ghost use Rattle.flow_desk.specs.Replay.{steps_for, IsReplayed};
ghost use Rattle.flow_desk.specs.Mark.{AreMarks};
ghost use Rattle.flow_desk.specs.Fallen.{IsFallen};

use crate::marks::marks_of;
use flow_core::Core;
use flow_model::{Entry, MOST_ENTRIES};
use flow_plan::Compiled;
use flow_view::Mark;
use flow_workflow::Workflow;
use std::alloc::{AllocError, Global};

/// A run that was made again.
#[derive(Drop)]
pub(crate) struct Replayed {
    pub(crate) core: Core,
    /// Of each leaf.
    pub(crate) marks: Vec<Mark>,
}

/// Why a history tells no run.
#[derive(Clone, Copy)]
pub(crate) enum Fallen {
    /// The number of the first entry that is not legal.
    Illegal(usize),
    NoMemory,
}

impl From<AllocError> for Fallen {
    ghost use Rattle.flow_desk.specs.declared.replay.Fallen.TheVariants.{NoMemory};

    ghost from_gives = { λ _ e. e ≡ NoMemory };

    fn from(_error: AllocError) -> Fallen {
        Fallen::NoMemory
    }
}

/// Makes the entries of a run that has none yet, one after another. The first that may not be made is told.
fn replay(core: &mut Core, entries: &[Entry]) -> Result<(), Fallen>
    requires first { core.old.history ≡ [] }
    ensures run { OnOk result (core.new ≡ record core.old { history = entries.now }) }
    ensures fallen { IfErr result (IsFallen (schema core.old) core.old.limit entries.now) }
{
    for (index, entry) in entries.iter().enumerate() {
        // the entries so far are legal
        let _ = core.history();
        if !core.make(*entry) {
            return Err(Fallen::Illegal(index));
        }
    }
    Ok(())
}

/// How long a history of so many entries may be.
fn steps_for(count: usize) -> u32
    ensures steps { result ≡ steps_for count }
    ensures some { 1 ≤ result }
    ensures few { result ≤ MOST_ENTRIES }
{
    (count.min(MOST_ENTRIES as usize) as u32).max(1)
}

/// The run of a workflow with that history, and the marks of its leaves.
pub(crate) fn remake(
    alloc: Global,
    workflow: Workflow,
    compiled: Compiled,
    entries: &[Entry],
) -> Result<Replayed, Fallen>
    requires { IsCompiled (schema_of workflow) compiled }
    ensures run { IfOk result (λ run. IsReplayed workflow entries.now run.core run.marks.items) }
    ensures fallen { IfErr result (IsFallen (schema_of workflow) (steps_for (length entries.now)) entries.now) }
{
    let mut core = Core::start(alloc, workflow, compiled, steps_for(entries.len()))?;
    match marks_after(alloc, &mut core, entries) {
        Ok(marks) => Ok(Replayed { core, marks }),
        Err(fallen) => {
            drop(core);
            Err(fallen)
        }
    }
}

/// The marks of a run that has no entry yet, after the entries.
fn marks_after(alloc: Global, core: &mut Core, entries: &[Entry]) -> Result<Vec<Mark>, Fallen>
    requires { core.old.history ≡ [] }
    ensures run { OnOk result (core.new ≡ record core.old { history = entries.now }) }
    ensures legal { OnOk result (IsLegal (schema core.old) core.old.limit entries.now) }
    ensures marks { IfOk result (λ marks. AreMarks core.new marks.items) }
    ensures fallen { IfErr result (IsFallen (schema core.old) core.old.limit entries.now) }
{
    replay(core, entries)?;
    // what the run keeps: its history is legal
    let _ = core.history();
    Ok(marks_of(alloc, core)?)
}
