ghost use Rattle.std.specs.Prelude.{IfOk, IfErr};
ghost use Rattle.flow_plan.specs.Compilation.{IsCompiled};
ghost use Rattle.flow_workflow.specs.Definition.{schema_of};
ghost use Rattle.flow_desk.specs.Told.{Tells};
ghost use Rattle.flow_desk.specs.Desk.{IsIllegalOn, IsNoRun, HasReplay};

use crate::replay::{Fallen, Replayed, remake};
use crate::report::{Untold, cut_line};
use crate::stop::DeskStop;
use crate::told::{Told, read_run};
use flow_model::{Entry, Step};
use flow_plan::Compiled;
use flow_workflow::Workflow;
use std::alloc::Global;

/// The most bytes of the file of a run.
pub const GREATEST_RUN: usize = 134_217_728;

impl From<Untold> for DeskStop {
    ghost use Rattle.std.specs.Prelude.{◌≡◌};
    ghost use Rattle.flow_desk.specs.Untelling.{untold_stop};

    ghost from_gives = { λ untold stop. stop ≡ untold_stop untold };

    fn from(untold: Untold) -> DeskStop {
        match untold {
            Untold::Line(line) => DeskStop::Line(line),
            Untold::Label(line) => DeskStop::Label(line),
            Untold::NoMemory => DeskStop::NoMemory,
        }
    }
}

/// How many leaves are begun by the entries.
fn leaves_begun(entries: &[Entry]) -> usize {
    entries
        .iter()
        .filter(|entry| matches!(entry.step, Step::Took { .. } | Step::Did { .. }))
        .count()
}

/// Whether a line of a journal notes a leaf.
fn is_filled(line: &[u8]) -> bool {
    !line.is_empty() && line != b"\r".as_slice()
}

/// The line of a journal before which so many leaves are noted.
fn journal_line(text: &[u8], before: usize) -> usize {
    let mut left = before;
    let mut line = 0;
    let mut rest = text;
    while let Some((noted, more)) = cut_line(rest) {
        if is_filled(noted) {
            if left == 0 {
                return line;
            }
            left -= 1;
        }
        line += 1;
        rest = more;
    }
    line
}

/// That the entry of that number is the first that may not be made, on its line of the file.
fn illegal(text: &[u8], told: &Told, index: usize) -> DeskStop
    ensures { IsIllegalOn told.now.line index result }
{
    match told.line {
        Some(first) => match first.checked_add(index) {
            Some(line) => DeskStop::Illegal(line),
            None => DeskStop::NoMemory,
        },
        None => {
            let before = &told.entries[..index.min(told.entries.len())];
            DeskStop::Illegal(journal_line(text, leaves_begun(before)))
        }
    }
}

/// The run that a file tells, made again.
fn replay_told(
    alloc: Global,
    workflow: Workflow,
    compiled: Compiled,
    text: &[u8],
    told: &Told,
) -> Result<Replayed, DeskStop>
    requires compiled { IsCompiled (schema_of workflow) compiled }
    requires told { Tells workflow text.now told.now.line told.now.entries.items }
    ensures run { IfOk result (λ run. HasReplay workflow text.now run.core run.marks.items) }
    ensures stop { IfErr result (IsNoRun workflow text.now) }
{
    match remake(alloc, workflow, compiled, &told.entries) {
        Ok(run) => Ok(run),
        Err(Fallen::Illegal(index)) => Err(illegal(text, told, index)),
        Err(Fallen::NoMemory) => Err(DeskStop::NoMemory),
    }
}

/// What the file of a run tells.
fn read_told(alloc: Global, workflow: &Workflow, text: &[u8]) -> Result<Told, DeskStop>
    ensures told { IfOk result (λ told. Tells workflow.now text.now told.line told.entries.items) }
    ensures stop { IfErr result (IsNoRun workflow.now text.now) }
{
    if text.len() > GREATEST_RUN {
        return Err(DeskStop::RunTooLong);
    }
    Ok(read_run(alloc, workflow, text)?)
}

/// The run of a workflow that a file tells, with the marks of its leaves.
pub(crate) fn run_told(
    alloc: Global,
    workflow: Workflow,
    compiled: Compiled,
    text: &[u8],
) -> Result<Replayed, DeskStop>
    requires { IsCompiled (schema_of workflow) compiled }
    ensures run { IfOk result (λ run. HasReplay workflow text.now run.core run.marks.items) }
    ensures stop { IfErr result (IsNoRun workflow text.now) }
{
    match read_told(alloc, &workflow, text) {
        Ok(told) => replay_told(alloc, workflow, compiled, text, &told),
        Err(stop) => {
            drop(workflow);
            drop(compiled);
            Err(stop)
        }
    }
}
