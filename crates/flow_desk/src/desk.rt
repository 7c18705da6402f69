ghost use Rattle.std.specs.Prelude.{IfOk, IfErr, None, Some, option_map};
ghost use Rattle.flow_form.specs.Names.{IsClosed};
ghost use Rattle.flow_form.specs.Script.{said};
ghost use Rattle.flow_desk.specs.Desk.{IsDrawn, IsNotDrawn, IsDrawnOf, IsNotDrawnOf, IsRunNotDrawn};
ghost use Rattle.flow_front.specs.Prepared.{IsPrepared};

use crate::depict::depict;
use crate::run_file::run_told;
use crate::source::script_of;
use crate::stop::{DeskStop, stopped};
use flow_draw::Sheet;
use flow_facts::Name;
use flow_form::Script;
use flow_front::{Prepared, expand_script, prepare};
use std::alloc::Global;

/// The picture of a workflow, as the sheet asks for it: of the workflow that the first text says, and of the run of it of which the file
/// tells, if there is one, each leaf with its mark. The box of a leaf shows its note behind its own text; notes are by the numbers of the
/// leaves, and an empty one is none.
pub fn drawn(
    alloc: Global,
    text: &[u8],
    run: Option<&[u8]>,
    notes: &[Name],
    sheet: &Sheet,
) -> Result<Vec<u8>, DeskStop>
    ensures drawn { IfOk result (λ picture. IsDrawn text.now (option_map (λ file. file.now) run.entry) notes.now sheet.now picture.items) }
    ensures stop { IfErr result (IsNotDrawn text.now (option_map (λ file. file.now) run.entry) notes.now) }
{
    match script_of(alloc, text) {
        Ok(script) => match run {
            None => draw_workflow(alloc, script, notes, sheet),
            Some(file) => draw_run(alloc, script, file, notes, sheet),
        },
        Err(stop) => Err(stopped(alloc, stop, None)),
    }
}

/// The picture of a workflow that no run is shown of. Its constraints may be such that no execution meets them.
fn draw_workflow(
    alloc: Global,
    script: Script,
    notes: &[Name],
    sheet: &Sheet,
) -> Result<Vec<u8>, DeskStop>
    requires { IsClosed (said script) }
    ensures drawn { IfOk result (λ picture. IsDrawnOf sheet.now (said script) None notes.now picture.items) }
    ensures stop { IfErr result (IsNotDrawnOf (said script) None notes.now) }
{
    match expand_script(alloc, &script) {
        Ok(workflow) => {
            let text = depict(alloc, script, &workflow, notes, &[], sheet);
            drop(workflow);
            text
        }
        Err(stop) => {
            let stop = stopped(alloc, stop, Some(&script));
            drop(script);
            Err(stop)
        }
    }
}

/// The picture of a workflow with the marks of its run.
fn draw_run(
    alloc: Global,
    script: Script,
    file: &[u8],
    notes: &[Name],
    sheet: &Sheet,
) -> Result<Vec<u8>, DeskStop>
    requires { IsClosed (said script) }
    ensures drawn { IfOk result (λ picture. IsDrawnOf sheet.now (said script) (Some file.now) notes.now picture.items) }
    ensures stop { IfErr result (IsNotDrawnOf (said script) (Some file.now) notes.now) }
{
    match prepare(alloc, &script) {
        Ok(prepared) => draw_prepared(alloc, script, prepared, file, notes, sheet),
        Err(stop) => {
            let stop = stopped(alloc, stop, Some(&script));
            drop(script);
            Err(stop)
        }
    }
}

/// The picture of a workflow that was compiled, with the marks of its run.
fn draw_prepared(
    alloc: Global,
    script: Script,
    prepared: Prepared,
    file: &[u8],
    notes: &[Name],
    sheet: &Sheet,
) -> Result<Vec<u8>, DeskStop>
    requires { IsPrepared (said script) prepared.workflow prepared.compiled }
    ensures drawn { IfOk result (λ picture. IsDrawnOf sheet.now (said script) (Some file.now) notes.now picture.items) }
    ensures stop { IfErr result (IsRunNotDrawn (said script) file.now notes.now) }
{
    let Prepared { workflow, compiled } = prepared;
    match run_told(alloc, workflow, compiled, file) {
        Ok(run) => {
            let text = depict(alloc, script, run.core.workflow(), notes, &run.marks, sheet);
            drop(run);
            text
        }
        Err(stop) => {
            drop(script);
            Err(stop)
        }
    }
}
