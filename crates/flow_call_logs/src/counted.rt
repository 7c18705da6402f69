ghost use Rattle.flow_workflow.specs.Definition.{schema_of};
ghost use Rattle.flow_plan.specs.Compilation.{IsCompiled};

use crate::told::{Source, USUAL_BUDGET, drawn_key, source_in, tell_workflow, told_of};
use clap::ArgMatches;
use flow_call::{
    NO_MEMORY, USUAL_JOBS, WORDS, read_source, say_no_source, say_undrawn, sheet_in, write_out,
};
use flow_desk::{GREATEST_INPUT, Sheet, count_notes, drawn};
use flow_front::Prepared;
use flow_log_cli::{passing_cases, workflow_of};
use std::alloc::AllocError;
use std::fs::File;
use std::random::RandomSource;
use std::rt::Files;
use std::thread::Threads;

/// The workflow that is drawn: its file, the bytes of that, and how.
#[derive(Clone, Copy)]
struct Drawing<'a> {
    file: &'a str,
    text: &'a [u8],
    sheet: &'a Sheet,
}

/// Draws a workflow with how many cases of the log passed each leaf, and gives the status.
fn draw_cases<R: Files<File = File> + AllocGlobal + Print + Eprint + Threads + Sync>(
    rt: &R,
    source: &Source<'_>,
    drawing: Drawing<'_>,
    prepared: &Prepared,
) -> u8
    requires { IsCompiled (schema_of prepared.now.workflow) prepared.now.compiled }
{
    let told = match told_of(rt, source, prepared) {
        Ok(told) => told,
        Err(status) => return status,
    };
    let counts = match passing_cases(rt.alloc(), prepared, &told.found.cases, USUAL_BUDGET) {
        Ok(counts) => counts,
        Err(AllocError) => return NO_MEMORY,
    };
    drop(told);
    let notes = match count_notes(rt.alloc(), &counts) {
        Ok(notes) => notes,
        Err(AllocError) => return NO_MEMORY,
    };
    match drawn(rt.alloc(), drawing.text, None, &notes, drawing.sheet) {
        Ok(picture) => write_out(rt, &picture),
        Err(stop) => say_undrawn(rt, drawing.file, drawing.text, "", &stop),
    }
}

/// Draws the workflow that the words name with how many cases of the log passed each leaf, and gives the status.
pub fn draw_log<
    R: Files<File = File> + RandomSource + Input + AllocGlobal + Print + Eprint + Threads + Sync,
>(rt: &R, matches: &ArgMatches<'_>) -> u8 {
    let key = match drawn_key(rt) {
        Ok(key) => key,
        Err(status) => return status,
    };
    let (Some(source), Some(file)) = (
        source_in(matches, USUAL_JOBS, USUAL_BUDGET, key),
        matches.get_str("file"),
    ) else {
        return WORDS;
    };
    let sheet = match sheet_in(rt, matches) {
        Ok(sheet) => sheet,
        Err(status) => return status,
    };
    let text = match read_source(rt, file, GREATEST_INPUT) {
        Ok(text) => text,
        Err(error) => return say_no_source(rt, file, error),
    };
    match workflow_of(rt.alloc(), &text) {
        Ok(prepared) => {
            let text = text.as_slice();
            let sheet = &sheet;
            draw_cases(rt, &source, Drawing { file, text, sheet }, &prepared)
        }
        Err(_) => tell_workflow(rt, &text),
    }
}
