//! Worked cases: each file that the command line names has rows, and each row says what a call of `flow`, `flowkeep` or `flowdesk` is
//! given and what it must write. A row that comes out otherwise is printed, and then how many rows of each file were right.
#![tactic(auto)]

mod colliding;
mod costs;
mod dialogues;
mod drawn;
mod explained;
mod kept;
mod linted;
mod pieces;
mod questioned;
mod rows;

use anyhow::{Context, Result};
use costs::{answer, is_cheap};
use dialogues::spoken_by;
use drawn::drawn_by;
use explained::explained_by;
use kept::{call_of, stands_when_stopped};
use linted::linted_by;
use questioned::questioned_by;
use rows::Row;
use std::alloc::Global;
use std::rt::{Env, Files};
use std::sync::Wait;
use std::thread::Threads;
use std::time::CpuClock;
use std::{env, fs};

/// The words of a command line.
fn words_of(alloc: Global, line: &str) -> Result<Vec<String>> {
    let mut words = Vec::new(alloc);
    for word in line.split_whitespace() {
        words.push(String::from_str(alloc, word)?)?;
    }
    Ok(words)
}

/// Prints what a row wrote that is wrong.
fn tell_wrong<R: Print>(rt: &R, row: &Row<'_>, status: u8, written: &[u8]) -> Result<()> {
    let name = row.name;
    println!(rt; "wrong: {name} ended with {status} and wrote")?;
    let text = str::from_utf8(written).context("no text was written")?;
    print!(rt; "{text}")?;
    Ok(())
}

/// Whether a call of `flow` writes what the row says, and costs no more than it says.
fn is_answered<R: Print + AllocGlobal + CpuClock + Threads + Wait + Sync>(
    rt: &R,
    words: &[String],
    row: &Row<'_>,
) -> Result<bool> {
    let (status, written) = answer(rt, words, &row.input, row.room)?;
    if status != row.status || written.as_slice() != row.output.as_slice() {
        tell_wrong(rt, row, status, &written)?;
        return Ok(false);
    }
    match &row.beside {
        None => Ok(true),
        Some(other) => is_cheap(rt, words, row, other),
    }
}

/// Whether a call of `flowkeep` writes and keeps what the row says, and loses nothing where its disk stops.
fn is_kept<R: Print + AllocGlobal>(rt: &R, words: &[String], row: &Row<'_>) -> Result<bool> {
    let run = call_of(rt.alloc(), words, row)?;
    let shown = run.shown(rt.alloc())?;
    let is_right = run.status == row.status
        && run.written.as_slice() == row.output.as_slice()
        && shown.as_slice() == row.after.as_slice();
    if is_right && stands_when_stopped(rt.alloc(), words, row, &run)? {
        return Ok(true);
    }
    tell_wrong(rt, row, run.status, &run.written)?;
    Ok(false)
}

/// Whether the call asks a policy.
fn is_question(words: &str) -> bool {
    words.starts_with("flowdesk alone")
        || words.starts_with("flowdesk staffed")
        || words.starts_with("flowdesk lint --policy")
}

/// Whether the call of `flowdesk` draws, tells or replies what the row says.
fn is_drawn<R: Print + AllocGlobal>(rt: &R, words: &[String], row: &Row<'_>) -> Result<bool> {
    let (status, written) = if row.words.starts_with("flowdesk explain") {
        explained_by(rt.alloc(), words, row)?
    } else if row.words.starts_with("flowdesk open") {
        spoken_by(rt.alloc(), words, row)?
    } else if is_question(row.words) {
        questioned_by(rt.alloc(), words, row)?
    } else if row.words.starts_with("flowdesk lint") {
        linted_by(rt.alloc(), words, row)?
    } else {
        drawn_by(rt.alloc(), words, row)?
    };
    if status == row.status && written.as_slice() == row.output.as_slice() {
        return Ok(true);
    }
    tell_wrong(rt, row, status, &written)?;
    Ok(false)
}

/// Whether the call that the row describes does what it must; what it wrote is printed where it does not.
fn is_right<R: Print + AllocGlobal + CpuClock + Threads + Wait + Sync>(
    rt: &R,
    row: &Row<'_>,
) -> Result<bool> {
    let words = words_of(rt.alloc(), row.words)?;
    if row.words.starts_with("flowkeep") {
        is_kept(rt, &words, row)
    } else if row.words.starts_with("flowdesk") {
        is_drawn(rt, &words, row)
    } else {
        is_answered(rt, &words, row)
    }
}

/// Tries each row of a file.
fn try_rows<R: Print + AllocGlobal + CpuClock + Threads + Wait + Sync>(
    rt: &R,
    file: &str,
    text: &str,
) -> Result<()> {
    let mut right = 0u64;
    let mut all = 0u64;
    // what stands before the first row says what the file is about
    for piece in text.split("\n=== ").skip(1) {
        let row = Row::read(rt.alloc(), piece)?;
        all = all.saturating_add(1);
        if is_right(rt, &row)? {
            right = right.saturating_add(1);
        }
    }
    println!(rt; "{file}: {right} of {all} rows are right")?;
    Ok(())
}

fn run<R: Print + AllocGlobal + CpuClock + Env + Files + Threads + Wait + Sync>(
    rt: &R,
) -> Result<()> {
    for file in env::args(rt)?.skip(1) {
        let text = fs::read_to_string(rt, file.as_str())?;
        try_rows(rt, file.as_str(), text.as_str())?;
    }
    Ok(())
}

fn main(rt: HostRuntime) -> Result<()> {
    run(&rt)
}
