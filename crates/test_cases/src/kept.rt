//! Rows of kept runs: the call, and the same call stopped at each call of its disk.

use crate::rows::{CALLS, Row};
use anyhow::{Context, Result, bail};
use flow_disk::MemDisk;
use flow_keep_cli::flowkeep;
use std::alloc::Global;
use test_doubles::{MemSink, MemSource};

/// Bytes for all writes of a row's session.
const POOL: usize = 65_536;
/// The status of a call whose disk failed.
const DISK: u8 = 8;
/// The words with which replies begin that tell of an entry.
const ENTRIES: [&str; 7] = [
    "claim ",
    "did ",
    "done ",
    "failed ",
    "late ",
    "rewound ",
    "committed",
];

/// What a call came to.
#[derive(Drop)]
pub(crate) struct KeptCall {
    pub(crate) status: u8,
    pub(crate) written: Vec<u8>,
    disk: MemDisk,
}

impl KeptCall {
    /// What was written, as text.
    fn text(&self) -> Result<&str> {
        str::from_utf8(&self.written).context("no text was written")
    }

    /// What the disk shows.
    pub(crate) fn shown(&self, alloc: Global) -> Result<Vec<u8>> {
        Ok(self.disk.left(alloc, 0, true)?)
    }
}

/// Calls `flowkeep` on an input, with a disk that holds these bytes and fails from the call of that number on, and a sink with so
/// much room.
fn call(
    alloc: Global,
    words: &[String],
    input: &[u8],
    held: &[u8],
    stop_at: u32,
    room: usize,
) -> Result<KeptCall> {
    if held.len() > POOL || stop_at > CALLS {
        bail!("too large a row");
    }
    let mut source = MemSource::new(input.to_vec(alloc)?);
    let mut sink = MemSink::new(alloc, room)?;
    let disk = MemDisk::new(alloc, held.to_vec(alloc)?, POOL, stop_at)?;
    let (status, disk) = flowkeep(alloc, words, &mut source, &mut sink, disk);
    Ok(KeptCall {
        status: status.code(),
        written: sink.bytes().to_vec(alloc)?,
        disk,
    })
}

/// The call that a row describes.
pub(crate) fn call_of(alloc: Global, words: &[String], row: &Row<'_>) -> Result<KeptCall> {
    call(alloc, words, &row.input, &row.before, row.stop_at, row.room)
}

/// The workflow of an input, with no session.
fn workflow_of(input: &str) -> &str {
    match input.split_once("%%\n") {
        Some((workflow, _)) => workflow,
        None => input,
    }
}

/// The lines of the history in a report.
fn history_of(written: &str) -> Option<&str> {
    let (_, behind) = written.split_once("\nhistory ")?;
    let (_, lines) = behind.split_once("\n")?;
    let (history, _) = lines.split_once("journal ")?;
    Some(history)
}

/// Whether a reply tells of an entry.
fn tells_of_an_entry(reply: &str) -> bool {
    for word in ENTRIES {
        if reply.starts_with(word) {
            return true;
        }
    }
    false
}

/// How many entries the whole lines of what was written tell of; the first line says how many were kept before.
fn acknowledged(written: &str) -> u32 {
    let Some((lines, _)) = written.rsplit_once("\n") else {
        return 0;
    };
    let mut count = 0u32;
    for line in lines.lines() {
        if let Some(kept) = line.strip_prefix("kept ") {
            count = kept.parse::<u32>().unwrap_or(u32::MAX);
        } else if tells_of_an_entry(line) {
            count = count.saturating_add(1);
        } else if line.starts_with("history ") {
            return count;
        }
    }
    count
}

/// Whether the call says that the disk failed: in its first call, which chooses the file, or in a later one.
fn says_what_failed(written: &str, stop_at: u32) -> bool {
    match stop_at {
        0 => written == "refused: open\n",
        _ => written.ends_with("refused: disk\n"),
    }
}

/// Whether each image that is tried of what a crash may leave, opened again, has a front of the history, and every entry that was told.
fn each_image_goes_on(
    alloc: Global,
    words: &[String],
    workflow: &str,
    run: &KeptCall,
    history: &str,
    room: usize,
) -> Result<bool> {
    let least = acknowledged(run.text()?);
    for (fill, keep) in [(0u8, false), (1, false), (255, false), (0, true)] {
        let held = run.disk.left(alloc, fill, keep)?;
        let again = call(alloc, words, workflow.as_bytes(), &held, CALLS, room)?;
        let written = again.text()?;
        let Some(front) = history_of(written) else {
            return Ok(false);
        };
        if !history.starts_with(front) || acknowledged(written) < least {
            return Ok(false);
        }
    }
    Ok(true)
}

/// Whether the call that a row describes, stopped at each call of its disk in turn, leaves of the history what it must.
pub(crate) fn stands_when_stopped(
    alloc: Global,
    words: &[String],
    row: &Row<'_>,
    whole: &KeptCall,
) -> Result<bool> {
    let Some(history) = history_of(whole.text()?) else {
        return Ok(true);
    };
    let input = str::from_utf8(&row.input).context("no text is read")?;
    let workflow = workflow_of(input);
    for stop_at in 0..CALLS {
        let run = call(alloc, words, &row.input, &row.before, stop_at, row.room)?;
        if run.status != DISK {
            return Ok(true);
        }
        if !says_what_failed(run.text()?, stop_at) {
            return Ok(false);
        }
        if !each_image_goes_on(alloc, words, workflow, &run, history, row.room)? {
            return Ok(false);
        }
    }
    Ok(false)
}
