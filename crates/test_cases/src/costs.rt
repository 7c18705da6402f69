//! Calls of `flow`, and what they cost beside one another.

use crate::rows::Row;
use anyhow::Result;
use flow_cli::flow;
use flow_gate::NoteGate;
use std::sync::Wait;
use std::thread::Threads;
use std::time::CpuClock;
use test_doubles::{MemSink, MemSource};

/// The status of a call of `flow` on an input, and what it writes into so much room.
pub(crate) fn answer<R: AllocGlobal + Threads + Wait + Sync>(
    rt: &R,
    words: &[String],
    input: &[u8],
    room: usize,
) -> Result<(u8, Vec<u8>)> {
    let mut source = MemSource::new(input.to_vec(rt.alloc())?);
    let mut sink = MemSink::new(rt.alloc(), room)?;
    let status = flow(rt, rt.alloc(), words, &mut source, &mut sink, &NoteGate).code();
    Ok((status, sink.bytes().to_vec(rt.alloc())?))
}

/// The microseconds of the processor that a call takes.
fn cost<R: AllocGlobal + CpuClock + Threads + Wait + Sync>(
    rt: &R,
    words: &[String],
    input: &[u8],
    room: usize,
) -> Result<u64> {
    let begun = rt.thread_cpu_time()?;
    drop(answer(rt, words, input, room)?);
    let spent = rt.thread_cpu_time()?.saturating_sub(begun);
    Ok(u64::try_from(spent.as_micros()).unwrap_or(u64::MAX))
}

/// Whether the row costs at most so many times what the other input costs: the least of three calls each, by turns.
pub(crate) fn is_cheap<R: Print + AllocGlobal + CpuClock + Threads + Wait + Sync>(
    rt: &R,
    words: &[String],
    row: &Row<'_>,
    other: &[u8],
) -> Result<bool> {
    let mut least = u64::MAX;
    let mut least_other = u64::MAX;
    for _ in 0..3 {
        least_other = least_other.min(cost(rt, words, other, row.room)?);
        least = least.min(cost(rt, words, &row.input, row.room)?);
    }
    if least <= least_other.saturating_mul(u64::from(row.times)) {
        return Ok(true);
    }
    let name = row.name;
    println!(rt; "dear: {name} takes {least} microseconds, the other input {least_other}")?;
    Ok(false)
}
