ghost use Rattle.std.specs.Prelude.{IfOk};

use crate::judge::{Judge, Verdict};
use std::alloc::{AllocError, Global};

/// Why an event does not fit where it comes.
#[derive(Clone, Copy, PartialEq, Eq, Hash, Debug)]
pub enum Cause {
    /// It is no event of the workflow.
    Unknown,
    /// It came already; an event comes once.
    Again,
    /// It fits if this event comes just before it.
    Before(u32),
    /// It fits if this event, which came before it, is left out.
    After(u32),
    /// It fits with no single event more or less.
    Never,
}

/// What is found of a sequence.
#[derive(Clone, Copy, Debug)]
pub struct Finding {
    pub verdict: Verdict,
    /// Why the event at the place of the verdict does not fit, if there is such a place.
    pub cause: Option<Cause>,
}

/// Whether a sequence is an execution or the begin of one.
fn fits<J: Judge>(alloc: Global, judge: &J, events: &[u32]) -> Result<bool, AllocError> {
    match judge.judge(alloc, events)? {
        Verdict::Execution | Verdict::Front => Ok(true),
        _ => Ok(false),
    }
}

/// The least event that lets the last one fit if it comes just before it.
fn missing<J: Judge>(
    alloc: Global,
    judge: &J,
    before: &[u32],
    event: u32,
    declared: u32,
) -> Result<Option<u32>, AllocError> {
    for other in 0..declared {
        if other == event || before.contains(&other) {
            continue;
        }
        let mut events = Vec::from_slice(alloc, before)?;
        events.push(other)?;
        events.push(event)?;
        if fits(alloc, judge, &events)? {
            return Ok(Some(other));
        }
    }
    Ok(None)
}

/// The last event that lets the event behind fit if it is left out.
fn barring<J: Judge>(
    alloc: Global,
    judge: &J,
    before: &[u32],
    event: u32,
) -> Result<Option<u32>, AllocError> {
    for behind in 0..before.len() {
        let place = before.len() - 1 - behind;
        let mut events = Vec::from_slice(alloc, &before[..place])?;
        events.extend_from_slice(&before[place + 1..])?;
        events.push(event)?;
        if fits(alloc, judge, &events)? {
            return Ok(Some(before[place]));
        }
    }
    Ok(None)
}

/// Why an event does not fit behind these.
fn cause_at<J: Judge>(
    alloc: Global,
    judge: &J,
    before: &[u32],
    event: u32,
    declared: u32,
) -> Result<Cause, AllocError> {
    if before.contains(&event) {
        return Ok(Cause::Again);
    }
    if let Some(other) = missing(alloc, judge, before, event, declared)? {
        return Ok(Cause::Before(other));
    }
    match barring(alloc, judge, before, event)? {
        Some(other) => Ok(Cause::After(other)),
        None => Ok(Cause::Never),
    }
}

/// What is found of a sequence, by a judge of a workflow with so many events.
pub fn find_cause<J: Judge>(
    alloc: Global,
    judge: &J,
    events: &[u32],
    declared: u32,
) -> Result<Finding, AllocError>
    ensures { IfOk result (λ finding. J.judges judge.now events.now finding.verdict) }
{
    let verdict = judge.judge(alloc, events)?;
    let cause = match verdict {
        Verdict::Deviates { at } => match events.get(at as usize) {
            Some(event) => Some(cause_at(alloc, judge, &events[..at as usize], *event, declared)?),
            None => None,
        },
        Verdict::Unknown { .. } => Some(Cause::Unknown),
        _ => None,
    };
    Ok(Finding { verdict, cause })
}
