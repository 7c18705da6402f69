ghost use Rattle.std.specs.Prelude.{◌≡◌, ◌++◌, ◌==◌, IfOk, OnOk};
ghost use Rattle.std.specs.List.{list_any, filter_map};
ghost use Rattle.flow_core.specs.Run.{schema, now};
ghost use Rattle.flow_standing.specs.Following.{leaves_given, leaf_taken, leaf_numbered};
ghost use Rattle.flow_export.specs.Events.{listed, is_counted, undone_by, event_at, events_at, events_from, IsLog, counted_leaves};

use crate::log_event::{Lifecycle, LogEvent};
use flow_core::Core;
use flow_model::{Entry, Step};
use flow_standing::{Doing, TakenBack, doings, taken_back};
use std::alloc::{AllocError, Global};

/// The events of a run's history, in its order. The leaves of those that count are its journal.
pub fn events_of(alloc: Global, core: &Core) -> Result<Vec<LogEvent>, AllocError>
    ensures log { IfOk result (λ events. IsLog (schema core.now) core.now.history events.items) }
    ensures journal { IfOk result (λ events. counted_leaves events.items ≡ (now core.now).journal) }
{
    let events = log_of(alloc, core)?;
    Ok(events)
}

/// The events of a run's history, in its order.
fn log_of(alloc: Global, core: &Core) -> Result<Vec<LogEvent>, AllocError>
    ensures { IfOk result (λ events. IsLog (schema core.now) core.now.history events.items) }
{
    let history = core.history();
    let doings = doings(alloc, core)?;
    let taken = taken_back(alloc, core)?;
    let events = all_events(alloc, history, &doings, &taken)?;
    Ok(events)
}

/// The events of the entries, by what stands on the journal in the end and by what steps back took.
fn all_events(
    alloc: Global,
    history: &[Entry],
    doings: &[Doing],
    taken: &[TakenBack],
) -> Result<Vec<LogEvent>, AllocError>
    ensures { IfOk result (λ events. events.items
        ≡ events_from (leaf_numbered (leaves_given history.now)) doings.now taken.now 0 history.now) }
{
    let leaves = claim_leaves(alloc, history)?;
    let mut events = Vec::new(alloc);
    for (place, entry) in history.iter().enumerate() {
        push_events(&mut events, &leaves, doings, taken, place, entry.step)?;
    }
    Ok(events)
}

/// Adds the events of the entry at the place.
fn push_events(
    events: &mut Vec<LogEvent>,
    leaves: &[u32],
    doings: &[Doing],
    taken: &[TakenBack],
    place: usize,
    step: Step,
) -> Result<(), AllocError>
    ensures { OnOk result (events.new.items ≡ events.old.items ++ events_at (leaf_numbered leaves.now) doings.now taken.now place step) }
{
    match step {
        Step::Rewound { .. } => push_undone(events, taken, place),
        _ => push_event(events, event_at(leaves, doings, place, step)),
    }
}

/// Adds the event, if there is one.
fn push_event(events: &mut Vec<LogEvent>, event: Option<LogEvent>) -> Result<(), AllocError>
    ensures { OnOk result (events.new.items ≡ events.old.items ++ listed event) }
{
    if let Some(event) = event {
        events.push(event)?;
    }
    Ok(())
}

/// The leaves of the claims of a history, by rising number.
fn claim_leaves(alloc: Global, history: &[Entry]) -> Result<Vec<u32>, AllocError>
    ensures { IfOk result (λ leaves. leaves.items ≡ leaves_given history.now) }
{
    let mut leaves = Vec::new(alloc);
    for entry in history {
        if let Some(leaf) = leaf_taken(entry.step) {
            leaves.push(leaf)?;
        }
    }
    Ok(leaves)
}

/// The leaf of the claim that the step gives.
fn leaf_taken(step: Step) -> Option<u32>
    ensures { result ≡ leaf_taken step }
{
    match step {
        Step::Took { leaf, .. } => Some(leaf),
        _ => None,
    }
}

/// The leaf of the claim of that number; 0 where there is none.
fn leaf_numbered(leaves: &[u32], claim: u32) -> u32
    ensures { result ≡ leaf_numbered leaves.now claim }
{
    if claim == 0 {
        return 0;
    }
    leaves.get(claim as usize - 1).copied().unwrap_or(0)
}

/// Whether the entry at the place put a leaf on the journal that stands there in the end.
fn is_counted(doings: &[Doing], place: usize) -> bool
    ensures { result ≡ is_counted doings.now place }
{
    doings.iter().any(|doing| doing.place == place)
}

/// The event of an entry that is no step back, if it has one.
fn event_at(leaves: &[u32], doings: &[Doing], place: usize, step: Step) -> Option<LogEvent>
    ensures { result ≡ event_at (leaf_numbered leaves.now) doings.now place step }
{
    let (leaf, lifecycle) = match step {
        Step::Took { leaf, .. } => (leaf, Lifecycle::Start),
        Step::Done { claim } => (leaf_numbered(leaves, claim), Lifecycle::Complete),
        Step::Failed { claim, .. } => (leaf_numbered(leaves, claim), Lifecycle::Fail),
        Step::Late { claim } => (leaf_numbered(leaves, claim), Lifecycle::Late),
        Step::Did { leaf } => (leaf, Lifecycle::Complete),
        Step::Rewound { .. } | Step::Committed => return None,
    };
    Some(LogEvent {
        place,
        leaf,
        lifecycle,
        counts: lifecycle == Lifecycle::Complete && is_counted(doings, place),
    })
}

/// Adds the tasks that the step back at the place took.
fn push_undone(
    events: &mut Vec<LogEvent>,
    taken: &[TakenBack],
    place: usize,
) -> Result<(), AllocError>
    ensures { OnOk result (events.new.items ≡ events.old.items ++ filter_map (undone_by place) taken.now) }
{
    for one in taken {
        push_event(events, undone_by(place, *one))?;
    }
    Ok(())
}

/// The task that the step back at the place took, if it is one of it.
fn undone_by(place: usize, taken: TakenBack) -> Option<LogEvent>
    ensures { result ≡ undone_by place taken }
{
    if taken.rewound != place {
        return None;
    }
    Some(LogEvent {
        place,
        leaf: taken.leaf,
        lifecycle: Lifecycle::Undone,
        counts: false,
    })
}
