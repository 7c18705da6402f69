ghost use Rattle.std.specs.Prelude.{◌≡◌, map, IfOk};
ghost use Rattle.flow_export.specs.Rows.{said, told, told_at, row_at, IsLogOf};

use crate::events::events_of;
use crate::log_event::{Lifecycle, LogEvent};
use flow_core::Core;
use flow_workflow::{Workflow, push_leaf_label};
use std::alloc::{AllocError, Global};

/// Who made an entry, when, and what is noted.
#[derive(Drop)]
pub struct Teller {
    pub at: String,
    pub by: String,
    pub note: String,
}

/// A row of an event log.
#[derive(Drop)]
pub struct LogRow {
    /// The name of the case.
    pub case: String,
    /// The number of the entry in the history, from 1.
    pub entry: u64,
    /// The name of the task, or the label of the test or the change.
    pub activity: Vec<u8>,
    /// Whether the leaf is that of a task.
    pub is_task: bool,
    pub leaf: u32,
    pub lifecycle: Lifecycle,
    /// When, as it was told.
    pub at: String,
    pub by: String,
    /// Whether the leaf stands on the journal by this entry, after the whole history.
    pub counts: bool,
    pub note: String,
}

/// The rows of a case: of each event of its history in order, with who made its entry and when. The tellers are those of the entries,
/// in order; where one is missing, the row has no name and no time.
pub fn rows_of(
    alloc: Global,
    core: &Core,
    case: &str,
    tellers: &[Teller],
) -> Result<Vec<LogRow>, AllocError>
    ensures { IfOk result (λ rows. IsLogOf core.now case.now tellers.now (map said rows.items)) }
{
    let events = events_of(alloc, core)?;
    let rows = event_rows(alloc, core.workflow(), case, tellers, &events)?;
    Ok(rows)
}

/// The rows of the events.
fn event_rows(
    alloc: Global,
    workflow: &Workflow,
    case: &str,
    tellers: &[Teller],
    events: &[LogEvent],
) -> Result<Vec<LogRow>, AllocError>
    ensures { IfOk result (λ rows. map said rows.items ≡ map (row_at workflow.now case.now tellers.now) events.now) }
{
    let mut rows = Vec::new(alloc);
    for event in events {
        rows.push(row_at(alloc, workflow, case, tellers, *event)?)?;
    }
    Ok(rows)
}

/// The row of the event.
fn row_at(
    alloc: Global,
    workflow: &Workflow,
    case: &str,
    tellers: &[Teller],
    event: LogEvent,
) -> Result<LogRow, AllocError>
    ensures { IfOk result (λ row. said row ≡ row_at workflow.now case.now tellers.now event) }
{
    let mut activity = Vec::new(alloc);
    push_leaf_label(&mut activity, workflow, event.leaf)?;
    let Teller { at, by, note } = teller_of(alloc, tellers, event.place)?;
    Ok(LogRow {
        case: String::from_str(alloc, case)?,
        entry: (event.place as u64).saturating_add(1),
        activity,
        is_task: workflow.tree().event(event.leaf).is_some(),
        leaf: event.leaf,
        lifecycle: event.lifecycle,
        at,
        by,
        counts: event.counts,
        note,
    })
}

/// Who made the entry at the place, if that is told.
fn teller_of(alloc: Global, tellers: &[Teller], place: usize) -> Result<Teller, AllocError>
    ensures { IfOk result (λ teller. told teller ≡ told_at tellers.now place) }
{
    match tellers.get(place) {
        Some(teller) => Ok(Teller {
            at: String::from_str(alloc, &teller.at)?,
            by: String::from_str(alloc, &teller.by)?,
            note: String::from_str(alloc, &teller.note)?,
        }),
        None => Ok(Teller {
            at: String::new(alloc),
            by: String::new(alloc),
            note: String::new(alloc),
        }),
    }
}
