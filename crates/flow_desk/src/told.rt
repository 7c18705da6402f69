ghost use Rattle.std.specs.Prelude.{◌≡◌, ◌++◌, ◌^◌, ◌<◌, length, IfOk, IfErr, OnOk};
ghost use Rattle.flow_model.specs.Facts.{event_at};
ghost use Rattle.flow_record.specs.Journal.{journal_of, journal};
ghost use Rattle.flow_desk.specs.Told.{claims_with, leaf_entries, entries_from, TellsJournal, Tells};
ghost use Rattle.flow_desk.specs.Untold.{IsNoJournal, IsUntold};

use crate::report::{Untold, read_report};
use flow_model::{Entry, Step};
use flow_record::{RecordRefusal, read_journal};
use flow_workflow::Workflow;
use std::alloc::{AllocError, Global};

/// What the file of a run tells.
#[derive(Drop)]
pub(crate) struct Told {
    /// The line of the first entry, from 0, where the file is a report.
    pub(crate) line: Option<usize>,
    pub(crate) entries: Vec<Entry>,
}

/// Adds the entries by which a leaf is done, after so many claims, and gives how many claims there are then. Claims past the greatest
/// number are refused as want of memory, which a text cannot hold either.
fn push_leaf(
    entries: &mut Vec<Entry>,
    workflow: &Workflow,
    claims: u32,
    leaf: u32,
) -> Result<u32, AllocError>
    ensures claims { IfOk result (λ next. next ≡ claims_with claims (event_at workflow.now.tree.labels leaf)) }
    ensures entries { OnOk result (entries.new.items ≡ entries.old.items ++ leaf_entries claims leaf (event_at workflow.now.tree.labels leaf)) }
{
    match workflow.tree().event(leaf) {
        None => {
            let step = Step::Did { leaf };
            entries.push(Entry { by: 0, step })?;
            Ok(claims)
        }
        Some(_) => {
            let claim = claims.checked_add(1).ok_or(AllocError)?;
            let step = Step::Took { claim, leaf };
            entries.push(Entry { by: 0, step })?;
            let step = Step::Done { claim };
            entries.push(Entry { by: 0, step })?;
            Ok(claim)
        }
    }
}

/// The entries by which the leaves are done in turn.
fn entries_of(alloc: Global, workflow: &Workflow, leaves: &[u32]) -> Result<Vec<Entry>, AllocError>
    ensures { IfOk result (λ entries. entries.items ≡ entries_from workflow.now.tree.labels 0 leaves.now) }
{
    let mut entries = Vec::new(alloc);
    let mut claims = 0;
    for leaf in leaves {
        claims = push_leaf(&mut entries, workflow, claims, *leaf)?;
    }
    Ok(entries)
}

/// The entries by which the leaves of a journal are done.
fn journal_entries(alloc: Global, workflow: &Workflow, text: &[u8]) -> Result<Vec<Entry>, Untold>
    ensures ok { IfOk result (λ entries. TellsJournal workflow.now text.now entries.items) }
    ensures bad { IfErr result (IsNoJournal workflow.now text.now) }
{
    let leaves = match read_journal(alloc, workflow, text) {
        Ok(leaves) => leaves,
        Err(RecordRefusal::BadLine { line }) => return Err(Untold::Line(line as usize)),
        Err(RecordRefusal::Label { line }) => return Err(Untold::Label(line as usize)),
        Err(RecordRefusal::NoMemory) => return Err(Untold::NoMemory),
    };
    Ok(entries_of(alloc, workflow, &leaves)?)
}

/// The history that the file of a run tells: that of the last part of a report that tells one, or else that of a journal.
pub(crate) fn read_run(alloc: Global, workflow: &Workflow, text: &[u8]) -> Result<Told, Untold>
    requires { length text.now < 2 ^ 31 }
    ensures told { IfOk result (λ told. Tells workflow.now text.now told.line told.entries.items) }
    ensures untold { IfErr result (IsUntold workflow.now text.now) }
{
    match read_report(alloc, text)? {
        Some((line, entries)) => Ok(Told {
            line: Some(line),
            entries,
        }),
        None => {
            let entries = journal_entries(alloc, workflow, text)?;
            Ok(Told {
                line: None,
                entries,
            })
        }
    }
}
