//! A history made again, entry by entry.
ghost use Rattle.std.specs.Prelude.{◌≡◌, ◌<◌, ◌^◌, ℕ, List, length, take, slice_get, Some, false, OnOk};
ghost use Rattle.std.specs.Result.{IsErrOf};
ghost use Rattle.flow_model.specs.declared.history.Entry.{Entry as AnEntry};
ghost use Rattle.flow_case.specs.CaseRun.{case_with};
ghost use Rattle.flow_move.specs.declared.unmoved.Cause.{Cause as ACause};
ghost use Rattle.flow_move.specs.declared.unmoved.Unmoved.TheVariants as unmoved;
ghost use Rattle.flow_move.specs.Labels.{labels_in};
ghost use Rattle.flow_move.specs.Moves.{definition_of, AreMoved};
ghost use Rattle.flow_move.specs.Causes.{IsUnmoved, StopsAt};

use crate::labels::labels_of;
use crate::new_names::NewNames;
use crate::one::move_entry;
use crate::unmoved::Unmoved;
use flow_case::CaseRun;
use flow_facts::Name;
use flow_model::Entry;
use std::alloc::Global;

/// Makes the entries again by their names, up to the first that has no place, which is told.
fn make_each(
    run: &mut CaseRun,
    labels: &[Name],
    names: &NewNames,
    history: &[Entry],
) -> Result<(), Unmoved>
    requires labels { labels.now ≡ labels_in (definition_of run.old) }
    requires few { length labels.now < 2 ^ 32 }
    ensures ok { OnOk result ((made : List AnEntry) × AreMoved names.now run.old history.now made × (run.new ≡ case_with run.old made)) }
    ensures unmoved { (place : ℕ) (cause : ACause) → IsErrOf result (unmoved.Entry place cause) → StopsAt names.now run.old history.now place cause run.new }
    ensures memory { ¬ (IsErrOf result unmoved.NoMemory) }
{
    for (place, entry) in history.iter().enumerate() {
        if let Err(cause) = move_entry(run, labels, names, *entry) {
            return Err(Unmoved::Entry { place, cause });
        }
    }
    Ok(())
}

/// Makes an old history again in a case, by the names that it has there. Each entry comes on the least leaf of its label by which it may
/// come next, of the same user and the same claim. Or the first entry is told that has no such place, and why; those in front of it are
/// made.
pub fn make_again(
    alloc: Global,
    names: &NewNames,
    history: &[Entry],
    run: &mut CaseRun,
) -> Result<(), Unmoved>
    ensures moved { OnOk result ((made : List AnEntry) × AreMoved names.now run.old history.now made × (run.new ≡ case_with run.old made)) }
    ensures unmoved { (place : ℕ) (cause : ACause) → IsErrOf result (unmoved.Entry place cause) → StopsAt names.now run.old history.now place cause run.new }
    ensures memory { IsErrOf result unmoved.NoMemory → run.new ≡ run.old }
{
    let labels = labels_of(alloc, run.core().workflow())?;
    let made = make_each(run, &labels, names, history);
    drop(labels);
    made
}
