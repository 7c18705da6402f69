//! One entry of an old history, made in a new case.
ghost use Rattle.std.specs.Prelude.{◌≡◌, ◌<◌, ◌^◌, ◌∷◌, [], ℕ, length, false, slice_get, Some, IsTrue, IfErr, OnOk, OnErr};
ghost use Rattle.flow_model.specs.declared.history.Entry.{Entry as AnEntry};
ghost use Rattle.flow_core.specs.Answers.{IsLeast};
ghost use Rattle.flow_case.specs.CaseRun.{case_with};
ghost use Rattle.flow_move.specs.Labels.{labels_in};
ghost use Rattle.flow_move.specs.Moves.{IsCaller, definition_of, leaf_in, Moves, on_leaf as on};
ghost use Rattle.flow_move.specs.Causes.{IsUnmoved};
ghost use Rattle.flow_move.specs.Found.{MayOn, HasLeaf};

use crate::barred::{cause_of, cause_on};
use crate::new_names::{NewNames, is_same};
use crate::on_leaf::on_leaf;
use crate::unmoved::Cause;
use flow_case::CaseRun;
use flow_facts::Name;
use flow_model::{Entry, Step};

/// Makes the step, on the least leaf of that label by which it may come next.
fn make_on_least(run: &mut CaseRun, labels: &[Name], label: &Name, by: u32, step: Step) -> bool
    requires few { length labels.now < 2 ^ 32 }
    ensures made { IsTrue result → (leaf : ℕ) × IsLeast (MayOn run.old labels.now label.now by step) leaf
        × (run.new ≡ case_with run.old (record { by = by; step = on step leaf } ∷ [])) }
    ensures kept { result ≡ false → run.new ≡ run.old }
    ensures none { result ≡ false → (leaf : ℕ) → ¬ (MayOn run.old labels.now label.now by step leaf) }
{
    for (leaf, other) in labels.iter().enumerate() {
        if is_same(other, label) {
            let next = on_leaf(step, leaf as u32);
            if run.make(Entry { by, step: next }) {
                return true;
            }
        }
    }
    false
}

/// Makes the step that has a leaf of that label, or tells why not.
fn move_on(
    run: &mut CaseRun,
    labels: &[Name],
    names: &NewNames,
    old: Entry,
    by: u32,
    label: &Name,
) -> Result<(), Cause>
    requires labels { labels.now ≡ labels_in (definition_of run.old) }
    requires few { length labels.now < 2 ^ 32 }
    requires caller { IsCaller names.now old.by by }
    requires leaf { HasLeaf old.step }
    requires label { slice_get names.now.labels.items (leaf_in old.step) ≡ Some label.now }
    ensures ok { OnOk result ((new : AnEntry) × Moves names.now run.old old new × (run.new ≡ case_with run.old (new ∷ []))) }
    ensures unmoved { IfErr result (IsUnmoved names.now run.old old) }
    ensures kept { OnErr result (run.new ≡ run.old) }
{
    if make_on_least(run, labels, label, by, old.step) {
        Ok(())
    } else {
        Err(cause_on(run.core(), labels, label, old.step))
    }
}

/// Makes the step that has no leaf, or tells why not.
fn move_plain(run: &mut CaseRun, names: &NewNames, old: Entry, by: u32) -> Result<(), Cause>
    requires caller { IsCaller names.now old.by by }
    requires plain { ¬ (HasLeaf old.step) }
    ensures ok { OnOk result ((new : AnEntry) × Moves names.now run.old old new × (run.new ≡ case_with run.old (new ∷ []))) }
    ensures unmoved { IfErr result (IsUnmoved names.now run.old old) }
    ensures kept { OnErr result (run.new ≡ run.old) }
{
    if run.make(Entry { by, step: old.step }) {
        Ok(())
    } else {
        Err(cause_of(run.core(), old.step))
    }
}

/// Makes the old entry by its names, on the least leaf by which it may come next, or tells why not.
pub(crate) fn move_entry(
    run: &mut CaseRun,
    labels: &[Name],
    names: &NewNames,
    old: Entry,
) -> Result<(), Cause>
    requires labels { labels.now ≡ labels_in (definition_of run.old) }
    requires few { length labels.now < 2 ^ 32 }
    ensures ok { OnOk result ((new : AnEntry) × Moves names.now run.old old new × (run.new ≡ case_with run.old (new ∷ []))) }
    ensures unmoved { IfErr result (IsUnmoved names.now run.old old) }
    ensures kept { OnErr result (run.new ≡ run.old) }
{
    let Some(by) = names.caller(old.by) else {
        return Err(Cause::NoUser);
    };
    match old.step {
        Step::Took { leaf, .. } | Step::Did { leaf } => match names.labels.get(leaf as usize) {
            Some(label) => move_on(run, labels, names, old, by, label),
            None => Err(Cause::NoName),
        },
        _ => move_plain(run, names, old, by),
    }
}
