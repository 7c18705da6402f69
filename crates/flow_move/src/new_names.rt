//! What leaves and users of an old case are called in a new one.
ghost use Rattle.std.specs.Prelude.{◌≡◌, ◌↔◌, ◌∷◌, ℕ, map, drop, IsTrue, IfOk, MatchOption, slice_get, Some};
ghost use Rattle.flow_move.specs.Labels.{labels_in, renamed as renamed_by};
ghost use Rattle.flow_move.specs.Moves.{IsCaller};

use crate::labels::labels_of;
use flow_facts::Name;
use flow_workflow::Workflow;
use std::alloc::{AllocError, Global};

/// An event of the old text that has another name in the new one.
#[derive(Drop)]
pub struct Rename {
    pub from: Name,
    pub to: Name,
}

/// What the numbers of an old case stand for in a new one.
#[derive(Drop)]
pub struct NewNames {
    /// For each leaf of the old text, its label in the new one.
    pub labels: Vec<Name>,
    /// For each number of a user of the old case, from 0, the user's number in the new one. None where there is no such user.
    pub callers: Vec<Option<u32>>,
}

impl NewNames {
    /// The number that the user has in the new case.
    pub(crate) fn caller(&self, old: u32) -> Option<u32>
        ensures { MatchOption result ((by : ℕ) → ¬ (IsCaller self.now old by)) (IsCaller self.now old) }
    {
        match self.callers.get(old as usize) {
            Some(number) => *number,
            None => None,
        }
    }
}

/// The labels of an old text's leaves, each as it is in the new text. What is not renamed keeps its label.
pub fn new_labels(
    alloc: Global,
    old: &Workflow,
    renames: &[Rename],
) -> Result<Vec<Name>, AllocError>
    ensures { IfOk result (λ labels. labels.items ≡ map (renamed_by renames.now) (labels_in old.now)) }
{
    let labels = labels_of(alloc, old)?;
    let named = all_renamed(alloc, renames, &labels);
    drop(labels);
    named
}

/// The names, each by its new name.
fn all_renamed(alloc: Global, renames: &[Rename], names: &[Name]) -> Result<Vec<Name>, AllocError>
    ensures { IfOk result (λ named. named.items ≡ map (renamed_by renames.now) names.now) }
{
    let mut named = Vec::new(alloc);
    for name in names {
        named.push(renamed(alloc, renames, name)?)?;
    }
    Ok(named)
}

/// The new name of what has that name.
fn renamed(alloc: Global, renames: &[Rename], name: &Name) -> Result<Name, AllocError>
    ensures { IfOk result (λ new. new ≡ renamed_by renames.now name.now) }
{
    for rename in renames {
        if is_same(&rename.from, name) {
            return rename.to.copy(alloc);
        }
    }
    name.copy(alloc)
}

pub(crate) fn is_same(one: &Name, other: &Name) -> bool
    ensures { IsTrue result ↔ (one.now ≡ other.now) }
{
    one.bytes() == other.bytes()
}
