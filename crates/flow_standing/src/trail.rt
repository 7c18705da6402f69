ghost use Rattle.std.specs.Prelude.{◌≡◌, ◌∷◌, ◌++◌, IfOk, OnOk};
ghost use Rattle.flow_core.specs.Run.{schema};
ghost use Rattle.flow_standing.specs.Trail.{AreDoings};
ghost use Rattle.flow_standing.specs.Following.{leaf_taken, leaves_given, leaf_numbered, next_trail};

use flow_core::Core;
use flow_model::{Entry, Step};
use std::alloc::{AllocError, Global};

/// What put a leaf on the journal.
#[derive(Clone, Copy)]
pub struct Doing {
    pub leaf: u32,
    /// The claim on the leaf that was done, if it is an event's.
    pub claim: Option<u32>,
    /// The caller who posted it.
    pub by: u32,
    /// The place of its entry in the history.
    pub place: usize,
}

/// What put the leaves on the journal, in its order.
pub fn doings(alloc: Global, core: &Core) -> Result<Vec<Doing>, AllocError>
    ensures { IfOk result (λ doings. AreDoings (schema core.now) core.now.history doings.items) }
{
    let history = core.history();
    let leaves = claim_leaves(alloc, history)?;
    let mut trail = Vec::new(alloc);
    for (place, entry) in history.iter().enumerate() {
        follow(&mut trail, &leaves, place, *entry)?;
    }
    Ok(trail)
}

/// The leaves of the claims of a history, by rising number.
pub(crate) fn claim_leaves(alloc: Global, history: &[Entry]) -> Result<Vec<u32>, AllocError>
    ensures { IfOk result (λ leaves. leaves.items ≡ leaves_given history.now) }
{
    let mut leaves = Vec::new(alloc);
    for entry in history {
        if let Some(leaf) = leaf_taken(entry.step) {
            leaves.push(leaf)?;
        }
    }
    Ok(leaves)
}

/// The leaf of the claim that the step gives.
fn leaf_taken(step: Step) -> Option<u32>
    ensures { result ≡ leaf_taken step }
{
    match step {
        Step::Took { leaf, .. } => Some(leaf),
        _ => None,
    }
}

/// The leaf of the claim of that number; 0 where there is none.
pub(crate) fn leaf_numbered(leaves: &[u32], claim: u32) -> u32
    ensures { result ≡ leaf_numbered leaves.now claim }
{
    if claim == 0 {
        return 0;
    }
    leaves.get(claim as usize - 1).copied().unwrap_or(0)
}

/// What stands on the journal after the entry, by what stood there before it.
pub(crate) fn follow(
    trail: &mut Vec<Doing>,
    leaves: &[u32],
    place: usize,
    entry: Entry,
) -> Result<(), AllocError>
    ensures { OnOk result (trail.new.items ≡ next_trail (leaf_numbered leaves.now) trail.old.items place entry.by entry.step) }
{
    let by = entry.by;
    match entry.step {
        Step::Done { claim } => {
            let leaf = leaf_numbered(leaves, claim);
            let claim = Some(claim);
            trail.push(Doing {
                leaf,
                claim,
                by,
                place,
            })?;
        }
        Step::Did { leaf } => trail.push(Doing {
            leaf,
            claim: None,
            by,
            place,
        })?,
        Step::Rewound { index } => trail.truncate(index as usize),
        Step::Took { .. } | Step::Failed { .. } | Step::Late { .. } | Step::Committed => {}
    }
    Ok(())
}
