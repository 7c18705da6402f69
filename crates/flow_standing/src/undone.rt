ghost use Rattle.std.specs.Prelude.{◌≡◌, ◌++◌, drop, IfOk, OnOk};
ghost use Rattle.std.specs.List.{filter_map};
ghost use Rattle.flow_core.specs.Run.{schema};
ghost use Rattle.flow_standing.specs.Undone.{AreTakenBack};
ghost use Rattle.flow_standing.specs.Following.{taken_by, index_cut};

use crate::trail::{Doing, claim_leaves, follow};
use flow_core::Core;
use flow_model::Step;
use std::alloc::{AllocError, Global};

/// A task that was done, and that a step back took from the journal.
#[derive(Clone, Copy)]
pub struct TakenBack {
    pub leaf: u32,
    pub claim: u32,
    /// The caller who posted it as done.
    pub by: u32,
    /// The place in the history of the entry by which it was done.
    pub done: usize,
    /// The place in the history of the step back.
    pub rewound: usize,
}

/// What steps back took from the journal: one after another, and of each in the order in which it was done.
pub fn taken_back(alloc: Global, core: &Core) -> Result<Vec<TakenBack>, AllocError>
    ensures { IfOk result (λ all. AreTakenBack (schema core.now) core.now.history all.items) }
{
    let history = core.history();
    let leaves = claim_leaves(alloc, history)?;
    let mut trail = Vec::new(alloc);
    let mut all = Vec::new(alloc);
    for (place, entry) in history.iter().enumerate() {
        if let Some(index) = index_cut(entry.step) {
            take(&mut all, behind(&trail, index as usize), place)?;
        }
        follow(&mut trail, &leaves, place, *entry)?;
    }
    Ok(all)
}

/// To what length the step cuts the journal, if it is a step back.
fn index_cut(step: Step) -> Option<u32>
    ensures { result ≡ index_cut step }
{
    match step {
        Step::Rewound { index } => Some(index),
        _ => None,
    }
}

/// What stands on the journal from that index on.
fn behind(trail: &[Doing], index: usize) -> &[Doing]
    ensures { result.now ≡ drop index trail.now }
{
    trail.get(index..).unwrap_or(&[])
}

/// Adds the tasks among what is cut off.
fn take(all: &mut Vec<TakenBack>, cut: &[Doing], rewound: usize) -> Result<(), AllocError>
    ensures { OnOk result (all.new.items ≡ all.old.items ++ filter_map (taken_by rewound) cut.now) }
{
    for doing in cut {
        if let Some(claim) = doing.claim {
            let Doing {
                leaf,
                by,
                place,
                ..
            } = *doing;
            all.push(TakenBack {
                leaf,
                claim,
                by,
                done: place,
                rewound,
            })?;
        }
    }
    Ok(())
}
