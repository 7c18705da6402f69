//! Why a journal stops being the front of an execution.
ghost use Rattle.std.specs.Prelude.{◌≡◌, [], IsTrue, IfOk, IfSome};
ghost use Rattle.flow_model.specs.Run.{current_claims};
ghost use Rattle.flow_core.specs.Run.{now};
ghost use Rattle.flow_reason.specs.Bad.{GivesNothingUp, IsBadAt};

use crate::leaf::why_leaf;
use crate::reason::Reason;
use flow_core::Core;
use std::alloc::{AllocError, Global};

/// Why a leaf may not come where a journal has it.
#[derive(Drop)]
pub struct Bad {
    pub leaf: u32,
    pub reason: Reason,
    /// The leaves that could have come there, rising.
    pub instead: Vec<u32>,
}

/// The number of the caller that makes the entries. It is no user's.
const NOBODY: u32 = 0;

/// Lets the leaf come next, if it may: an event's is taken and done, another is done.
fn come(core: &mut Core, leaf: u32)
    ensures { GivesNothingUp core.old core.new }
{
    match core.take(leaf, NOBODY) {
        Ok(call) => {
            let _ = core.done(call.claim, NOBODY);
        }
        Err(_) => {
            let _ = core.perform(leaf, NOBODY);
        }
    }
}

/// Lets the leaves come, one after another, as far as they may.
fn come_all(core: &mut Core, leaves: &[u32])
    ensures { GivesNothingUp core.old core.new }
{
    for leaf in leaves {
        come(core, *leaf);
    }
}

/// Whether the run's journal is just those leaves.
fn has_made(core: &Core, leaves: &[u32]) -> bool
    ensures { IsTrue result → (now core.now).journal ≡ leaves.now }
{
    core.journal() == leaves
}

/// Whether no claim is out.
fn has_none_out(core: &Core) -> bool
    ensures { IsTrue result → current_claims (now core.now) ≡ [] }
{
    match core.least_claim() {
        Some(_) => false,
        None => true,
    }
}

/// Why the leaf at that place of a journal may not come there: the run, which has no entry yet, makes the leaves before it. It is
/// nothing where these may not come either, or where the journal has no such place.
pub fn why_bad(
    alloc: Global,
    core: &mut Core,
    journal: &[u32],
    place: usize,
) -> Result<Option<Bad>, AllocError>
    requires { core.old.history ≡ [] }
    ensures definition { core.new.definition ≡ core.old.definition }
    ensures bad { IfOk result (λ found. IfSome found (λ bad. IsBadAt core.new journal.now place bad.leaf bad.reason bad.instead.items)) }
{
    if journal.len() <= place {
        return Ok(None);
    }
    let front = &journal[..place];
    come_all(core, front);
    if !has_made(core, front) || !has_none_out(core) {
        return Ok(None);
    }
    core.look_ahead();
    let leaf = journal[place];
    let reason = why_leaf(alloc, core, leaf)?;
    let instead = core.enabled(alloc)?;
    Ok(Some(Bad {
        leaf,
        reason,
        instead,
    }))
}
