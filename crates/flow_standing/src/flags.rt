ghost use Rattle.std.specs.Prelude.{◌≡◌, length, map, Some, slice_get, IfOk, ◌<◌};
ghost use Rattle.flow_model.specs.Lists.{◌∈◌};
ghost use Rattle.flow_core.specs.Run.{schema, now};
ghost use Rattle.flow_standing.specs.Standing.{IsDone, IsClaimed, IsBanned, AreFlags, AreKnown};

use crate::claims::{Out, claims_out};
use crate::past::{Past, put};
use flow_core::Core;
use std::alloc::{AllocError, Global};

/// What is known of each leaf.
#[derive(Drop)]
pub(crate) struct Flags {
    pub(crate) done: Vec<bool>,
    pub(crate) claimed: Vec<bool>,
    pub(crate) banned: Vec<bool>,
    /// Whether the last claim on it failed.
    pub(crate) failed: Vec<bool>,
}

impl Flags {
    /// Of the leaves of the run.
    pub(crate) fn of(alloc: Global, core: &Core) -> Result<Flags, AllocError>
        ensures { IfOk result (λ flags. AreKnown core.now flags.done.items flags.claimed.items flags.banned.items flags.failed.items) }
    {
        let done = done_leaves(alloc, core)?;
        let claimed = claimed_leaves(alloc, core)?;
        let Past { bans, failed } = Past::of(alloc, core)?;
        let banned = banned_leaves(alloc, core, &bans)?;
        Ok(Flags {
            done,
            claimed,
            banned,
            failed,
        })
    }
}

/// How many leaves the goal has.
pub(crate) fn leaf_count(core: &Core) -> u32
    ensures { result ≡ length (schema core.now).labels }
{
    core.workflow().tree().leaves()
}

/// Which leaves are done.
fn done_leaves(alloc: Global, core: &Core) -> Result<Vec<bool>, AllocError>
    ensures { IfOk result (λ flags. AreFlags (IsDone core.now) (length (schema core.now).labels) flags.items) }
{
    flags_of(alloc, leaf_count(core), core.journal())
}

/// Which leaves are under a claim that is out.
fn claimed_leaves(alloc: Global, core: &Core) -> Result<Vec<bool>, AllocError>
    ensures { IfOk result (λ flags. AreFlags (IsClaimed core.now) (length (schema core.now).labels) flags.items) }
{
    // the history is legal
    let _ = core.history();
    let outs = claims_out(alloc, core)?;
    let members = leaves_out(alloc, &outs)?;
    flags_of(alloc, leaf_count(core), &members)
}

/// Which leaves are banned.
fn banned_leaves(alloc: Global, core: &Core, bans: &[(usize, u32)]) -> Result<Vec<bool>, AllocError>
    requires { bans.now ≡ (now core.now).bans }
    ensures { IfOk result (λ flags. AreFlags (IsBanned core.now) (length (schema core.now).labels) flags.items) }
{
    let members = leaves_banned(alloc, bans)?;
    flags_of(alloc, leaf_count(core), &members)
}

/// The leaves of the claims.
fn leaves_out(alloc: Global, outs: &[Out]) -> Result<Vec<u32>, AllocError>
    ensures { IfOk result (λ leaves. leaves.items ≡ map (λ out. out.call.leaf) outs.now) }
{
    outs.iter().map(|out| out.call.leaf).collect(alloc)
}

/// The leaves of the bans.
fn leaves_banned(alloc: Global, bans: &[(usize, u32)]) -> Result<Vec<u32>, AllocError>
    ensures { IfOk result (λ leaves. leaves.items ≡ map (λ ban. ban.1) bans.now) }
{
    bans.iter().map(|ban| ban.1).collect(alloc)
}

/// Which leaves, of so many, are members of the list.
fn flags_of(alloc: Global, count: u32, members: &[u32]) -> Result<Vec<bool>, AllocError>
    ensures { IfOk result (λ flags. AreFlags (λ leaf. leaf ∈ members.now) count flags.items) }
{
    let mut flags = vec![in alloc; false; count as usize]?;
    for member in members {
        put(&mut flags, *member, true);
    }
    Ok(flags)
}

/// The flag of the leaf.
pub(crate) fn has(flags: &[bool], leaf: u32) -> bool
    requires { leaf < length flags.now }
    ensures { slice_get flags.now leaf ≡ Some result }
{
    flags[leaf as usize]
}
