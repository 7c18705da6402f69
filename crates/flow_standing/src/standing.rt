ghost use Rattle.std.specs.Prelude.{◌<◌, length, IfOk};
ghost use Rattle.flow_core.specs.Run.{schema};
ghost use Rattle.flow_standing.specs.Standing.{IsStanding, AreStandings, AreKnown};

use crate::flags::{Flags, has, leaf_count};
use flow_core::Core;
use std::alloc::{AllocError, Global};

/// Where a run stands at a leaf: the first that applies.
#[derive(Clone, Copy, Debug, PartialEq, Eq)]
pub enum Standing {
    /// It counts.
    Done,
    /// A claim on it is out.
    Claimed,
    /// It can be taken or done now.
    Next,
    /// It is given up until a step back lifts that.
    Banned,
    /// The last claim on it failed.
    Failed,
    Plain,
}

/// Where the run stands at each leaf. For a large workflow, let the run look ahead before.
pub fn standings(alloc: Global, core: &Core) -> Result<Vec<Standing>, AllocError>
    ensures { IfOk result (λ standings. AreStandings core.now standings.items) }
{
    let flags = Flags::of(alloc, core)?;
    let mut standings = Vec::new(alloc);
    for leaf in 0..leaf_count(core) {
        standings.push(flags.standing(core, leaf))?;
    }
    Ok(standings)
}

impl Flags {
    /// Where the run stands at the leaf.
    fn standing(&self, core: &Core, leaf: u32) -> Standing
        requires known { AreKnown core.now self.now.done.items self.now.claimed.items self.now.banned.items self.now.failed.items }
        requires leaf { leaf < length (schema core.now).labels }
        ensures { IsStanding core.now leaf result }
    {
        if has(&self.done, leaf) {
            Standing::Done
        } else if has(&self.claimed, leaf) {
            Standing::Claimed
        } else if core.can_act(leaf) {
            Standing::Next
        } else if has(&self.banned, leaf) {
            Standing::Banned
        } else if has(&self.failed, leaf) {
            Standing::Failed
        } else {
            Standing::Plain
        }
    }
}
