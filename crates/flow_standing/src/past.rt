ghost use Rattle.std.specs.Prelude.{◌≡◌, [], false, nat_le, replicate, slice_set, IfOk, OnOk};
ghost use Rattle.std.specs.List.{filter};
ghost use Rattle.flow_core.specs.Run.{schema};
ghost use Rattle.flow_standing.specs.Past.{IsPast};
ghost use Rattle.flow_standing.specs.Following.{leaf_numbered, leaf_at, next_bans, next_flags};

use crate::flags::leaf_count;
use crate::trail::{Doing, claim_leaves, follow, leaf_numbered};
use flow_core::Core;
use flow_model::{FailEffect, Step};
use std::alloc::{AllocError, Global};

/// What a history leaves beside what a core tells of it.
#[derive(Drop)]
pub(crate) struct Past {
    /// How long the journal was at each ban, and the leaf that is banned.
    pub(crate) bans: Vec<(usize, u32)>,
    /// Of each leaf, whether the last claim on it failed.
    pub(crate) failed: Vec<bool>,
}

impl Past {
    /// What the history of the run leaves.
    pub(crate) fn of(alloc: Global, core: &Core) -> Result<Past, AllocError>
        ensures { IfOk result (λ past. IsPast (schema core.now) core.now.history past.bans.items past.failed.items) }
    {
        let history = core.history();
        let leaves = claim_leaves(alloc, history)?;
        let mut trail = Vec::new(alloc);
        let mut past = Past::new(alloc, leaf_count(core))?;
        for (place, entry) in history.iter().enumerate() {
            past.note(&trail, &leaves, entry.step)?;
            follow(&mut trail, &leaves, place, *entry)?;
        }
        Ok(past)
    }

    /// What no entry leaves, for so many leaves.
    fn new(alloc: Global, leaves: u32) -> Result<Past, AllocError>
        ensures bans { IfOk result (λ past. past.bans.items ≡ []) }
        ensures failed { IfOk result (λ past. past.failed.items ≡ replicate leaves false) }
    {
        Ok(Past {
            bans: Vec::new(alloc),
            failed: vec![in alloc; false; leaves as usize]?,
        })
    }

    /// Notes what the step leaves, by what stands on the journal before it.
    fn note(&mut self, trail: &[Doing], leaves: &[u32], step: Step) -> Result<(), AllocError>
        ensures bans { OnOk result (self.new.bans.items ≡ next_bans (leaf_numbered leaves.now) trail.now self.old.bans.items step) }
        ensures failed { OnOk result (self.new.failed.items ≡ next_flags (leaf_numbered leaves.now) self.old.failed.items step) }
    {
        match step {
            Step::Took { leaf, .. } => put(&mut self.failed, leaf, false),
            Step::Failed { claim, effect } => {
                let leaf = leaf_numbered(leaves, claim);
                put(&mut self.failed, leaf, true);
                match effect {
                    FailEffect::Switched => self.bans.push((trail.len(), leaf))?,
                    FailEffect::Kept => {}
                }
            }
            Step::Rewound { index } => {
                let place = index as usize;
                lift(&mut self.bans, place);
                self.bans.push((place, leaf_at(trail, place)))?;
            }
            Step::Done { .. } | Step::Late { .. } | Step::Did { .. } | Step::Committed => {}
        }
        Ok(())
    }
}

/// Puts a flag at the place of the leaf, if there is one.
pub(crate) fn put(flags: &mut [bool], leaf: u32, flag: bool)
    ensures { flags.new ≡ slice_set flags.old leaf flag }
{
    let place = leaf as usize;
    if place < flags.len() {
        flags[place] = flag;
    }
}

/// Lifts each ban that was laid where the journal was longer.
fn lift(bans: &mut Vec<(usize, u32)>, index: usize)
    ensures { bans.new.items ≡ filter (λ ban. nat_le ban.0 index) bans.old.items }
{
    bans.retain(|ban| ban.0 <= index);
}

/// The leaf at an index of the journal; 0 where it is shorter.
fn leaf_at(trail: &[Doing], index: usize) -> u32
    ensures { result ≡ leaf_at trail.now index }
{
    match trail.get(index) {
        Some(doing) => doing.leaf,
        None => 0,
    }
}
