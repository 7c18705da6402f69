ghost use Rattle.std.specs.Prelude.{◌≡◌, ◌<◌, ◌≤◌, ◌*◌, ◌+◌, ◌-◌, ◌/◌, min, IfOk, length};
ghost use Rattle.flow_model.specs.declared.limits.TheConstants.{MOST_RESOLUTIONS};
ghost use Rattle.flow_rules.specs.Conjunction.{normal_in};
ghost use Rattle.flow_excise.specs.Block.{AreLeafCounts, AreShown, IsBlock};
ghost use Rattle.flow_excise.specs.Options.{ArePrepared, count_in, folded};

use crate::folded_choices::FoldedChoices;
use flow_goal::Tree;
use flow_rules::{Conjunction, Lanes, Narrowed};
use std::alloc::{AllocError, Global};

/// Resolutions side by side, one a lane, with what the rules ask of each of them.
#[derive(Drop)]
pub(crate) struct Block {
    /// The number of the first one.
    pub(crate) first: u64,
    /// How many they are.
    pub(crate) size: u32,
    /// How many leaves each of them has.
    pub(crate) leaves: Vec<usize>,
    pub(crate) narrowed: Narrowed,
}

/// How many of so many resolutions the block of that number has. Each but the last one has 64.
fn size_of(count: u64, number: u64) -> u32
    requires numbered { 64 * number < count }
    requires few { count ≤ MOST_RESOLUTIONS }
    ensures { result ≡ min 64 (count - 64 * number) }
{
    let left = count - 64 * number;
    left.min(64) as u32
}

/// How many leaves so many resolutions from a number on have. Those outside choices are noted in a lane of its own for each.
fn block_leaves(
    alloc: Global,
    tree: &Tree,
    choices: &FoldedChoices,
    first: u64,
    size: u32,
    lanes: &mut Lanes,
) -> Result<Vec<usize>, AllocError>
    requires choices { ArePrepared tree.now choices.now }
    requires within { first + size ≤ count_in (folded tree.now choices.now) }
    requires few { size ≤ 64 }
    ensures leaves { IfOk result (λ leaves. AreLeafCounts (folded tree.now choices.now) first leaves.items) }
    ensures size { IfOk result (λ leaves. length leaves.items ≡ size) }
    ensures shown { IfOk result (λ _. AreShown (folded tree.now choices.now) first size lanes.new) }
{
    lanes.clear();
    let mut leaves = Vec::new(alloc);
    for lane in 0..size {
        let held = choices.prepared.held(alloc, tree, first + lane as u64)?;
        lanes.note(tree, &held.fixed, lane)?;
        leaves.push(held.leaves)?;
    }
    Ok(leaves)
}

impl Block {
    /// The block of that number. The lanes show its resolutions; what they held before is gone.
    pub(crate) fn new(
        alloc: Global,
        tree: &Tree,
        choices: &FoldedChoices,
        rules: &Conjunction,
        number: u64,
        lanes: &mut Lanes,
    ) -> Result<Block, AllocError>
        requires choices { ArePrepared tree.now choices.now }
        requires numbered { 64 * number < count_in (folded tree.now choices.now) }
        ensures block { IfOk result (IsBlock (folded tree.now choices.now) (normal_in rules.now) number) }
        ensures shown { IfOk result (λ block. AreShown (folded tree.now choices.now) block.first block.size lanes.new) }
    {
        let first = 64 * number;
        let size = size_of(choices.count, number);
        let leaves = block_leaves(alloc, tree, choices, first, size, lanes)?;
        let narrowed = rules.narrowed(alloc, lanes)?;
        Ok(Block {
            first,
            size,
            leaves,
            narrowed,
        })
    }
}

/// How many blocks so many resolutions make.
pub(crate) fn blocks(count: u64) -> u64
    requires { count ≤ MOST_RESOLUTIONS }
    ensures { result ≡ (count + 63) / 64 }
{
    (count + 63) / 64
}
