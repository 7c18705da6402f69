ghost use Rattle.std.specs.Prelude.{◌≡◌, ◌<◌, ◌≤◌, ◌+◌, ◌==◌, ◌++◌, ◌∷◌, [], not, IfOk, IfSome, OnOk, length, map};
ghost use Rattle.flow_model.specs.Ways.{Normal};
ghost use Rattle.flow_rules.specs.Conjunction.{normal_in};
ghost use Rattle.flow_excise.specs.Block.{AreLeafCounts, AreShown, HasWays, IsSomeBlock};
ghost use Rattle.flow_excise.specs.Options.{ArePrepared, FoldedTree, all_options_by, folded, has_ways, resolutions_in};
ghost use Rattle.flow_excise.specs.Tally.{IsCountedTo, added, tally_by, tally_of};

use crate::block::{Block, blocks};
use crate::folded_choices::FoldedChoices;
use flow_goal::Tree;
use flow_rules::{Conjunction, Lanes, WayCount};
use std::alloc::{AllocError, Global};

/// How many options there are, and how many leaves and pairs in all of them. What would pass the
/// greatest number is kept at it.
#[derive(Clone, Copy)]
pub(crate) struct Tally {
    pub(crate) options: u64,
    pub(crate) bulk: u64,
}

/// No option.
const NONE: Tally = Tally {
    options: 0,
    bulk: 0,
};

impl Tally {
    /// The tally of a resolution with so many leaves.
    fn of(leaves: u64, count: WayCount) -> Tally
        ensures { result ≡ tally_by leaves count }
    {
        let held = count.ways.saturating_mul(leaves);
        Tally {
            options: count.ways,
            bulk: held.saturating_add(count.pairs),
        }
    }

    /// The two as one.
    fn with(self, more: Tally) -> Tally
        ensures { result ≡ added self more }
    {
        Tally {
            options: self.options.saturating_add(more.options),
            bulk: self.bulk.saturating_add(more.bulk),
        }
    }
}

/// What was counted of resolutions.
#[derive(Drop)]
pub(crate) struct Counted {
    pub(crate) tally: Tally,
    /// Of each resolution, whether it has an option.
    pub(crate) met: Vec<bool>,
}

impl Counted {
    /// One resolution more, with so many leaves.
    fn add(&mut self, leaves: u64, count: WayCount) -> Result<(), AllocError>
        ensures tally { OnOk result (self.new.tally ≡ added self.old.tally (tally_by leaves count)) }
        ensures met { OnOk result (self.new.met.items ≡ self.old.met.items ++ not (count.ways == 0) ∷ []) }
    {
        self.met.push(count.ways != 0)?;
        self.tally = self.tally.with(Tally::of(leaves, count));
        Ok(())
    }
}

/// What was counted of all resolutions, and the block that was made last for it.
#[derive(Drop)]
pub(crate) struct WholeTally {
    pub(crate) tally: Tally,
    /// Of each resolution, whether it has an option.
    pub(crate) met: Vec<bool>,
    /// Where there is one block alone, it needs no second making.
    pub(crate) last: Option<Block>,
}

/// Counts the resolutions of a block behind those before it.
fn tally_block(block: &Block, lanes: &Lanes, counted: &mut Counted) -> Result<(), AllocError>
    requires size { length block.now.leaves.items ≡ block.now.size }
    requires few { block.now.size ≤ 64 }
    ensures { OnOk result ((t : FoldedTree) (normal : Normal) → AreLeafCounts t block.now.first block.now.leaves.items →
        AreShown t block.now.first block.now.size lanes.now → HasWays t normal block.now → IsCountedTo t normal block.now.first counted.old →
        IsCountedTo t normal (block.now.first + block.now.size) counted.new) }
{
    for lane in 0..block.size {
        let count = block.narrowed.count(lane, lanes);
        counted.add(block.leaves[lane as usize] as u64, count)?;
    }
    Ok(())
}

/// What is counted of all resolutions, block by block.
pub(crate) fn whole_tally(
    alloc: Global,
    tree: &Tree,
    choices: &FoldedChoices,
    rules: &Conjunction,
) -> Result<WholeTally, AllocError>
    requires choices { ArePrepared tree.now choices.now }
    ensures tally { IfOk result (λ counted. counted.tally ≡ tally_of (all_options_by (folded tree.now choices.now) (normal_in rules.now))) }
    ensures met { IfOk result (λ counted. counted.met.items ≡ map (has_ways (folded tree.now choices.now) (normal_in rules.now)) (resolutions_in (folded tree.now choices.now))) }
    ensures last { IfOk result (λ counted. IfSome counted.last (IsSomeBlock (folded tree.now choices.now) (normal_in rules.now))) }
{
    let mut counted = Counted {
        tally: NONE,
        met: Vec::new(alloc),
    };
    let mut last = None;
    let mut lanes = Lanes::new(alloc);
    for number in 0..blocks(choices.count) {
        let block = Block::new(alloc, tree, choices, rules, number, &mut lanes)?;
        tally_block(&block, &lanes, &mut counted)?;
        last = Some(block);
    }
    Ok(WholeTally {
        tally: counted.tally,
        met: counted.met,
        last,
    })
}
