ghost use Rattle.std.specs.Prelude.{◌≡◌, ◌<◌, ◌≤◌, ◌↔◌, ◌+◌, ◌*◌, ◌∷◌, [], ℕ, false, None, get_or, IfOk, IfSome, IsTrue, MatchResult, OnOk, length, map, slice_get};
ghost use Rattle.flow_model.specs.Process.{Process};
ghost use Rattle.flow_model.specs.Ways.{Normal};
ghost use Rattle.flow_rules.specs.Conjunction.{normal_in};
ghost use Rattle.flow_rules.specs.EventLeaves.{IsBlank};
ghost use Rattle.flow_excise.specs.declared.refusal.CompileRefusal.TheVariants.{NoMemory};
ghost use Rattle.flow_excise.specs.Block.{HasWays, IsBlock, IsSomeBlock, options_in};
ghost use Rattle.flow_excise.specs.Executions.{numbered_options, numbered_ways};
ghost use Rattle.flow_excise.specs.Options.{ArePrepared, all_options_by, count_in, folded, has_ways, options_by, resolutions_in};
ghost use Rattle.flow_excise.specs.Sieve.{ArePlannable, HasSifted, HasSiftedTo, Sifts, options_with, IsPlannable};
ghost use Rattle.flow_weave.specs.Woven.{option_with};

use crate::block::{Block, blocks};
use crate::folded_choices::FoldedChoices;
use crate::refusal::{CompileRefusal, Dropped};
use crate::sieve::Sieve;
use flow_goal::{Choiceless, Tree};
use flow_rules::{Conjunction, Lanes, LeafEvents, OrderSet, forget_events, note_events};
use flow_sample::{ExciseRefusal, excise};
use flow_weave::weave;
use std::alloc::{AllocError, Global};

/// Looks at one option.
fn sift(
    alloc: Global,
    resolution: &Choiceless,
    order: &OrderSet,
    number: u64,
    way: u64,
    sieve: &mut Sieve,
) -> Result<(), CompileRefusal>
    requires { IsPlannable (option_with resolution.now.process order.now) }
    ensures { MatchResult result
        (λ _. Sifts (record { resolution = number; way = way; option = option_with resolution.now.process order.now } ∷ []) sieve.old sieve.new)
        (λ e. e ≡ NoMemory) }
{
    // what the type keeps of its leaves
    let _leaves = resolution.leaves();
    let _fixed = resolution.fixed();
    let plan = weave(alloc, resolution, order)?;
    match excise(alloc, plan) {
        Ok(plan) => {
            sieve.kept.push(plan)?;
            Ok(())
        }
        Err(ExciseRefusal::Circle(circle)) => {
            let dropped = Dropped {
                resolution: number,
                way,
                circle,
            };
            sieve.dropped.push(dropped)?;
            Ok(())
        }
        Err(ExciseRefusal::NoMemory) => Err(CompileRefusal::NoMemory),
    }
}

/// Looks at each way of a resolution.
fn sift_ways(
    alloc: Global,
    resolution: &Choiceless,
    orders: &[OrderSet],
    number: u64,
    sieve: &mut Sieve,
) -> Result<(), CompileRefusal>
    requires { ArePlannable (options_with resolution.now.process orders.now) }
    ensures { MatchResult result
        (λ _. Sifts (numbered_ways number 0 (options_with resolution.now.process orders.now)) sieve.old sieve.new)
        (λ e. e ≡ NoMemory) }
{
    for (way, order) in orders.iter().enumerate() {
        sift(alloc, resolution, order, number, way as u64, sieve)?;
    }
    Ok(())
}

/// Looks at each option of the resolution in a lane of the block.
fn sift_resolution(
    alloc: Global,
    tree: &Tree,
    choices: &FoldedChoices,
    block: &Block,
    lane: u32,
    events: &mut LeafEvents,
    sieve: &mut Sieve,
) -> Result<(), CompileRefusal>
    requires choices { ArePrepared tree.now choices.now }
    requires numbered { block.now.first + lane < count_in (folded tree.now choices.now) }
    requires lane { lane < 64 }
    requires plannable { (q : Process) → slice_get (resolutions_in (folded tree.now choices.now)) (block.now.first + lane) ≡ Some q →
        ArePlannable (options_in (folded tree.now choices.now) block.now lane q) }
    requires blank { IsBlank events.old }
    ensures options { MatchResult result
        (λ _. (q : Process) → slice_get (resolutions_in (folded tree.now choices.now)) (block.now.first + lane) ≡ Some q →
        Sifts (numbered_ways (block.now.first + lane) 0 (options_in (folded tree.now choices.now) block.now lane q)) sieve.old sieve.new)
        (λ e. e ≡ NoMemory) }
    ensures blank { OnOk result (IsBlank events.new) }
{
    let number = block.first + lane as u64;
    let resolution = choices.prepared.resolve(alloc, tree, number)?;
    let fixed = resolution.fixed();
    note_events(tree, fixed, events)?;
    let orders = block.narrowed.ways(alloc, lane, events)?;
    forget_events(tree, fixed, events);
    sift_ways(alloc, &resolution, &orders, number, sieve)
}

/// Looks at each option of the resolutions of a block, after those of the blocks before it.
fn sift_block(
    alloc: Global,
    tree: &Tree,
    choices: &FoldedChoices,
    met: &[bool],
    block: &Block,
    events: &mut LeafEvents,
    sieve: &mut Sieve,
) -> Result<(), CompileRefusal>
    requires choices { ArePrepared tree.now choices.now }
    requires within { block.now.first + block.now.size ≤ count_in (folded tree.now choices.now) }
    requires few { block.now.size ≤ 64 }
    requires long { length met.now ≡ count_in (folded tree.now choices.now) }
    requires plannable { (lane : ℕ) (q : Process) → lane < block.now.size →
        slice_get (resolutions_in (folded tree.now choices.now)) (block.now.first + lane) ≡ Some q → ArePlannable (options_in (folded tree.now choices.now) block.now lane q) }
    requires blank { IsBlank events.old }
    ensures sifted { MatchResult result
        (λ _. (normal : Normal) → HasWays (folded tree.now choices.now) normal block.now → met.now ≡ map (has_ways (folded tree.now choices.now) normal) (resolutions_in (folded tree.now choices.now)) →
        HasSiftedTo (folded tree.now choices.now) normal block.now.first sieve.old → HasSiftedTo (folded tree.now choices.now) normal (block.now.first + block.now.size) sieve.new)
        (λ e. e ≡ NoMemory) }
    ensures blank { OnOk result (IsBlank events.new) }
{
    for lane in 0..block.size {
        let has_options = met[(block.first + lane as u64) as usize];
        if has_options {
            sift_resolution(alloc, tree, choices, block, lane, events, sieve)?;
        }
    }
    Ok(())
}

/// Whether one of the resolutions in the block of that number has an option.
fn has_option(met: &[bool], number: u64) -> bool
    requires { 64 * number < length met.now }
    ensures { IsTrue result ↔ ((k : ℕ) × (64 * number ≤ k) × (k < 64 * number + 64) × IsTrue (get_or met.now k false)) }
{
    let start = 64 * number as usize;
    let count = (met.len() - start).min(64);
    for k in start..start + count {
        if met[k] {
            return true;
        }
    }
    false
}

/// The block of that number: that which was made, if it is the one, else a new one. What was made is kept no longer.
fn block_of(
    alloc: Global,
    tree: &Tree,
    choices: &FoldedChoices,
    rules: &Conjunction,
    number: u64,
    lanes: &mut Lanes,
    made: &mut Option<Block>,
) -> Result<Block, AllocError>
    requires choices { ArePrepared tree.now choices.now }
    requires numbered { 64 * number < count_in (folded tree.now choices.now) }
    requires made { IfSome made.old (IsSomeBlock (folded tree.now choices.now) (normal_in rules.now)) }
    ensures block { IfOk result (IsBlock (folded tree.now choices.now) (normal_in rules.now) number) }
    ensures made { made.new ≡ None }
{
    if let Some(block) = made.take() {
        if block.first == 64 * number {
            return Ok(block);
        }
    }
    Block::new(alloc, tree, choices, rules, number, lanes)
}

/// Looks at each option, by resolutions in order and then by ways in order. The list says which
/// resolutions have options. A block with none of them is not made, nor is one that was made before.
pub(crate) fn sift_all(
    alloc: Global,
    tree: &Tree,
    choices: &FoldedChoices,
    rules: &Conjunction,
    met: &[bool],
    mut made: Option<Block>,
) -> Result<Sieve, CompileRefusal>
    requires choices { ArePrepared tree.now choices.now }
    requires made { IfSome made (IsSomeBlock (folded tree.now choices.now) (normal_in rules.now)) }
    requires plannable { ArePlannable (all_options_by (folded tree.now choices.now) (normal_in rules.now)) }
    requires met { met.now ≡ map (has_ways (folded tree.now choices.now) (normal_in rules.now)) (resolutions_in (folded tree.now choices.now)) }
    ensures { MatchResult result
        (HasSifted (numbered_options 0 (map (options_by (folded tree.now choices.now) (normal_in rules.now)) (resolutions_in (folded tree.now choices.now)))))
        (λ e. e ≡ NoMemory) }
{
    let mut sieve = Sieve {
        kept: Vec::new(alloc),
        dropped: Vec::new(alloc),
    };
    let mut lanes = Lanes::new(alloc);
    let mut events = LeafEvents::new(alloc);
    for number in 0..blocks(choices.count) {
        if has_option(met, number) {
            let block = block_of(alloc, tree, choices, rules, number, &mut lanes, &mut made)?;
            sift_block(alloc, tree, choices, met, &block, &mut events, &mut sieve)?;
        }
    }
    Ok(sieve)
}
