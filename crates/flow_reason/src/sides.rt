//! What the goal alone tells of a leaf.
ghost use Rattle.std.specs.Prelude.{◌≡◌, ◌↔◌, ◌<◌, ◌==◌, ◌++◌, ℕ, true, false, IsTrue, IfOk, IfSome, OnOk, length, slice_set, slice_index_or};
ghost use Rattle.flow_model.specs.Lists.{◌∈◌, Each};
ghost use Rattle.flow_core.specs.Run.{schema, now};
ghost use Rattle.flow_goal.specs.Goal.{process_of};
ghost use Rattle.flow_reason.specs.Sides as sides;
ghost use Rattle.flow_reason.specs.Waiting.{AreFlags, IsBefore, IsOtherSide};

use crate::facts::leaves;
use flow_core::Core;
use flow_goal::Goal;
use std::alloc::{AllocError, Global};

/// Sets the flag of the leaf, if it has one.
fn set_flag(flags: &mut [bool], leaf: u32)
    ensures { flags.new ≡ slice_set flags.old leaf true }
{
    let place = leaf as usize;
    if place < flags.len() {
        flags[place] = true;
    }
}

/// Sets the flag of the leaf, if it has one.
fn flag(flags: &mut Vec<bool>, leaf: u32)
    ensures { flags.new.items ≡ slice_set flags.old.items leaf true }
{
    set_flag(flags, leaf);
}

/// Of each leaf, whether it is done.
pub(crate) fn done_flags(alloc: Global, core: &Core) -> Result<Vec<bool>, AllocError>
    ensures { IfOk result (λ flags. AreFlags core.now flags.items) }
{
    let mut flags = vec![in alloc; false; leaves(core) as usize]?;
    for leaf in core.journal() {
        flag(&mut flags, *leaf);
    }
    Ok(flags)
}

/// The flag of the leaf.
pub(crate) fn is_flagged(flags: &[bool], leaf: u32) -> bool
    ensures { result ≡ slice_index_or flags.now leaf false }
{
    match flags.get(leaf as usize) {
        Some(flag) => *flag,
        None => false,
    }
}

/// Whether the goal has the leaf.
pub(crate) fn has_leaf(goal: &Goal, leaf: u32) -> bool
    ensures { result ≡ sides.has (λ n. n == leaf) (process_of goal.now) }
{
    match goal {
        Goal::Nop => false,
        Goal::Leaf(n) => *n == leaf,
        Goal::Serial(left, right) | Goal::Beside(left, right) | Goal::Either(left, right) => {
            has_leaf(left, leaf) || has_leaf(right, leaf)
        }
        Goal::Iso(part) => has_leaf(part, leaf),
    }
}

/// The first leaf of the goal that is done.
pub(crate) fn first_done(goal: &Goal, done: &[bool]) -> Option<u32>
    ensures { result ≡ sides.first (λ n. slice_index_or done.now n false) (process_of goal.now) }
{
    match goal {
        Goal::Nop => None,
        Goal::Leaf(n) => { if is_flagged(done, *n) { Some(*n) } else { None } }
        Goal::Serial(left, right) | Goal::Beside(left, right) | Goal::Either(left, right) => {
            match first_done(left, done) {
                Some(leaf) => Some(leaf),
                None => first_done(right, done),
            }
        }
        Goal::Iso(part) => first_done(part, done),
    }
}

/// Adds the leaves that are not done and that each trace of the goal has which has the done ones.
fn push_certain(left: &mut Vec<u32>, goal: &Goal, done: &[bool]) -> Result<(), AllocError>
    ensures { OnOk result (left.new.items ≡ left.old.items ++ sides.certain (λ n. slice_index_or done.now n false) (process_of goal.now)) }
{
    match goal {
        Goal::Nop => Ok(()),
        Goal::Leaf(n) => {
            if !is_flagged(done, *n) {
                left.push(*n)?;
            }
            Ok(())
        }
        Goal::Serial(first, second) | Goal::Beside(first, second) => {
            push_certain(left, first, done)?;
            push_certain(left, second, done)
        }
        Goal::Either(one, other) => {
            if first_done(one, done).is_some() {
                push_certain(left, one, done)
            } else if first_done(other, done).is_some() {
                push_certain(left, other, done)
            } else {
                Ok(())
            }
        }
        Goal::Iso(part) => push_certain(left, part, done),
    }
}

/// Adds the leaves that are not done and that stand before the leaf in each trace of the goal that has it and the done ones.
fn push_before(left: &mut Vec<u32>, goal: &Goal, leaf: u32, done: &[bool]) -> Result<(), AllocError>
    ensures { OnOk result (left.new.items ≡ left.old.items ++ sides.before (λ n. slice_index_or done.now n false) leaf (process_of goal.now)) }
{
    match goal {
        Goal::Nop | Goal::Leaf(_) => Ok(()),
        Goal::Serial(first, second) => {
            if has_leaf(second, leaf) {
                push_certain(left, first, done)?;
                push_before(left, second, leaf, done)
            } else {
                push_before(left, first, leaf, done)
            }
        }
        Goal::Beside(one, other) | Goal::Either(one, other) => {
            push_before(left, one, leaf, done)?;
            push_before(left, other, leaf, done)
        }
        Goal::Iso(part) => push_before(left, part, leaf, done),
    }
}

/// A leaf that is done, on the other side of a choice above both.
pub(crate) fn other_side(goal: &Goal, leaf: u32, done: &[bool]) -> Option<u32>
    ensures { result ≡ sides.other_side (λ n. slice_index_or done.now n false) leaf (process_of goal.now) }
{
    match goal {
        Goal::Nop | Goal::Leaf(_) => None,
        Goal::Serial(one, other) | Goal::Beside(one, other) => {
            match other_side(one, leaf, done) {
                Some(chose) => Some(chose),
                None => other_side(other, leaf, done),
            }
        }
        Goal::Either(one, other) => {
            if has_leaf(one, leaf) {
                match first_done(other, done) {
                    Some(chose) => Some(chose),
                    None => other_side(one, leaf, done),
                }
            } else if has_leaf(other, leaf) {
                match first_done(one, done) {
                    Some(chose) => Some(chose),
                    None => other_side(other, leaf, done),
                }
            } else {
                None
            }
        }
        Goal::Iso(part) => other_side(part, leaf, done),
    }
}

/// A leaf on the journal that no trace of the goal has together with the leaf, since it is on the other side of a choice.
pub(crate) fn chosen_against(
    alloc: Global,
    core: &Core,
    leaf: u32,
) -> Result<Option<u32>, AllocError>
    ensures { IfOk result (λ found. IfSome found (IsOtherSide core.now leaf)) }
{
    // what the goal keeps of its leaves
    let _ = leaves(core);
    let done = done_flags(alloc, core)?;
    Ok(other_side(core.workflow().tree().goal(), leaf, &done))
}

/// Leaves that are not done, and stand before the leaf in each trace of the goal that begins with the journal and has it.
pub fn leaves_before(alloc: Global, core: &Core, leaf: u32) -> Result<Vec<u32>, AllocError>
    ensures { IfOk result (λ leaves. Each (IsBefore core.now leaf) leaves.items) }
{
    // what the goal keeps of its leaves
    let _ = leaves(core);
    let done = done_flags(alloc, core)?;
    let mut left = Vec::new(alloc);
    push_before(&mut left, core.workflow().tree().goal(), leaf, &done)?;
    Ok(left)
}
