//! Isolated parts that are begun.
ghost use Rattle.std.specs.Prelude.{◌≡◌, false, IfOk, slice_index_or};
ghost use Rattle.flow_model.specs.Lists.{Each};
ghost use Rattle.flow_goal.specs.Goal.{process_of};
ghost use Rattle.flow_reason.specs.Isolated as isolated;
ghost use Rattle.flow_reason.specs.Isolated.{IsLeftOfPart};

use crate::facts::leaves;
use crate::sides::{done_flags, first_done, has_leaf, is_flagged, other_side};
use flow_core::Core;
use flow_goal::Goal;
use std::alloc::{AllocError, Global};

/// Whether the part is begun and does not have the leaf, and the other leaf is left of it.
fn is_left_here(part: &Goal, leaf: u32, other: u32, done: &[bool]) -> bool
    ensures { result ≡ isolated.is_left_here (λ n. slice_index_or done.now n false) leaf other (process_of part.now) }
{
    !has_leaf(part, leaf)
        && (has_leaf(part, other)
            && (first_done(part, done).is_some()
                && (!is_flagged(done, other) && other_side(part, other, done).is_none())))
}

/// Whether the other leaf is left of an isolated part of the goal that is begun and does not have the leaf.
fn is_left(goal: &Goal, leaf: u32, other: u32, done: &[bool]) -> bool
    ensures { result ≡ isolated.is_left (λ n. slice_index_or done.now n false) leaf other (process_of goal.now) }
{
    match goal {
        Goal::Nop | Goal::Leaf(_) => false,
        Goal::Serial(one, two) | Goal::Beside(one, two) | Goal::Either(one, two) => {
            is_left(one, leaf, other, done) || is_left(two, leaf, other, done)
        }
        Goal::Iso(part) => {
            is_left(part, leaf, other, done) || is_left_here(part, leaf, other, done)
        }
    }
}

/// The leaves that are left of isolated parts which are begun and do not have the leaf.
pub(crate) fn open_leaves(alloc: Global, core: &Core, leaf: u32) -> Result<Vec<u32>, AllocError>
    ensures { IfOk result (λ others. Each (IsLeftOfPart core.now leaf) others.items) }
{
    let done = done_flags(alloc, core)?;
    let mut others = Vec::new(alloc);
    for other in 0..leaves(core) {
        if is_left(core.workflow().tree().goal(), leaf, other, &done) {
            others.push(other)?;
        }
    }
    Ok(others)
}
