ghost use Rattle.std.specs.Prelude.{◌≡◌, ◌<◌, ◌↔◌, ℕ, true, false, not, IsTrue, IfOk, Some, length, slice_get};
ghost use Rattle.flow_model.specs.Lists.{◌∈◌};
ghost use Rattle.flow_model.specs.Process.{IsNumbered};
ghost use Rattle.flow_model.specs.Verdict.{AreJust};
ghost use Rattle.flow_core.specs.Run.{schema, now};
ghost use Rattle.flow_reason.specs.Facts.{changes, IsLeftTo};

use flow_core::Core;
use flow_model::Label;
use std::alloc::{AllocError, Global};

/// Whether the label makes the fact hold, or, where that is not wanted, makes it not hold.
fn changes(label: Label, fact: u32, wanted: bool) -> bool
    ensures { result ≡ changes label fact wanted }
{
    match label {
        Label::Ins(other) => wanted && other == fact,
        Label::Del(other) => !wanted && other == fact,
        Label::Event(_) | Label::Test(_) | Label::Absent(_) => false,
    }
}

/// Whether the leaf is done.
fn is_done(core: &Core, leaf: u32) -> bool
    ensures { IsTrue result ↔ (leaf ∈ (now core.now).journal) }
{
    core.journal().contains(&leaf)
}

/// How many leaves the goal has.
pub(crate) fn leaves(core: &Core) -> u32
    ensures count { result ≡ length (schema core.now).labels }
    ensures numbered { IsNumbered (schema core.now).goal result }
{
    core.workflow().tree().leaves()
}

/// The label of the leaf, if the goal has such a leaf.
pub(crate) fn label_at(core: &Core, leaf: u32) -> Option<Label>
    ensures { result ≡ slice_get (schema core.now).labels leaf }
{
    core.workflow().tree().label(leaf)
}

/// Whether the leaf would make the fact as it is wanted, and is not done.
fn is_left_to(core: &Core, fact: u32, wanted: bool, leaf: u32) -> bool
    ensures { IsTrue result ↔ IsLeftTo core.now fact wanted leaf }
{
    match label_at(core, leaf) {
        Some(label) => changes(label, fact, wanted) && !is_done(core, leaf),
        None => false,
    }
}

/// The leaves that would make the fact as it is wanted, and are not done, rising.
pub(crate) fn left_to(
    alloc: Global,
    core: &Core,
    fact: u32,
    wanted: bool,
) -> Result<Vec<u32>, AllocError>
    ensures { IfOk result (λ leaves. AreJust (IsLeftTo core.now fact wanted) leaves.items) }
{
    let mut left = Vec::new(alloc);
    for leaf in 0..leaves(core) {
        if is_left_to(core, fact, wanted, leaf) {
            left.push(leaf)?;
        }
    }
    Ok(left)
}
