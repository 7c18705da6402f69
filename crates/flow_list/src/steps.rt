//! The tests and updates of a case: those that may be done, and those for which it waits.
ghost use Rattle.std.specs.Prelude.{◌≡◌, ◌↔◌, IsTrue, IfOk, map};
ghost use Rattle.flow_model.specs.Verdict.{AreJust};
ghost use Rattle.flow_core.specs.Next.{IsWaiting};
ghost use Rattle.flow_list.specs.Steps.{leaf_of, IsFreeStep, AreStepsOf};

use flow_core::Core;
use flow_record::print_label;
use std::alloc::{AllocError, Global};

/// A leaf, with its label.
#[derive(Drop)]
pub struct LeafName {
    pub leaf: u32,
    pub name: Vec<u8>,
}

/// The tests and updates of a case.
#[derive(Drop)]
pub struct Steps {
    /// Those that may be done now, by anybody.
    pub free: Vec<LeafName>,
    /// Those that are false now, where nothing else is left.
    pub waiting: Vec<LeafName>,
}

/// The leaf with its label.
fn named(alloc: Global, core: &Core, leaf: u32) -> Result<LeafName, AllocError>
    ensures { IfOk result (λ named. leaf_of named ≡ leaf) }
{
    let name = print_label(alloc, core.workflow(), leaf)?;
    Ok(LeafName { leaf, name })
}

/// The leaves with their labels.
#[tactic(auto, using(crate::proofs::ListSteps::mapped_none, crate::proofs::ListSteps::mapped_more, crate::proofs::ListSteps::mapped_all, crate::proofs::ListSteps::mapped_itself, crate::proofs::ListSteps::each_more, crate::proofs::ListSteps::each_at))]
fn all_named(alloc: Global, core: &Core, leaves: &[u32]) -> Result<Vec<LeafName>, AllocError>
    ensures { IfOk result (λ all. map leaf_of all.items ≡ leaves.now) }
{
    let mut all = Vec::new(alloc);
    for leaf in leaves {
        all.push(named(alloc, core, *leaf)?)?;
    }
    Ok(all)
}

/// The leaves that are no task's and may be done now, rising.
fn free_steps(alloc: Global, core: &Core) -> Result<Vec<u32>, AllocError>
    ensures { IfOk result (λ leaves. AreJust (IsFreeStep core.now) leaves.items) }
{
    let mut leaves = Vec::new(alloc);
    for leaf in 0..core.workflow().tree().leaves() {
        if is_free_step(core, leaf) {
            leaves.push(leaf)?;
        }
    }
    Ok(leaves)
}

/// Whether the leaf is no task's and may be done now.
fn is_free_step(core: &Core, leaf: u32) -> bool
    ensures { IsTrue result ↔ IsFreeStep core.now leaf }
{
    core.can_act(leaf) && core.workflow().tree().event(leaf).is_none()
}

/// The steps that may be done, by their labels.
fn free_named(alloc: Global, core: &Core) -> Result<Vec<LeafName>, AllocError>
    ensures { IfOk result (λ free. AreJust (IsFreeStep core.now) (map leaf_of free.items)) }
{
    let leaves = free_steps(alloc, core)?;
    all_named(alloc, core, &leaves)
}

/// The steps for which the case waits, by their labels.
fn waiting_named(alloc: Global, core: &Core) -> Result<Vec<LeafName>, AllocError>
    ensures { IfOk result (λ waiting. AreJust (IsWaiting core.now) (map leaf_of waiting.items)) }
{
    let leaves = core.waiting(alloc)?;
    all_named(alloc, core, &leaves)
}

/// The tests and updates of a case.
pub(crate) fn steps_of(alloc: Global, core: &Core) -> Result<Steps, AllocError>
    ensures { IfOk result (AreStepsOf core.now) }
{
    let free = free_named(alloc, core)?;
    let waiting = waiting_named(alloc, core)?;
    Ok(Steps { free, waiting })
}
