//! The users to whom duties leave an event now. They are numbered from 1.
ghost use Rattle.std.specs.Prelude.{◌≡◌, ◌↔◌, ℕ, IsTrue, IfOk};
ghost use Rattle.flow_model.specs.Verdict.{AreJust};
ghost use Rattle.flow_staff.specs.Desk.{desk_of};
ghost use Rattle.flow_case_state.specs.Takers.{IsTaker, IsTakerAt, IsForNone};

use flow_core::Core;
use flow_policy::Policy;
use flow_staff::may_take;
use std::alloc::{AllocError, Global};

/// The users, of so many, to whom duties leave the leaf's task now, rising. Whether the run lets it be taken is another question.
#[tactic(auto, using(crate::proofs::TakerLoops::takers_at, crate::proofs::TakerLoops::no_takers))]
pub fn takers_of(
    alloc: Global,
    core: &Core,
    policy: &Policy,
    users: u32,
    leaf: u32,
) -> Result<Vec<u32>, AllocError>
    ensures { IfOk result (λ found. AreJust (IsTakerAt (desk_of core.now policy.now) users leaf) found.items) }
{
    match core.workflow().tree().event(leaf) {
        Some(event) => takers_of_event(alloc, core, policy, users, event),
        None => Ok(Vec::new(alloc)),
    }
}

/// The users, of so many, to whom duties leave the event now, rising.
fn takers_of_event(
    alloc: Global,
    core: &Core,
    policy: &Policy,
    users: u32,
    event: u32,
) -> Result<Vec<u32>, AllocError>
    ensures { IfOk result (λ found. AreJust (IsTaker (desk_of core.now policy.now) users event) found.items) }
{
    let mut found = Vec::new(alloc);
    for place in 0..users {
        let user = place + 1;
        if may_take(core, policy, event, user) {
            found.push(user)?;
        }
    }
    Ok(found)
}

/// Whether duties leave the event to none of so many users.
fn is_left_to_none(core: &Core, policy: &Policy, users: u32, event: u32) -> bool
    ensures { IsTrue result ↔ ((user : ℕ) → ¬ (IsTaker (desk_of core.now policy.now) users event user)) }
{
    for place in 0..users {
        if may_take(core, policy, event, place + 1) {
            return false;
        }
    }
    true
}

/// Whether the leaf is that of a task, and duties leave it to none of so many users.
pub fn is_for_none(core: &Core, policy: &Policy, users: u32, leaf: u32) -> bool
    ensures { IsTrue result ↔ IsForNone (desk_of core.now policy.now) users leaf }
{
    match core.workflow().tree().event(leaf) {
        Some(event) => is_left_to_none(core, policy, users, event),
        None => false,
    }
}
