ghost use Rattle.std.specs.Prelude.{◌≡◌, ◌↔◌, [], IsTrue, IfOk, IfSome};
ghost use Rattle.flow_model.specs.Run.{CanDoAside};
ghost use Rattle.flow_core.specs.Run.{schema, now};
ghost use Rattle.flow_reason.specs.Reasons.{IsBlocked, IsIdle, IsHeld, IsKept, IsReason};
ghost use Rattle.flow_residual.specs.Remaining.{IsOf};
ghost use Rattle.flow_reason.specs.InTheWay.{unbanned};
ghost use Rattle.flow_reason.specs.Isolated.{IsLeftOfPart};
ghost use Rattle.flow_reason.specs.Waiting.{IsBefore, IsNotNext, WaitsByGoal};
ghost use Rattle.flow_model.specs.Lists.{Each};

use crate::claimed::{Out, claim_out_on};
use crate::done_by::entry_that_did;
use crate::facts::{label_at, leaves, left_to};
use crate::given_up::is_given_up;
use crate::in_the_way::{is_event, least_in_the_way, may_come_with, ungiven};
use crate::isolated::open_leaves;
use crate::reason::Reason;
use crate::sides::{chosen_against, leaves_before};
use flow_core::Core;
use flow_model::Label;
use flow_residual::Residual;
use flow_standing::claims_out;
use flow_why::{Conflict, why_not};
use std::alloc::{AllocError, Global};

/// Why the leaf is not taken or done now: the first reason that holds.
pub fn why_leaf(alloc: Global, core: &Core, leaf: u32) -> Result<Reason, AllocError>
    ensures { IfOk result (IsReason core.now leaf) }
{
    if leaves(core) <= leaf {
        return Ok(Reason::NoLeaf);
    }
    if core.committed() {
        return Ok(Reason::Over);
    }
    if core.can_act(leaf) {
        return Ok(Reason::Free);
    }
    why_blocked(alloc, core, leaf)
}

/// The same of a leaf that can neither be taken nor done.
fn why_blocked(alloc: Global, core: &Core, leaf: u32) -> Result<Reason, AllocError>
    requires { IsBlocked core.now leaf }
    ensures { IfOk result (IsReason core.now leaf) }
{
    if let Some(entry) = entry_that_did(core, leaf) {
        return Ok(Reason::Done { entry });
    }
    if let Some(Out { claim, entry, user }) = claim_out_on(core, leaf) {
        return Ok(Reason::Out { claim, entry, user });
    }
    why_idle(alloc, core, leaf)
}

/// The same of a leaf that is neither done nor under a claim.
fn why_idle(alloc: Global, core: &Core, leaf: u32) -> Result<Reason, AllocError>
    requires { IsIdle core.now leaf }
    ensures { IfOk result (IsReason core.now leaf) }
{
    if core.can_do_aside(leaf) {
        why_false(alloc, core, leaf)
    } else {
        why_held(alloc, core, leaf)
    }
}

/// The same of a leaf that could be done, if what it asks were so.
fn why_false(alloc: Global, core: &Core, leaf: u32) -> Result<Reason, AllocError>
    requires idle { IsIdle core.now leaf }
    requires aside { CanDoAside (schema core.now) (now core.now) leaf }
    ensures { IfOk result (IsReason core.now leaf) }
{
    let (fact, wanted) = match label_at(core, leaf) {
        Some(Label::Test(fact)) => (fact, true),
        Some(Label::Absent(fact)) => (fact, false),
        _ => unreachable!(),
    };
    let leaves = left_to(alloc, core, fact, wanted)?;
    Ok(Reason::False {
        fact,
        wanted,
        leaves,
    })
}

/// The same of a leaf that could neither be taken nor done, whatever facts hold.
fn why_held(alloc: Global, core: &Core, leaf: u32) -> Result<Reason, AllocError>
    requires { IsHeld core.now leaf }
    ensures { IfOk result (IsReason core.now leaf) }
{
    if let Some(other) = chosen_against(alloc, core, leaf)? {
        return Ok(Reason::OtherSide { leaf: other });
    }
    if is_given_up(alloc, core, leaf)? {
        return Ok(Reason::GivenUp);
    }
    why_kept(alloc, core, leaf)
}

/// The same of a leaf that is on no other side of a choice, as far as that is known, and that was not given up.
fn why_kept(alloc: Global, core: &Core, leaf: u32) -> Result<Reason, AllocError>
    requires { IsKept core.now leaf }
    ensures { IfOk result (IsReason core.now leaf) }
{
    let Some(conflict) = why_not_next(alloc, core, leaf)? else {
        return why_beside(alloc, core, leaf);
    };
    let before = leaves_before(alloc, core, leaf)?;
    let unfinished = open_leaves(alloc, core, leaf)?;
    Ok(why_conflict(core, leaf, conflict, before, unfinished))
}

/// The same of a leaf that goal and constraints let come next, as far as that is known.
fn why_beside(alloc: Global, core: &Core, leaf: u32) -> Result<Reason, AllocError>
    requires { IsKept core.now leaf }
    ensures { IfOk result (IsReason core.now leaf) }
{
    let Some(residual) = ungiven(alloc, core)? else {
        return Ok(Reason::Other);
    };
    let reason = why_claims(alloc, core, &residual, leaf);
    drop(residual);
    reason
}

/// The same, by what would remain of the workflow if nothing had been given up.
fn why_claims(
    alloc: Global,
    core: &Core,
    residual: &Residual,
    leaf: u32,
) -> Result<Reason, AllocError>
    requires kept { IsKept core.now leaf }
    requires remains { IsOf (schema core.now) (unbanned (now core.now)) residual.now }
    ensures { IfOk result (IsReason core.now leaf) }
{
    let outs = claims_out(alloc, core)?;
    let event = is_event(core, leaf);
    if may_come_with(alloc, residual, event, &outs, leaf)? {
        return Ok(Reason::Barred);
    }
    let claims = least_in_the_way(alloc, residual, event, &outs, leaf)?;
    Ok(Reason::Claims { claims })
}

/// The constraints that do not let the leaf come next, whatever claims are out and whatever was given up: none where the goal does not.
fn why_not_next(alloc: Global, core: &Core, leaf: u32) -> Result<Option<Conflict>, AllocError>
    ensures { IfOk result (λ found. IfSome found (λ conflict. IsNotNext core.now leaf conflict.members.items conflict.undecided.items)) }
{
    let mut front = Vec::from_slice(alloc, core.journal())?;
    front.push(leaf)?;
    why_not(alloc, core.workflow(), &front)
}

/// Whether the list has no member.
fn is_none(list: &[u32]) -> bool
    ensures { IsTrue result ↔ (list.now ≡ []) }
{
    list.is_empty()
}

/// What such constraints come to, where these leaves stand before the leaf, and those are left of isolated parts without it.
fn why_conflict(
    core: &Core,
    leaf: u32,
    conflict: Conflict,
    leaves: Vec<u32>,
    unfinished: Vec<u32>,
) -> Reason
    requires kept { IsKept core.now leaf }
    requires conflict { IsNotNext core.now leaf conflict.members.items conflict.undecided.items }
    requires before { Each (IsBefore core.now leaf) leaves.items }
    requires unfinished { Each (IsLeftOfPart core.now leaf) unfinished.items }
    ensures { IsReason core.now leaf result }
{
    let Conflict {
        members: constraints,
        undecided,
    } = conflict;
    if is_none(&constraints) {
        why_waits(core, leaf, leaves, unfinished)
    } else {
        Reason::WaitsByConstraints {
            constraints,
            undecided,
        }
    }
}

/// What it comes to that the goal alone does not let the leaf come next.
fn why_waits(core: &Core, leaf: u32, leaves: Vec<u32>, unfinished: Vec<u32>) -> Reason
    requires kept { IsKept core.now leaf }
    requires waits { WaitsByGoal core.now leaf leaves.items }
    requires unfinished { Each (IsLeftOfPart core.now leaf) unfinished.items }
    ensures { IsReason core.now leaf result }
{
    if is_none(&unfinished) {
        return Reason::Waits { leaves };
    }
    if is_none(&leaves) {
        Reason::Isolated { leaves: unfinished }
    } else {
        Reason::Waits { leaves }
    }
}
