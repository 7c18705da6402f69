ghost use Rattle.std.specs.Prelude.{◌≡◌, ◌↔◌, ◌<◌, ℕ, IsTrue, MatchOption};
ghost use Rattle.flow_model.specs.Duties.{HasRole};
ghost use Rattle.flow_core.specs.Answers.{IsLeast};
ghost use Rattle.flow_roles.specs.Having.{HasEvent, IsWithAnother};
ghost use Rattle.flow_roles.specs.Answers.{IsKeptApart, IsTiedElsewhere, IsLeftTo, IsDenied};
ghost use Rattle.flow_staff.specs.Desk.{desk_of};

use flow_core::Core;
use flow_policy::Policy;
use flow_roles::Denied;

/// Whether duties leave the event to the user now. What the run says of its leaves is another question.
pub fn may_take(core: &Core, policy: &Policy, event: u32, by: u32) -> bool
    ensures { IsTrue result ↔ IsLeftTo (desk_of core.now policy.now) by event }
{
    match denial(core, policy, event, by) {
        Some(_) => false,
        None => true,
    }
}

/// The first duty that keeps the event from the user.
pub fn denial(core: &Core, policy: &Policy, event: u32, by: u32) -> Option<Denied>
    ensures { MatchOption result (IsLeftTo (desk_of core.now policy.now) by event) (IsDenied (desk_of core.now policy.now) by event) }
{
    if !policy.has_role(by, event) {
        return Some(Denied::Role);
    }
    if let Some(index) = separated_by(core, policy, event, by) {
        return Some(Denied::Separate(index));
    }
    match bound_by(core, policy, event, by) {
        Some(index) => Some(Denied::Bind(index)),
        None => None,
    }
}

/// Whether no user with a lower number than that has a role that is allowed the event.
pub fn is_for_nobody(policy: &Policy, event: u32, below: u32) -> bool
    ensures { IsTrue result ↔ ((user : ℕ) → user < below → ¬ (HasRole policy.now.duties user event)) }
{
    for user in 0..below {
        if policy.has_role(user, event) {
            return false;
        }
    }
    true
}

/// The least constraint by which the event is not for the user, who has another event.
fn separated_by(core: &Core, policy: &Policy, event: u32, by: u32) -> Option<u32>
    ensures { MatchOption result ((i : ℕ) → ¬ (IsKeptApart (desk_of core.now policy.now) by event i)) (IsLeast (IsKeptApart (desk_of core.now policy.now) by event)) }
{
    let ties = policy.separations(event);
    for apart in ties {
        if has(core, policy, apart.other, by) {
            return Some(apart.index);
        }
    }
    None
}

/// The least constraint by which the event is for the one who has another event, and that is another user.
fn bound_by(core: &Core, policy: &Policy, event: u32, by: u32) -> Option<u32>
    ensures { MatchOption result ((i : ℕ) → ¬ (IsTiedElsewhere (desk_of core.now policy.now) by event i)) (IsLeast (IsTiedElsewhere (desk_of core.now policy.now) by event)) }
{
    let ties = policy.bindings(event);
    for bound in ties {
        if is_with_another(core, policy, bound.other, by) {
            return Some(bound.index);
        }
    }
    None
}

/// Whether the user has the event: a leaf of it, done or under a claim that is out.
fn has(core: &Core, policy: &Policy, event: u32, by: u32) -> bool
    ensures { IsTrue result ↔ HasEvent (desk_of core.now policy.now) event by }
{
    match core.taker_of_event(event) {
        Some(taker) => taker == by,
        None => false,
    }
}

/// Whether another user has the event.
fn is_with_another(core: &Core, policy: &Policy, event: u32, by: u32) -> bool
    ensures { IsTrue result ↔ IsWithAnother (desk_of core.now policy.now) event by }
{
    let Some(taker) = core.taker_of_event(event) else {
        return false;
    };
    taker != by
}
