//! Ties of two events that no run can meet.
ghost use Rattle.std.specs.Prelude.{◌≡◌, ◌≢◌, ◌↔◌, ◌<◌, IsTrue};
ghost use Rattle.flow_model.specs.Duties.{HasRole};
ghost use Rattle.flow_policy_lint.specs.Findings.{has_tie, IsPairOf, NobodyHasBoth, IsAlone, NoTwoHave, IsForNoOne, IsUnmetBind, IsUnmetSeparate};

use crate::pairs::PairQuestion;
use flow_policy::{Policy, Tie};
use std::alloc::{AllocError, Global};

/// Whether a tie is with that event.
fn has_tie(ties: &[Tie], other: u32) -> bool
    ensures { result ≡ has_tie other ties.now }
{
    ties.iter().any(|tie| tie.other == other)
}

/// Whether the two events are bound.
#[tactic(auto, using(crate::proofs::TieLemmas::are_tied))]
fn are_bound(policy: &Policy, one: u32, two: u32) -> bool
    ensures { IsTrue result ↔ IsPairOf policy.now.duties.bound one two }
{
    has_tie(policy.bindings(one), two)
}

/// Whether the two events are separate.
#[tactic(auto, using(crate::proofs::TieLemmas::are_tied))]
fn are_separate(policy: &Policy, one: u32, two: u32) -> bool
    ensures { IsTrue result ↔ IsPairOf policy.now.duties.separate one two }
{
    has_tie(policy.separations(one), two)
}

/// Whether the user has roles for both events.
fn has_both(policy: &Policy, user: u32, one: u32, two: u32) -> bool
    ensures { IsTrue result ↔ (HasRole policy.now.duties user one × HasRole policy.now.duties user two) }
{
    policy.has_role(user, one) && policy.has_role(user, two)
}

/// Whether no user below that number has roles for both events.
fn nobody_has_both(policy: &Policy, one: u32, two: u32, users: u32) -> bool
    ensures { IsTrue result ↔ NobodyHasBoth policy.now.duties users one two }
{
    for user in 0..users {
        if has_both(policy, user, one, two) {
            return false;
        }
    }
    true
}

/// Whether it is another user, with a role for the event.
fn is_another(policy: &Policy, other: u32, user: u32, event: u32) -> bool
    ensures { IsTrue result ↔ ((other ≢ user) × HasRole policy.now.duties other event) }
{
    other != user && policy.has_role(other, event)
}

/// Whether no other user below that number has a role for the event.
fn is_alone(policy: &Policy, user: u32, event: u32, users: u32) -> bool
    ensures { IsTrue result ↔ IsAlone policy.now.duties users user event }
{
    for other in 0..users {
        if is_another(policy, other, user, event) {
            return false;
        }
    }
    true
}

/// Whether the user has a role for the one event, and another one for the other.
fn is_of_two(policy: &Policy, user: u32, one: u32, two: u32, users: u32) -> bool
    ensures { IsTrue result ↔ (HasRole policy.now.duties user one × ¬ (IsAlone policy.now.duties users user two)) }
{
    policy.has_role(user, one) && !is_alone(policy, user, two, users)
}

/// Whether no two users below that number have roles for the one event and for the other.
fn no_two_have(policy: &Policy, one: u32, two: u32, users: u32) -> bool
    ensures { IsTrue result ↔ NoTwoHave policy.now.duties users one two }
{
    for user in 0..users {
        if is_of_two(policy, user, one, two, users) {
            return false;
        }
    }
    true
}

/// Whether no one user may have both events: they are separate, or no user has roles for both.
#[tactic(auto, using(crate::proofs::BoolLemmas::or_else))]
fn is_for_no_one(policy: &Policy, one: u32, two: u32, users: u32) -> bool
    ensures { IsTrue result ↔ IsForNoOne policy.now.duties users one two }
{
    are_separate(policy, one, two) || nobody_has_both(policy, one, two, users)
}

/// Whether the two events are bound, and no one user may have both.
#[tactic(auto, using(crate::proofs::BoolLemmas::both))]
fn is_bound_in_vain(policy: &Policy, one: u32, two: u32, users: u32) -> bool
    ensures { IsTrue result ↔ (IsPairOf policy.now.duties.bound one two × IsForNoOne policy.now.duties users one two) }
{
    are_bound(policy, one, two) && is_for_no_one(policy, one, two, users)
}

/// Whether the two events are separate, and no two users may have them.
#[tactic(auto, using(crate::proofs::BoolLemmas::both))]
fn is_separate_in_vain(policy: &Policy, one: u32, two: u32, users: u32) -> bool
    ensures { IsTrue result ↔ (IsPairOf policy.now.duties.separate one two × NoTwoHave policy.now.duties users one two) }
{
    are_separate(policy, one, two) && no_two_have(policy, one, two, users)
}

/// Which bound events no one user may both have.
#[derive(Clone, Copy)]
pub(crate) struct UnmetBinds<'a> {
    pub(crate) policy: &'a Policy,
    /// A number past those of all users.
    pub(crate) users: u32,
}

impl PairQuestion for UnmetBinds<'_> {
    ghost is_so = { λ question one two. IsUnmetBind question.policy.now.duties question.users one two };

    #[tactic(auto, using(crate::proofs::BoolLemmas::both))]
    fn ask(&self, _alloc: Global, one: u32, two: u32) -> Result<bool, AllocError> {
        Ok(one < two && is_bound_in_vain(self.policy, one, two, self.users))
    }
}

/// Which separate events no two users may have.
#[derive(Clone, Copy)]
pub(crate) struct UnmetSeparates<'a> {
    pub(crate) policy: &'a Policy,
    /// A number past those of all users.
    pub(crate) users: u32,
}

impl PairQuestion for UnmetSeparates<'_> {
    ghost is_so = { λ question one two. IsUnmetSeparate question.policy.now.duties question.users one two };

    #[tactic(auto, using(crate::proofs::BoolLemmas::both))]
    fn ask(&self, _alloc: Global, one: u32, two: u32) -> Result<bool, AllocError> {
        Ok(one < two && is_separate_in_vain(self.policy, one, two, self.users))
    }
}
