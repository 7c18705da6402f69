//! How a case stands.
ghost use Rattle.std.specs.Prelude.{◌≡◌, ◌↔◌, [], ℕ, IsTrue};
ghost use Rattle.flow_model.specs.Run.{current_claims};
ghost use Rattle.flow_core.specs.Run.{now};
ghost use Rattle.flow_core.specs.Next.{CanAct};
ghost use Rattle.flow_staff.specs.Desk.{desk_of};
ghost use Rattle.flow_case_state.specs.Takers.{IsForNone};
ghost use Rattle.flow_case_state.specs.State.{IsBarred, StandsFree, StandsUnder};

use crate::takers::is_for_none;
use flow_core::{Core, Next};
use flow_policy::Policy;

/// How a case stands.
#[derive(Clone, Copy, Debug, PartialEq, Eq)]
pub enum CaseState {
    /// Something can be taken or done.
    Open,
    /// Nothing can, before a task that is out has ended.
    Waiting,
    /// Nothing is left but to commit.
    Finished,
    /// Only tests and absences that are false now are left.
    StuckByFacts,
    /// Nothing is out, and duties leave to nobody what can be taken or done.
    StuckByDuties,
    Committed,
}

impl CaseState {
    ghost use Rattle.flow_case_state.specs.Words.{word_of};

    /// Its word in answers that programs read.
    pub fn word(self) -> &'static str
        ensures { result.now ≡ word_of self }
    {
        match self {
            CaseState::Open => "open",
            CaseState::Waiting => "waiting",
            CaseState::Finished => "finished",
            CaseState::StuckByFacts => "stuck",
            CaseState::StuckByDuties => "stuck_by_duties",
            CaseState::Committed => "committed",
        }
    }
}

/// How a case without a policy stands.
pub fn state_free(core: &Core) -> CaseState
    ensures { StandsFree core.now result }
{
    match core.next() {
        Next::Act(_) => CaseState::Open,
        Next::Wait(_) => CaseState::Waiting,
        Next::Finished => CaseState::Finished,
        Next::Stuck(_) => CaseState::StuckByFacts,
        Next::Ended => CaseState::Committed,
    }
}

/// How a case stands whose tasks so many users take under the policy.
pub fn state_under(core: &Core, policy: &Policy, users: u32) -> CaseState
    ensures { StandsUnder (desk_of core.now policy.now) users result }
{
    match state_free(core) {
        CaseState::Open => open_under(core, policy, users),
        state => state,
    }
}

/// How a case stands in which something can be taken or done.
fn open_under(core: &Core, policy: &Policy, users: u32) -> CaseState
    requires { StandsFree core.now CaseState.Open }
    ensures { StandsUnder (desk_of core.now policy.now) users result }
{
    if is_barred(core, policy, users) {
        CaseState::StuckByDuties
    } else {
        CaseState::Open
    }
}

/// Whether nothing is out, and duties leave to nobody what can be taken or done.
fn is_barred(core: &Core, policy: &Policy, users: u32) -> bool
    ensures { IsTrue result ↔ IsBarred (desk_of core.now policy.now) users }
{
    has_no_claim(core) && are_for_none(core, policy, users)
}

/// Whether no claim is out.
#[tactic(auto, using(crate::proofs::Claims::claim_out))]
fn has_no_claim(core: &Core) -> bool
    ensures { IsTrue result ↔ (current_claims (now core.now) ≡ []) }
{
    match core.least_claim() {
        Some(_) => false,
        None => true,
    }
}

/// Whether each leaf that can be taken or done is that of a task which duties leave to none of the users.
fn are_for_none(core: &Core, policy: &Policy, users: u32) -> bool
    ensures { IsTrue result ↔ ((leaf : ℕ) → CanAct core.now leaf → IsForNone (desk_of core.now policy.now) users leaf) }
{
    for leaf in 0..core.workflow().tree().leaves() {
        if core.can_act(leaf) && !is_for_none(core, policy, users, leaf) {
            return false;
        }
    }
    true
}
