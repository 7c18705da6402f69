ghost use Rattle.std.specs.Prelude.{◌≡◌, ◌≢◌, ◌↔◌, ℕ, Some, None, IsTrue, IfOk, IfSome};
ghost use Rattle.flow_model.specs.Facts.{event_at};
ghost use Rattle.flow_core.specs.Run.{schema};
ghost use Rattle.flow_core.specs.Holding.{IsTakeable};
ghost use Rattle.flow_roles.specs.Answers.{IsLeftTo};
ghost use Rattle.flow_plan.specs.Compilation.{IsCompiled};
ghost use Rattle.flow_questions.specs.declared.manned.Manning.TheVariants as manning;
ghost use Rattle.flow_questions.specs.Questions.{HoldsRoles, IsFresh, IsRunOfSame, IsUnmanned, TellsOfStaff};

use crate::never::look_for;
use crate::run::{do_all, recall};
use flow_case::RuledRun;
use flow_plan::Compiled;
use flow_staff::may_take;
use flow_stages::{Question, Searched};
use std::alloc::{AllocError, Global};

/// What is found of an event that may be begun and that nobody may take.
#[derive(Clone, Copy)]
pub enum Manning {
    /// Nobody may begin this leaf's event where the run stands.
    Unmanned(u32),
    /// There is always somebody, in every run.
    Always,
    /// No such run was found among so many states, which are all that were allowed. There may be one.
    Undecided(u64),
    /// An option has such a run. Not all of its entries were made, or it did not show what is asked: never of a run that has no entry yet and
    /// has room for two of each leaf.
    Unmade,
}

/// Whether nobody may take the event.
#[tactic(auto, using(crate::proofs::StaffLemmas::none_left))]
fn is_for_nobody(run: &RuledRun, event: u32, users: u32) -> bool
    requires { HoldsRoles run.now.desk.assigned.duties users }
    ensures { IsTrue result ↔ ((user : ℕ) → ¬ (IsLeftTo run.now.desk user event)) }
{
    for user in 0..users {
        if may_take(run.core(), run.policy(), event, user) {
            return false;
        }
    }
    true
}

/// Whether the leaf is the event's and may be taken, whoever may.
fn can_take(run: &RuledRun, leaf: u32, event: u32) -> bool
    ensures { IsTrue result ↔ (IsTakeable run.now.desk.run leaf × (event_at (schema run.now.desk.run).labels leaf ≡ Some event)) }
{
    match run.core().may_take(leaf) {
        Ok(found) => found == event,
        Err(_) => false,
    }
}

/// A leaf of the event that may be taken, though nobody may.
#[tactic(auto, using(crate::proofs::StaffLemmas::unmanned_here))]
fn unmanned(run: &RuledRun, event: u32, users: u32) -> Option<u32>
    requires { HoldsRoles run.now.desk.assigned.duties users }
    ensures some { IfSome result (IsUnmanned run.now.desk) }
    ensures none { result ≡ None → ((user : ℕ) → ¬ (IsLeftTo run.now.desk user event)) →
        (leaf : ℕ) → ¬ (IsTakeable run.now.desk.run leaf × (event_at (schema run.now.desk.run).labels leaf ≡ Some event)) }
{
    if !is_for_nobody(run, event, users) {
        return None;
    }
    for leaf in 0..run.core().workflow().tree().leaves() {
        if can_take(run, leaf, event) {
            return Some(leaf);
        }
    }
    None
}

/// Looks for a run of the case, which has no entry yet, behind which an event may be begun that nobody may take. Where one is found, the run is
/// made. Not more than so many states are looked at.
#[tactic(auto, using(crate::proofs::FoundLemmas::found_still))]
pub fn staffed(
    alloc: Global,
    run: &mut RuledRun,
    compiled: &Compiled,
    users: u32,
    states: u64,
) -> Result<Manning, AllocError>
    requires roles { HoldsRoles run.old.desk.assigned.duties users }
    requires compiled { IsCompiled (schema run.old.desk.run) compiled.now }
    ensures same { IsRunOfSame run.old run.new }
    ensures told { IfOk result (TellsOfStaff run.new states) }
    ensures made { IsFresh run.old → IfOk result (λ told. told ≢ manning.Unmade) }
{
    let mut left = states;
    match look_for(alloc, run, compiled, users, Question::Unmanned, &mut left)? {
        Searched::Nothing => Ok(Manning::Always),
        Searched::Spent => Ok(Manning::Undecided(states.saturating_sub(left))),
        Searched::Shown {
            leaves,
            takers,
            event,
        } => {
            do_all(run, &leaves, &takers);
            recall(run);
            match unmanned(run, event, users) {
                Some(leaf) => Ok(Manning::Unmanned(leaf)),
                None => Ok(Manning::Unmade),
            }
        }
    }
}
