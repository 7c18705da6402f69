ghost use Rattle.std.specs.Prelude.{◌≡◌, ◌≢◌, ◌<◌, ◌↔◌, ℕ, None, IsTrue, IfOk, IfSome};
ghost use Rattle.flow_roles.specs.Having.{HasEvent};
ghost use Rattle.flow_core.specs.Run.{schema};
ghost use Rattle.flow_plan.specs.Compilation.{IsCompiled};
ghost use Rattle.flow_questions.specs.declared.both.Shared.TheVariants as shared;
ghost use Rattle.flow_questions.specs.Questions.{HoldsRoles, HasBoth, IsFresh, IsRunOfSame, TellsOfBoth};

use crate::never::look_for;
use crate::run::{do_all, recall};
use flow_case::RuledRun;
use flow_plan::Compiled;
use flow_stages::{Question, Searched};
use std::alloc::{AllocError, Global};

/// Whether one user can have two events in one run.
#[derive(Clone, Copy)]
pub enum Shared {
    /// This user can. The run shows it.
    By(u32),
    /// No user can, in any run.
    Never,
    /// No such run was found among so many states, which are all that were allowed. There may be one.
    Undecided(u64),
    /// An option has such a run. Not all of its entries were made, or it did not show what is asked: never of a run that has no entry yet and
    /// has room for two of each leaf.
    Unmade,
}

/// Whether the user has the event in the run.
#[tactic(auto, using(crate::proofs::StaffLemmas::taker_has))]
fn has(run: &RuledRun, event: u32, user: u32) -> bool
    ensures { IsTrue result ↔ HasEvent run.now.desk event user }
{
    match run.core().taker_of_event(event) {
        Some(taker) => taker == user,
        None => false,
    }
}

/// The first user below that number who has both events in the run.
fn who_has_both(run: &RuledRun, one: u32, two: u32, users: u32) -> Option<u32>
    ensures some { IfSome result (HasBoth run.now.desk one two) }
    ensures none { result ≡ None → (user : ℕ) → user < users → ¬ (HasBoth run.now.desk one two user) }
{
    for user in 0..users {
        if has(run, one, user) && has(run, two, user) {
            return Some(user);
        }
    }
    None
}

/// Looks for a run of the case, which has no entry yet, in which one user has both events. Where one is found, the run is made. Not more than so
/// many states are looked at.
#[tactic(auto, using(crate::proofs::FoundLemmas::found_still))]
pub fn alone(
    alloc: Global,
    run: &mut RuledRun,
    compiled: &Compiled,
    users: u32,
    one: u32,
    two: u32,
    states: u64,
) -> Result<Shared, AllocError>
    requires roles { HoldsRoles run.old.desk.assigned.duties users }
    requires compiled { IsCompiled (schema run.old.desk.run) compiled.now }
    ensures same { IsRunOfSame run.old run.new }
    ensures told { IfOk result (TellsOfBoth run.new one two states) }
    ensures made { IsFresh run.old → IfOk result (λ told. told ≢ shared.Unmade) }
{
    let question = Question::Both(one, two);
    let mut left = states;
    match look_for(alloc, run, compiled, users, question, &mut left)? {
        Searched::Nothing => Ok(Shared::Never),
        Searched::Spent => Ok(Shared::Undecided(states.saturating_sub(left))),
        Searched::Shown {
            leaves,
            takers,
            event: _,
        } => {
            do_all(run, &leaves, &takers);
            recall(run);
            match who_has_both(run, one, two, users) {
                Some(user) => Ok(Shared::By(user)),
                None => Ok(Shared::Unmade),
            }
        }
    }
}
