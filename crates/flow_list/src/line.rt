//! The line of a case.
ghost use Rattle.std.specs.Prelude.{◌≡◌, None, Some, IfOk, MatchOption};
ghost use Rattle.flow_list.specs.Line.{last_of, IsLastTold, Stands, IsLineOf};

use crate::steps::{Steps, steps_of};
use crate::taken::teller_at;
use crate::tasks::{Tasks, tasks_of};
use flow_case::CaseRun;
use flow_case_state::{CaseState, state_free, state_under};
use flow_export::Teller;
use std::alloc::{AllocError, Global};

/// What is told of a case in a line.
#[derive(Drop)]
pub struct CaseLine {
    pub state: CaseState,
    pub tasks: Tasks,
    pub steps: Steps,
    /// When the last entry was made, as it was told. None in a case with no entry.
    pub last: Option<String>,
}

/// How the case stands, whose policy names so many users.
fn state_of(run: &CaseRun, users: u32) -> CaseState
    ensures { Stands run.now users result }
{
    match run {
        CaseRun::Free(core) => state_free(core),
        CaseRun::UnderPolicy(ruled) => state_under(ruled.core(), ruled.policy(), users),
    }
}

/// Who made the last of so many entries.
fn last_of(tellers: &[Teller], count: usize) -> Option<&Teller>
    ensures { MatchOption result (last_of tellers.now count ≡ None) (λ teller. last_of tellers.now count ≡ Some teller.now) }
{
    if count == 0 {
        return None;
    }
    teller_at(tellers, count - 1)
}

/// When the last of so many entries was made.
fn last_told(alloc: Global, tellers: &[Teller], count: usize) -> Result<Option<String>, AllocError>
    ensures { IfOk result (IsLastTold tellers.now count) }
{
    match last_of(tellers, count) {
        Some(teller) => Ok(Some(String::from_str(alloc, teller.at.as_str())?)),
        None => Ok(None),
    }
}

/// The line of a case that has looked ahead.
fn line_with(
    alloc: Global,
    run: &CaseRun,
    users: u32,
    tellers: &[Teller],
) -> Result<CaseLine, AllocError>
    ensures { IfOk result (IsLineOf run.now users tellers.now) }
{
    let state = state_of(run, users);
    let last = last_told(alloc, tellers, run.core().history().len())?;
    let steps = steps_of(alloc, run.core())?;
    let tasks = tasks_of(alloc, run, users, tellers)?;
    Ok(CaseLine {
        state,
        tasks,
        steps,
        last,
    })
}

/// The line of a case, whose policy names so many users, and whose entries were made by these.
pub fn case_line(
    alloc: Global,
    run: &mut CaseRun,
    users: u32,
    tellers: &[Teller],
) -> Result<CaseLine, AllocError>
    ensures line { IfOk result (IsLineOf run.old users tellers.now) }
    ensures run { run.new ≡ run.old }
{
    run.look_ahead();
    line_with(alloc, run, users, tellers)
}
