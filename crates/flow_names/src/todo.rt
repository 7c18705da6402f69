//! What is to be done in a run, as data.
ghost use Rattle.std.specs.Prelude.{◌≡◌, ◌<◌, ◌≤◌, ◌^◌, ◌↔◌, ℕ, IsTrue, IfOk, MatchOption, map};
ghost use Rattle.flow_model.specs.Lists.{Each};
ghost use Rattle.flow_model.specs.Run.{IsCurrent};
ghost use Rattle.flow_model.specs.Verdict.{AreJust};
ghost use Rattle.flow_core.specs.Run.{now};
ghost use Rattle.flow_core.specs.Holding.{IsTakeable};
ghost use Rattle.flow_names.specs.Todo.{IsTodo, IsOutTask, IsState, number_of};

use crate::leaves::may_take;
use flow_core::{Core, Next};
use flow_model::Call;
use std::alloc::{AllocError, Global};

/// What is to be done in a run.
#[derive(Drop)]
pub struct Todo {
    /// The leaves that may be taken now, rising.
    pub begin: Vec<u32>,
    /// The claims that are out, rising.
    pub out: Vec<OutTask>,
    pub state: State,
}

/// A task that is out.
#[derive(Clone, Copy)]
pub struct OutTask {
    /// Its claim, leaf, event and attempt.
    pub call: Call,
    /// Who took it, where its result may still be posted.
    pub holder: Option<u32>,
}

/// How a run stands.
#[derive(Clone, Copy, Debug, PartialEq, Eq)]
pub enum State {
    /// Something can be taken or done.
    Open,
    /// Nothing can, before a task that is out has ended.
    Waiting,
    /// The run can be committed.
    Finished,
    /// Only tests and absences that are false now are left.
    Stuck,
    Committed,
}

/// Looks what is to be done. The core is to have looked ahead: each leaf is asked for.
pub fn todo_of(alloc: Global, core: &Core) -> Result<Todo, AllocError>
    ensures { IfOk result (IsTodo core.now) }
{
    let begin = leaves_to_begin(alloc, core)?;
    let out = tasks_out(alloc, core)?;
    let state = state_of(core);
    Ok(Todo { begin, out, state })
}

/// The leaves that may be taken now, rising.
fn leaves_to_begin(alloc: Global, core: &Core) -> Result<Vec<u32>, AllocError>
    ensures { IfOk result (λ leaves. AreJust (IsTakeable core.now) leaves.items) }
{
    let mut leaves = Vec::new(alloc);
    for leaf in 0..core.workflow().tree().leaves() {
        if may_take(core, leaf) {
            leaves.push(leaf)?;
        }
    }
    Ok(leaves)
}

/// The tasks that are out, by their claims, rising.
fn tasks_out(alloc: Global, core: &Core) -> Result<Vec<OutTask>, AllocError>
    ensures claims { IfOk result (λ out. AreJust (IsCurrent (now core.now)) (map number_of out.items)) }
    ensures tasks { IfOk result (λ out. Each (IsOutTask core.now) out.items) }
{
    let mut out = Vec::new(alloc);
    for claim in 0..claim_bound(core) {
        if let Some(task) = task_out(core, claim as u32) {
            out.push(task)?;
        }
    }
    Ok(out)
}

/// The task of a claim, if it is out.
fn task_out(core: &Core, claim: u32) -> Option<OutTask>
    ensures { MatchOption result (¬ (IsCurrent (now core.now) claim))
        (λ task. IsCurrent (now core.now) claim × (number_of task ≡ claim) × IsOutTask core.now task) }
{
    if !core.is_current(claim) {
        return None;
    }
    let call = core.call_of(claim)?;
    let holder = core.holder_of(claim);
    Some(OutTask { call, holder })
}

/// A number above those of all claims that are out.
pub(crate) fn claim_bound(core: &Core) -> u64
    ensures above { (claim : ℕ) → IsCurrent (now core.now) claim → claim < result }
    ensures small { result ≤ 2 ^ 32 }
{
    // the history is no longer than the limit, which is a small number
    let _limit = core.limit();
    core.history().len() as u64 + 1
}

/// How the run stands.
fn state_of(core: &Core) -> State
    ensures { IsState core.now result }
{
    match core.next() {
        Next::Act(_) => State::Open,
        Next::Wait(_) => State::Waiting,
        Next::Finished => State::Finished,
        Next::Stuck(_) => State::Stuck,
        Next::Ended => State::Committed,
    }
}
