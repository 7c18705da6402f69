//! The tasks of a case: those that may be begun and by whom, and those that are out.
ghost use Rattle.std.specs.Prelude.{◌≡◌, IfOk, map};
ghost use Rattle.flow_model.specs.Lists.{Each};
ghost use Rattle.flow_case.specs.CaseRun.{run_of};
ghost use Rattle.flow_names.specs.Todo.{number_of, IsOutTask};
ghost use Rattle.flow_list.specs.Out.{claim_of, IsOutSince};
ghost use Rattle.flow_list.specs.Tasks.{leaf_of, AreUsersOf, IsOpenTo, AreTasksOf};

use crate::taken::{TaskOut, tasks_out};
use flow_case::CaseRun;
use flow_case_state::takers_of;
use flow_export::Teller;
use flow_names::{OutTask, todo_of};
use flow_record::print_label;
use std::alloc::{AllocError, Global};

/// A task that may be begun.
#[derive(Drop)]
pub struct Beginning {
    pub leaf: u32,
    /// The label of the leaf.
    pub task: Vec<u8>,
    /// The numbers of the users to whom duties leave it. None in a case without a policy: anybody.
    pub users: Option<Vec<u32>>,
}

impl Beginning {
    /// Whether duties leave it to nobody.
    pub fn is_for_nobody(&self) -> bool {
        match &self.users {
            Some(users) => users.is_empty(),
            None => false,
        }
    }
}

/// The tasks of a case.
#[derive(Drop)]
pub struct Tasks {
    /// Those that may be begun now.
    pub begin: Vec<Beginning>,
    /// Those that are out.
    pub out: Vec<TaskOut>,
}

/// The users, of so many, to whom duties leave the leaf's task.
fn users_of(
    alloc: Global,
    run: &CaseRun,
    users: u32,
    leaf: u32,
) -> Result<Option<Vec<u32>>, AllocError>
    ensures { IfOk result (AreUsersOf run.now users leaf) }
{
    match run {
        CaseRun::Free(_) => Ok(None),
        CaseRun::UnderPolicy(ruled) => {
            let found = takers_of(alloc, ruled.core(), ruled.policy(), users, leaf)?;
            Ok(Some(found))
        }
    }
}

/// The task of a leaf, with those who may begin it.
fn task_of(alloc: Global, run: &CaseRun, users: u32, leaf: u32) -> Result<Beginning, AllocError>
    ensures leaf { IfOk result (λ b. leaf_of b ≡ leaf) }
    ensures users { IfOk result (IsOpenTo run.now users) }
{
    let found = users_of(alloc, run, users, leaf)?;
    match print_label(alloc, run.core().workflow(), leaf) {
        Ok(task) => Ok(Beginning {
            leaf,
            task,
            users: found,
        }),
        Err(error) => {
            drop(found);
            Err(error)
        }
    }
}

/// The tasks of the leaves, with those who may begin each.
#[tactic(auto, using(crate::proofs::ListSteps::mapped_none, crate::proofs::ListSteps::mapped_more, crate::proofs::ListSteps::mapped_all, crate::proofs::ListSteps::mapped_itself, crate::proofs::ListSteps::each_more, crate::proofs::ListSteps::each_at))]
fn beginnings(
    alloc: Global,
    run: &CaseRun,
    users: u32,
    leaves: &[u32],
) -> Result<Vec<Beginning>, AllocError>
    ensures leaves { IfOk result (λ begin. map leaf_of begin.items ≡ leaves.now) }
    ensures users { IfOk result (λ begin. Each (IsOpenTo run.now users) begin.items) }
{
    let mut begin = Vec::new(alloc);
    for leaf in leaves {
        begin.push(task_of(alloc, run, users, *leaf)?)?;
    }
    Ok(begin)
}

/// The tasks of these leaves, and those that are out.
fn with_out(
    alloc: Global,
    run: &CaseRun,
    users: u32,
    tellers: &[Teller],
    leaves: &[u32],
    out: &[OutTask],
) -> Result<Tasks, AllocError>
    requires { Each (IsOutTask (run_of run.now)) out.now }
    ensures leaves { IfOk result (λ tasks. map leaf_of tasks.begin.items ≡ leaves.now) }
    ensures users { IfOk result (λ tasks. Each (IsOpenTo run.now users) tasks.begin.items) }
    ensures claims { IfOk result (λ tasks. map claim_of tasks.out.items ≡ map number_of out.now) }
    ensures since { IfOk result (λ tasks. Each (IsOutSince (run_of run.now) tellers.now) tasks.out.items) }
{
    let begin = beginnings(alloc, run, users, leaves)?;
    match tasks_out(alloc, run.core(), tellers, out) {
        Ok(out) => Ok(Tasks { begin, out }),
        Err(error) => {
            drop(begin);
            Err(error)
        }
    }
}

/// The tasks of a case. The run is to have looked ahead: each leaf is asked for.
pub(crate) fn tasks_of(
    alloc: Global,
    run: &CaseRun,
    users: u32,
    tellers: &[Teller],
) -> Result<Tasks, AllocError>
    ensures { IfOk result (AreTasksOf run.now users tellers.now) }
{
    let todo = todo_of(alloc, run.core())?;
    let tasks = with_out(alloc, run, users, tellers, &todo.begin, &todo.out);
    drop(todo);
    tasks
}
