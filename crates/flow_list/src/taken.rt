//! What is out in a case: of whom, and since when.
ghost use Rattle.std.specs.Prelude.{◌≡◌, ◌↔◌, ℕ, None, Some, IsTrue, IfOk, MatchOption, map, slice_get};
ghost use Rattle.std.specs.String.{string_bytes};
ghost use Rattle.flow_model.specs.declared.history.Step.TheVariants.{Took};
ghost use Rattle.flow_model.specs.Lists.{Each};
ghost use Rattle.flow_names.specs.Todo.{number_of, IsOutTask};
ghost use Rattle.flow_list.specs.Out.{claim_of, GaveAt, IsToldTaking, IsOutSince};

use flow_core::Core;
use flow_export::Teller;
use flow_model::{Entry, Step};
use flow_names::OutTask;
use flow_record::print_label;
use std::alloc::{AllocError, Global};

/// A task that is out.
#[derive(Drop)]
pub struct TaskOut {
    pub claim: u32,
    pub leaf: u32,
    pub attempt: u32,
    /// The label of the leaf.
    pub task: Vec<u8>,
    /// Who took it.
    pub user: String,
    /// When it was taken.
    pub since: String,
}

/// Who made the entry at a place, if that is told.
pub(crate) fn teller_at(tellers: &[Teller], place: usize) -> Option<&Teller>
    ensures { MatchOption result (slice_get tellers.now place ≡ None) (λ teller. slice_get tellers.now place ≡ Some teller.now) }
{
    tellers.get(place)
}

/// Whether the step gave the claim.
fn gave(step: Step, claim: u32) -> bool
    ensures { IsTrue result ↔ ((leaf : ℕ) × (step ≡ Took claim leaf)) }
{
    match step {
        Step::Took { claim: given, .. } => given == claim,
        _ => false,
    }
}

/// Who took the claim, and when, as the trail tells the entry that gave it.
fn taking<'a>(history: &[Entry], tellers: &'a [Teller], claim: u32) -> Option<&'a Teller>
    ensures { MatchOption result ((place : ℕ) → GaveAt history.now claim place → slice_get tellers.now place ≡ None)
        (λ teller. (place : ℕ) × GaveAt history.now claim place × (slice_get tellers.now place ≡ Some teller.now)) }
{
    for (place, entry) in history.iter().enumerate() {
        if gave(entry.step, claim) {
            return teller_at(tellers, place);
        }
    }
    None
}

/// Who took the claim, and when, as texts.
fn taking_texts(
    alloc: Global,
    history: &[Entry],
    tellers: &[Teller],
    claim: u32,
) -> Result<(String, String), AllocError>
    ensures { IfOk result (λ texts. IsToldTaking history.now tellers.now claim (string_bytes texts.0) (string_bytes texts.1)) }
{
    match taking(history, tellers, claim) {
        Some(teller) => {
            let user = String::from_str(alloc, teller.by.as_str())?;
            let since = String::from_str(alloc, teller.at.as_str())?;
            Ok((user, since))
        }
        None => Ok((String::new(alloc), String::new(alloc))),
    }
}

/// The task of a claim that is out, with who took it and when.
fn task_out(
    alloc: Global,
    core: &Core,
    tellers: &[Teller],
    task: &OutTask,
) -> Result<TaskOut, AllocError>
    requires { IsOutTask core.now task.now }
    ensures claim { IfOk result (λ out. claim_of out ≡ number_of task.now) }
    ensures since { IfOk result (IsOutSince core.now tellers.now) }
{
    let call = task.call;
    let label = print_label(alloc, core.workflow(), call.leaf)?;
    match taking_texts(alloc, core.history(), tellers, call.claim) {
        Ok((user, since)) => Ok(TaskOut {
            claim: call.claim,
            leaf: call.leaf,
            attempt: call.attempt,
            task: label,
            user,
            since,
        }),
        Err(error) => Err(error),
    }
}

/// The tasks that are out, with who took each and when.
#[tactic(auto, using(crate::proofs::ListSteps::mapped_none, crate::proofs::ListSteps::mapped_more, crate::proofs::ListSteps::mapped_all, crate::proofs::ListSteps::mapped_itself, crate::proofs::ListSteps::each_more, crate::proofs::ListSteps::each_at))]
pub(crate) fn tasks_out(
    alloc: Global,
    core: &Core,
    tellers: &[Teller],
    tasks: &[OutTask],
) -> Result<Vec<TaskOut>, AllocError>
    requires { Each (IsOutTask core.now) tasks.now }
    ensures claims { IfOk result (λ out. map claim_of out.items ≡ map number_of tasks.now) }
    ensures since { IfOk result (λ out. Each (IsOutSince core.now tellers.now) out.items) }
{
    let mut out = Vec::new(alloc);
    for task in tasks {
        out.push(task_out(alloc, core, tellers, task)?)?;
    }
    Ok(out)
}
