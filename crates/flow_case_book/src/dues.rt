//! What the trail has to tell of the entries of a run.
ghost use Rattle.std.specs.Prelude.{◌≡◌, ℕ, map, IfOk, MatchOption};
ghost use Rattle.flow_model.specs.declared.history.Step.TheVariants.{Took};
ghost use Rattle.flow_trail.specs.Due.{entered_of};
ghost use Rattle.flow_case_book.specs.People.{names_in};
ghost use Rattle.flow_case_book.specs.Due.{IsLeafOfClaim, IsLeafOfStep, IsDue, AreDueOf};

use crate::names::Names;
use flow_case_cli::{step_words, task_name};
use flow_core::Core;
use flow_model::{Entry, Step};
use flow_trail::Due;
use std::alloc::{AllocError, Global};

/// The leaf on which the step gives the claim, if it does.
fn leaf_given(step: Step, claim: u32) -> Option<u32>
    ensures { MatchOption result ((leaf : ℕ) → ¬ (step ≡ Took claim leaf)) (λ leaf. step ≡ Took claim leaf) }
{
    match step {
        Step::Took { claim: given, leaf } if given == claim => Some(leaf),
        _ => None,
    }
}

/// The leaf on which the claim was given, if it was given.
#[tactic(auto, using(crate::proofs::DueLemmas::not_given, crate::proofs::DueLemmas::member_at, crate::proofs::DueLemmas::none_gave))]
fn leaf_of_claim(history: &[Entry], claim: u32) -> Option<u32>
    ensures { IsLeafOfClaim history.now claim result }
{
    for entry in history {
        if let Some(leaf) = leaf_given(entry.step, claim) {
            return Some(leaf);
        }
    }
    None
}

/// The leaf that a step is about, if it is about one.
fn leaf_of(history: &[Entry], step: Step) -> Option<u32>
    ensures { IsLeafOfStep history.now step result }
{
    match step {
        Step::Took { leaf, .. } | Step::Did { leaf } => Some(leaf),
        Step::Done { claim } | Step::Failed { claim, .. } | Step::Late { claim } => {
            leaf_of_claim(history, claim)
        }
        Step::Rewound { .. } | Step::Committed => None,
    }
}

/// What a line has to tell of the entry.
fn due_of(alloc: Global, core: &Core, names: &Names, entry: Entry) -> Result<Due, AllocError>
    ensures { IfOk result (λ due. IsDue (names_in names.now) core.now entry (entered_of due)) }
{
    let leaf = leaf_of(core.history(), entry.step);
    Ok(Due {
        by: String::from_str(alloc, names.name_of(entry.by))?,
        entry: step_words(alloc, entry.step)?,
        task: task_name(alloc, core.workflow(), leaf)?,
    })
}

/// What the lines have to tell of the entries, in order.
#[tactic(auto, using(crate::proofs::DueLemmas::one_more_due, crate::proofs::DueLemmas::all_due))]
pub(crate) fn dues(alloc: Global, core: &Core, names: &Names) -> Result<Vec<Due>, AllocError>
    ensures { IfOk result (λ dues. AreDueOf (names_in names.now) core.now (map entered_of dues.items)) }
{
    let mut dues = Vec::new(alloc);
    for entry in core.history() {
        dues.push(due_of(alloc, core, names, *entry)?)?;
    }
    Ok(dues)
}
