//! The steps that a task waits for, found by asking a scout.
ghost use Rattle.std.specs.Prelude.{◌≡◌, ◌↔◌, ℕ, IsTrue, IfOk, MatchOption};
ghost use Rattle.flow_core.specs.Answers.{IsLeast};
ghost use Rattle.flow_names.specs.Meaning.{NoneHas};
ghost use Rattle.flow_names.specs.Steps.{IsStepBefore, LeadTo, Does};

use crate::leaves::may_take;
use crate::sequence::stands_before;
use flow_ask::Ask;
use flow_core::{Asked, Core};
use flow_model::Label;
use std::alloc::{AllocError, Global};

/// The tests and updates that are to be done before a claim on the leaf is given. They are found by asking a scout, a run of its own
/// with the same history, to do them; it is of no further use. Where the leaf may be taken at once there are none, and so it is where
/// they come to no end: then the leaf cannot be taken, and nothing is to be asked of the run before it says so.
pub fn steps_to_take<R: Asked>(
    alloc: Global,
    scout: &mut R,
    leaf: u32,
    by: u32,
) -> Result<Vec<u32>, AllocError>
    requires { R.can_be_asked scout.old }
    ensures steps { IfOk result (λ steps. LeadTo R.run R.answers (R.run scout.old) by leaf steps.items scout.new) }
    ensures lasts { R.can_be_asked scout.new }
{
    let mut steps = Vec::new(alloc);
    while !may_take(scout.core(), leaf) {
        scout.look_ahead();
        let Some(step) = least_step_before(scout.core(), leaf) else {
            return Ok(Vec::new(alloc));
        };
        if !does(scout, step, by) {
            return Ok(Vec::new(alloc)); // it comes to no end
        }
        steps.push(step)?;
    }
    Ok(steps)
}

/// Asks for the step, and tells whether it was done.
pub(crate) fn does<R: Asked>(scout: &mut R, step: u32, by: u32) -> bool
    requires { R.can_be_asked scout.old }
    ensures does { Does R.run R.answers scout.old by step result scout.new }
    ensures lasts { R.can_be_asked scout.new }
{
    let entries = scout.core().history().len();
    if entries >= scout.core().limit() as usize {
        return false;
    }
    let _ = scout.answer(Ask::Do(step), by);
    scout.core().history().len() > entries
}

/// Whether some step before the leaf may be done now. Whether the steps lead to the leaf is found out by a scout.
pub fn waits_for_step(core: &Core, leaf: u32) -> bool
    ensures { IsTrue result ↔ ((step : ℕ) × IsStepBefore core.now leaf step) }
{
    least_step_before(core, leaf).is_some()
}

/// The least step before the leaf that may be done now.
fn least_step_before(core: &Core, leaf: u32) -> Option<u32>
    ensures { MatchOption result (NoneHas (IsStepBefore core.now leaf)) (IsLeast (IsStepBefore core.now leaf)) }
{
    for step in 0..core.workflow().tree().leaves() {
        if is_step_before(core, leaf, step) {
            return Some(step);
        }
    }
    None
}

/// Whether the step is no event, stands before the leaf in the goal, and may be done now.
fn is_step_before(core: &Core, leaf: u32, step: u32) -> bool
    ensures { IsTrue result ↔ IsStepBefore core.now leaf step }
{
    let tree = core.workflow().tree();
    match tree.label(step) {
        None | Some(Label::Event(_)) => false,
        Some(_) => core.can_act(step) && stands_before(tree.goal(), step, leaf),
    }
}
