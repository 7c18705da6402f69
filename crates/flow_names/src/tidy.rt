//! The updates that can be done at once, found by asking a scout.
ghost use Rattle.std.specs.Prelude.{◌≡◌, ◌+◌, ◌≤◌, ◌↔◌, length, IsTrue, IfOk, MatchOption};
ghost use Rattle.flow_model.specs.Run.{IsOpen};
ghost use Rattle.flow_core.specs.Run.{schema, now};
ghost use Rattle.flow_core.specs.Answers.{IsLeast};
ghost use Rattle.flow_names.specs.Meaning.{NoneHas};
ghost use Rattle.flow_names.specs.Tidy.{IsUpdateNow, Tidies};

use crate::scout::does;
use flow_core::{Asked, Core};
use flow_model::Label;
use std::alloc::{AllocError, Global};

/// The updates that `tidy` does. They are found by asking a scout, a run of its own with the same history, to do them; it is of no
/// further use. Each is the least that may be done when its turn comes, and closes off no choice. The first that does ends the list.
pub fn tidy_steps<R: Asked>(alloc: Global, scout: &mut R, by: u32) -> Result<Vec<u32>, AllocError>
    requires { R.can_be_asked scout.old }
    ensures tidy { IfOk result (λ steps. Tidies R.run R.answers (R.run scout.old) by steps.items scout.new) }
    ensures lasts { R.can_be_asked scout.new }
{
    let mut steps = Vec::new(alloc);
    while let Some(step) = next_update(scout) {
        let place = scout.core().journal().len();
        if !does(scout, step, by) {
            return Ok(steps);
        }
        if is_open_at_end(scout.core(), place) {
            return Ok(steps);
        }
        steps.push(step)?;
    }
    Ok(steps)
}

/// The least update that may be done now.
fn next_update<R: Asked>(scout: &mut R) -> Option<u32>
    ensures run { R.run scout.new ≡ R.run scout.old }
    ensures lasts { R.can_be_asked scout.old → R.can_be_asked scout.new }
    ensures least { MatchOption result (NoneHas (IsUpdateNow (R.run scout.old))) (IsLeast (IsUpdateNow (R.run scout.old))) }
{
    scout.look_ahead();
    least_update(scout.core())
}

/// The least update that may be done now.
fn least_update(core: &Core) -> Option<u32>
    ensures { MatchOption result (NoneHas (IsUpdateNow core.now)) (IsLeast (IsUpdateNow core.now)) }
{
    for leaf in 0..core.workflow().tree().leaves() {
        if is_update_now(core, leaf) {
            return Some(leaf);
        }
    }
    None
}

/// Whether the leaf is an update, and may be done now.
fn is_update_now(core: &Core, leaf: u32) -> bool
    ensures { IsTrue result ↔ IsUpdateNow core.now leaf }
{
    match core.workflow().tree().label(leaf) {
        Some(Label::Ins(_) | Label::Del(_)) => core.can_act(leaf),
        _ => false,
    }
}

/// Whether another choice is still free at the last place of the journal.
fn is_open_at_end(core: &Core, place: usize) -> bool
    requires { length (now core.now).journal ≤ place + 1 }
    ensures { IsTrue result ↔ IsOpen (schema core.now) (now core.now) place }
{
    match core.open_index() {
        Some(index) => index as usize == place,
        None => false,
    }
}
