//! Why an entry is not made in the new case.
ghost use Rattle.std.specs.Prelude.{◌≡◌, ◌↔◌, ◌<◌, ◌^◌, ℕ, length, IsTrue};
ghost use Rattle.flow_model.specs.declared.history.Step.TheVariants.{Rewound, Committed};
ghost use Rattle.flow_core.specs.Run.{IsUncommitted, HasEntryLeft};
ghost use Rattle.flow_core.specs.Make.{CanMake};
ghost use Rattle.flow_core.specs.Holding.{IsTakeable};
ghost use Rattle.flow_move.specs.Causes.{IsLetByRun, IsCauseOn, IsCauseOf};

use crate::new_names::is_same;
use crate::on_leaf::on_leaf;
use crate::unmoved::Cause;
use flow_core::Core;
use flow_facts::Name;
use flow_model::Step;

/// Whether the run is not over, and there is room for one entry more.
fn goes_on(core: &Core) -> bool
    ensures { IsTrue result ↔ (IsUncommitted core.now × HasEntryLeft core.now) }
{
    !core.committed() && core.history().len() < core.limit() as usize
}

/// Whether the run could step back to there.
#[tactic(auto, using(crate::proofs::RunLemmas::last_open, crate::proofs::RunLemmas::back_there, crate::proofs::RunLemmas::no_way_back))]
fn can_rewind(core: &Core, index: u32) -> bool
    ensures { IsTrue result ↔ CanMake core.now (Rewound index) }
{
    if !goes_on(core) {
        return false;
    }
    match core.open_index() {
        Some(last) => last == index,
        None => false,
    }
}

/// Whether the run could end.
#[tactic(auto, using(crate::proofs::RunLemmas::claim_out, crate::proofs::RunLemmas::can_end))]
fn can_commit(core: &Core) -> bool
    ensures { IsTrue result ↔ CanMake core.now Committed }
{
    if !goes_on(core) {
        return false;
    }
    match core.least_claim() {
        Some(_) => false,
        None => core.is_complete(),
    }
}

/// Whether a claim could be given on the leaf.
fn can_take(core: &Core, leaf: u32) -> bool
    ensures { IsTrue result ↔ IsTakeable core.now leaf }
{
    core.may_take(leaf).is_ok()
}

/// Whether the run could make a step of which duties or rules have a say.
pub(crate) fn is_let_by_run(core: &Core, step: Step) -> bool
    ensures { IsTrue result ↔ IsLetByRun core.now step }
{
    match step {
        Step::Took { claim: _, leaf } => can_take(core, leaf),
        Step::Rewound { index } => can_rewind(core, index),
        Step::Committed => can_commit(core),
        _ => false,
    }
}

/// Why the step is not made on any leaf of the label.
pub(crate) fn cause_on(core: &Core, labels: &[Name], label: &Name, step: Step) -> Cause
    requires few { length labels.now < 2 ^ 32 }
    ensures { IsCauseOn core.now labels.now label.now step (length labels.now) result }
{
    let mut cause = Cause::NoName;
    for (leaf, other) in labels.iter().enumerate() {
        if is_same(other, label) {
            if is_let_by_run(core, on_leaf(step, leaf as u32)) {
                return Cause::Forbidden;
            }
            cause = Cause::NotNow;
        }
    }
    cause
}

/// Why a step that has no leaf is not made.
pub(crate) fn cause_of(core: &Core, step: Step) -> Cause
    ensures { IsCauseOf core.now step result }
{
    if is_let_by_run(core, step) {
        Cause::Forbidden
    } else {
        Cause::NotNow
    }
}
