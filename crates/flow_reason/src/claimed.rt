ghost use Rattle.std.specs.Prelude.{◌≡◌, ◌↔◌, ℕ, IsTrue, MatchOption};
ghost use Rattle.flow_model.specs.declared.history.Step.TheVariants.{Took};
ghost use Rattle.flow_model.specs.Lists.{◌∈◌};
ghost use Rattle.flow_model.specs.Run.{current_leaves, leaf_of_claim, IsCurrent};
ghost use Rattle.flow_core.specs.Run.{now};
ghost use Rattle.flow_reason.specs.Claimed.{IsOutOn, IsOutBy};

use flow_core::Core;
use flow_model::{Entry, Step};

/// A claim that is out, the entry that gave it, and the user who took it.
#[derive(Clone, Copy)]
pub(crate) struct Out {
    pub(crate) claim: u32,
    pub(crate) entry: usize,
    pub(crate) user: u32,
}

/// The leaf of the claim, where that is out.
fn claimed_leaf(core: &Core, claim: u32) -> Option<u32>
    ensures { MatchOption result (¬ (IsCurrent (now core.now) claim)) (λ leaf. IsCurrent (now core.now) claim × (leaf ≡ leaf_of_claim (now core.now) claim)) }
{
    if !core.is_current(claim) {
        return None;
    }
    match core.call_of(claim) {
        Some(call) => Some(call.leaf),
        None => unreachable!(),
    }
}

/// Whether the claim is out, and on the leaf.
fn is_out_on(core: &Core, leaf: u32, claim: u32) -> bool
    ensures { IsTrue result ↔ IsOutOn core.now leaf claim }
{
    match claimed_leaf(core, claim) {
        Some(on) => on == leaf,
        None => false,
    }
}

/// The claim that the entry gave on the leaf, if it gave one.
fn claim_on(entry: Entry, leaf: u32) -> Option<u32>
    ensures { MatchOption result ((claim : ℕ) → ¬ (entry.step ≡ Took claim leaf)) (λ claim. entry.step ≡ Took claim leaf) }
{
    match entry.step {
        Step::Took { claim, leaf: on } if on == leaf => Some(claim),
        _ => None,
    }
}

/// The claim that the entry gave on the leaf, if it gave one that is out.
fn out_by(core: &Core, entry: Entry, leaf: u32) -> Option<u32>
    ensures { MatchOption result ((claim : ℕ) → entry.step ≡ Took claim leaf → ¬ (IsOutOn core.now leaf claim))
        (λ claim. (entry.step ≡ Took claim leaf) × IsOutOn core.now leaf claim) }
{
    let claim = claim_on(entry, leaf)?;
    if is_out_on(core, leaf, claim) {
        Some(claim)
    } else {
        None
    }
}

/// The claim that is out on the leaf, if there is one.
pub(crate) fn claim_out_on(core: &Core, leaf: u32) -> Option<Out>
    ensures { MatchOption result (¬ (leaf ∈ current_leaves (now core.now))) (λ out. IsOutBy core.now leaf out.claim out.entry out.user) }
{
    // the history is legal
    let history = core.history();
    for (entry, made) in history.iter().enumerate() {
        if let Some(claim) = out_by(core, *made, leaf) {
            let user = made.by;
            return Some(Out { claim, entry, user });
        }
    }
    None
}
