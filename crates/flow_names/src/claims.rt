//! The claims that a name may mean.
ghost use Rattle.std.specs.Prelude.{◌≡◌, ◌↔◌, IsTrue, MatchOption};
ghost use Rattle.flow_core.specs.Answers.{IsLeast};
ghost use Rattle.flow_names.specs.Meaning.{NoneHas, IsThat, IsOutOn};

use crate::leaves::has_event;
use crate::todo::claim_bound;
use flow_core::Core;

/// The least claim that is out on a leaf of the event, and on that leaf where one is said.
pub(crate) fn claim_out(core: &Core, event: u32, said: Option<u32>) -> Option<u32>
    ensures { MatchOption result (NoneHas (IsOutOn core.now event said)) (IsLeast (IsOutOn core.now event said)) }
{
    for claim in 0..claim_bound(core) {
        if is_out_on(core, event, said, claim as u32) {
            return Some(claim as u32);
        }
    }
    None
}

/// Whether the claim is out on a leaf of the event, and on that leaf where one is said.
fn is_out_on(core: &Core, event: u32, said: Option<u32>, claim: u32) -> bool
    ensures { IsTrue result ↔ IsOutOn core.now event said claim }
{
    if !core.is_current(claim) {
        return false;
    }
    match core.call_of(claim) {
        Some(call) => has_event(core, call.leaf, event) && is_that(said, call.leaf),
        None => false,
    }
}

/// Whether it is the leaf that is said, where one is.
fn is_that(said: Option<u32>, leaf: u32) -> bool
    ensures { IsTrue result ↔ IsThat said leaf }
{
    match said {
        Some(said) => leaf == said,
        None => true,
    }
}
