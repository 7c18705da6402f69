//! The laws of who took what, and of duties, each the contract of a function with an empty body.
#![tactic(auto)]

ghost use Rattle.flow_duty_laws.specs.TakerLaws.{DutiesAreKept, LastClaimHasIt, DoneLeavesHaveTakers};

/// Whatever legal history was made, if each claim was left to its taker, duties are kept after every step.
#[tactic(auto, using(crate::proofs::Kept::duties_are_kept))]
pub fn law_duties_are_kept()
    ensures { DutiesAreKept }
{}

/// Who has a leaf of an event, done or under a claim that is out, took the last claim on the event.
#[tactic(auto, using(crate::proofs::Last::last_has_it))]
pub fn law_last_claim_has_it()
    ensures { LastClaimHasIt }
{}

/// Each event leaf that is done has a taker.
pub fn law_done_leaves_have_takers()
    ensures { DoneLeavesHaveTakers }
{}
