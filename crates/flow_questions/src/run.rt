//! A run with takers, made entry by entry.
ghost use Rattle.std.specs.Prelude.{◌≡◌, ◌∷◌, ◌++◌, ◌+◌, ◌<◌, ◌≤◌, ◌^◌, [], ℕ, List, IsTrue, length, Some, None};
ghost use Rattle.flow_model.specs.declared.limits.TheConstants.{MOST_LEAVES};
ghost use Rattle.flow_model.specs.Facts.{event_at, events_of};
ghost use Rattle.flow_model.specs.Run.{IsLegal};
ghost use Rattle.flow_laws.specs.WellFormed.{IsWellFormed};
ghost use Rattle.flow_core.specs.Run.{schema};
ghost use Rattle.flow_stages.specs.declared.question.Question.{Question};
ghost use Rattle.flow_stages.specs.Fitting.{taker_by};
ghost use Rattle.flow_questions.specs.Questions.{IsFoundBy, IsFresh, IsRunOfSame};
ghost use Rattle.flow_questions.specs.Made.{AreDone, IsNext};

use flow_case::RuledRun;
use flow_core::Core;
use flow_model::{Entry, Step};

/// The user who takes the event; 0 where none does.
fn taker_of(takers: &[(u32, u32)], event: u32) -> u32
    ensures { result ≡ taker_by takers.now event }
{
    for one in takers {
        if one.0 == event {
            return one.1;
        }
    }
    0
}

/// What a run keeps: its history is legal, and its workflow is well-formed and small.
pub(crate) fn recall(run: &RuledRun)
    ensures legal { IsLegal (schema run.now.desk.run) run.now.desk.run.limit run.now.desk.run.history }
    ensures well_formed { IsWellFormed (schema run.now.desk.run) }
    ensures small { length (schema run.now.desk.run).labels ≤ MOST_LEAVES }
{
    let core = run.core();
    let _ = core.history();
    let _ = core.workflow().tree();
}

/// Takes the leaf of an event for the user, under the claim of that number, and does it.
fn do_event(run: &mut RuledRun, leaf: u32, claim: u32, by: u32) -> bool
    ensures same { IsRunOfSame run.old run.new }
    ensures made { (leaves : List ℕ) (to : ℕ → ℕ) (event : ℕ) → IsNext run.old leaves to leaf claim → event_at (schema run.old.desk.run).labels leaf ≡ Some event → by ≡ to event →
        IsTrue result × AreDone run.new (leaves ++ leaf ∷ []) to }
{
    recall(run);
    let taken = Entry {
        by,
        step: Step::Took { claim, leaf },
    };
    if !run.make(taken) {
        return false;
    }
    run.make(Entry {
        by,
        step: Step::Done { claim },
    })
}

/// Does a leaf that is no event's.
fn do_other(run: &mut RuledRun, leaf: u32) -> bool
    ensures same { IsRunOfSame run.old run.new }
    ensures made { (leaves : List ℕ) (to : ℕ → ℕ) (claim : ℕ) → IsNext run.old leaves to leaf claim → event_at (schema run.old.desk.run).labels leaf ≡ None →
        IsTrue result × AreDone run.new (leaves ++ leaf ∷ []) to }
{
    recall(run);
    run.make(Entry {
        by: 0,
        step: Step::Did { leaf },
    })
}

/// Does the leaf: an event is taken and done by its taker, under the claim of that number.
fn do_leaf(run: &mut RuledRun, leaf: u32, claim: u32, takers: &[(u32, u32)]) -> bool
    ensures same { IsRunOfSame run.old run.new }
    ensures made { (leaves : List ℕ) → IsNext run.old leaves (taker_by takers.now) leaf claim → IsTrue result × AreDone run.new (leaves ++ leaf ∷ []) (taker_by takers.now) }
{
    match run.core().workflow().tree().event(leaf) {
        Some(event) => do_event(run, leaf, claim, taker_of(takers, event)),
        None => do_other(run, leaf),
    }
}

/// The number of the next claim once the leaf is done.
fn claim_after(core: &Core, leaf: u32, claim: u32) -> u32
    ensures { claim + 1 < 2 ^ 32 → result ≡ claim + length (events_of (schema core.now).labels (leaf ∷ [])) }
{
    match core.workflow().tree().event(leaf) {
        Some(_) => claim.saturating_add(1),
        None => claim,
    }
}

/// Does the leaves in turn, up to the first that is refused, and says whether all are done: they are, where the run is fresh and they were
/// found.
#[tactic(auto, using(crate::proofs::StaffLemmas::same_again))]
pub(crate) fn do_all(run: &mut RuledRun, leaves: &[u32], takers: &[(u32, u32)]) -> bool
    ensures same { IsRunOfSame run.old run.new }
    ensures made { (question : Question) (event : ℕ) → IsFresh run.old → IsFoundBy run.old question leaves.now takers.now event →
        IsTrue result × AreDone run.new leaves.now (taker_by takers.now) }
{
    recall(run);
    let mut claim: u32 = 1;
    for leaf in leaves {
        if !do_leaf(run, *leaf, claim, takers) {
            return false;
        }
        claim = claim_after(run.core(), *leaf, claim);
    }
    true
}
