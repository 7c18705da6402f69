//! The entries that workers make.
ghost use Rattle.std.specs.Prelude.{◌≡◌, ℕ, MatchOption};
ghost use Rattle.flow_model.specs.declared.history.Step.{Step};
ghost use Rattle.flow_model.specs.Verdict.{EndsKept};
ghost use Rattle.flow_core.specs.Run.{schema, HasEntryLeft};
ghost use Rattle.flow_core.specs.Next.{IsNext};
ghost use Rattle.flow_core.specs.declared.next.Next.TheVariants as nexts;
ghost use Rattle.flow_crew.specs.Ends.{HasNoEnd};
ghost use Rattle.flow_crew.specs.Moves.{Advances, move_after, IsOut, IsRecorded};

use crate::moves::Move;
use flow_core::{Core, Next};
use flow_model::{Call, FailEffect, Outcome};

/// Makes the entry by which the run goes on, and answers what the caller is to do if no verdict stands then.
pub(crate) fn go_on(core: &mut Core, next: Next, by: u32) -> Move
    requires unfinished { HasNoEnd core.old }
    requires steps { HasEntryLeft core.old }
    requires next { IsNext core.old next }
    requires moves { (claim : ℕ) → ¬ (next ≡ nexts.Wait claim) }
    ensures { (step : Step) × Advances core.old by step core.new × (result ≡ move_after core.new step) }
{
    match next {
        Next::Act(leaf) => act(core, leaf, by),
        Next::Finished => {
            core.commit(by).unwrap();
            Move::Went
        }
        Next::Stuck(_) => {
            core.rewind(by).unwrap();
            Move::Went
        }
        Next::Wait(_) | Next::Ended => unreachable!(),
    }
}

/// Takes an event's leaf, or does another.
fn act(core: &mut Core, leaf: u32, by: u32) -> Move
    requires unfinished { HasNoEnd core.old }
    requires steps { HasEntryLeft core.old }
    requires next { IsNext core.old (nexts.Act leaf) }
    ensures { (step : Step) × Advances core.old by step core.new × (result ≡ move_after core.new step) }
{
    match core.take(leaf, by) {
        Ok(call) => Move::Perform(call),
        Err(_) => {
            core.perform(leaf, by).unwrap();
            Move::Went
        }
    }
}

/// Tells the run the outcome of a call that is out, and answers the leaf of the kept failure with which it then ends.
pub(crate) fn tell(core: &mut Core, call: Call, outcome: Outcome, by: u32) -> Option<u32>
    requires unfinished { HasNoEnd core.old }
    requires steps { HasEntryLeft core.old }
    requires out { IsOut core.old call }
    ensures records { IsRecorded core.old call outcome by core.new }
    ensures failed { MatchOption result ((leaf : ℕ) → ¬ (EndsKept (schema core.new) core.new.history leaf)) (EndsKept (schema core.new) core.new.history) }
{
    match outcome {
        Outcome::Done => {
            let _ = core.done(call.claim, by);
            None
        }
        Outcome::Failed => match core.fail(call.claim, by) {
            Ok(FailEffect::Kept) => match core.rewind(by) {
                Ok(_) => None,
                Err(_) => Some(call.leaf),
            },
            Ok(FailEffect::Switched) => None,
            Err(_) => None,
        },
    }
}
