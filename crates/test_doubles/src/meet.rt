ghost use Rattle.std.specs.Prelude.{◌≡◌, ◌≢◌, true};
ghost use Rattle.flow_model.specs.declared.history.Outcome.TheVariants as outcome;

use flow_gate::Gate;
use flow_model::{Call, Outcome};
use std::sync::atomic::{AtomicBool, Ordering};

/// Two tasks that succeed only where each sees the other at work. All others succeed.
#[derive(Drop)]
pub struct MeetGate {
    first: u32,
    second: u32,
    turns: u64,
    first_came: AtomicBool,
    second_came: AtomicBool,
}

impl MeetGate {
    /// The tasks of these two leaves are to meet. Each looks for the other at most so many times.
    pub fn new(first: u32, second: u32, turns: u64) -> MeetGate
        ensures first { result.first ≡ first }
        ensures second { result.second ≡ second }
        ensures turns { result.turns ≡ turns }
    {
        MeetGate {
            first,
            second,
            turns,
            first_came: AtomicBool::new(false),
            second_came: AtomicBool::new(false),
        }
    }
}

impl Gate for MeetGate {
    ghost gives = { λ _ _. true };

    fn perform(&self, call: Call) -> Outcome
        ensures gives { true ≡ true }
        ensures others { call.leaf ≢ self.now.first → call.leaf ≢ self.now.second → result ≡ outcome.Done }
    {
        if call.leaf == self.first {
            outcome_of(has_met(&self.first_came, &self.second_came, self.turns))
        } else if call.leaf == self.second {
            outcome_of(has_met(&self.second_came, &self.first_came, self.turns))
        } else {
            Outcome::Done
        }
    }
}

/// How a task ends that met the other, or did not.
fn outcome_of(met: bool) -> Outcome {
    if met { Outcome::Done } else { Outcome::Failed }
}

/// Raises a flag, and looks for the other's at most so many times: whether it was seen.
pub(crate) fn has_met(mine: &AtomicBool, other: &AtomicBool, turns: u64) -> bool {
    mine.store(true, Ordering::SeqCst);
    for _ in 0..turns {
        if other.load(Ordering::SeqCst) {
            return true;
        }
    }
    false
}
