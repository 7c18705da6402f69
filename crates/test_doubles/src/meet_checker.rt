use crate::meet::has_met;
use flow_audit::{Checker, Finding};
use flow_trace::Checked;
use std::alloc::{AllocError, Global};
use std::sync::atomic::AtomicBool;

/// A checker of the texts `0` and `1`: each is an execution where its check sees that of the other at work, and else the front
/// of one. Any other text is an execution.
#[derive(Drop)]
pub struct MeetChecker {
    turns: u64,
    first_came: AtomicBool,
    second_came: AtomicBool,
}

impl MeetChecker {
    ghost use Rattle.std.specs.Prelude.{◌≡◌};

    /// A check of one of the two looks for the other at most so many times.
    pub fn new(turns: u64) -> MeetChecker
        ensures { result.turns ≡ turns }
    {
        MeetChecker {
            turns,
            first_came: AtomicBool::new(false),
            second_came: AtomicBool::new(false),
        }
    }
}

impl Checker for MeetChecker {
    ghost use Rattle.test_doubles.specs.Meetings.{MayBeFound};

    ghost finds = { λ _ text finding. MayBeFound text finding };

    fn check(&self, _alloc: Global, text: &[u8]) -> Result<Finding, AllocError> {
        let met = match text {
            [b'0'] => has_met(&self.first_came, &self.second_came, self.turns),
            [b'1'] => has_met(&self.second_came, &self.first_came, self.turns),
            _ => true,
        };
        Ok(Finding::Checked(if met {
            Checked::Execution
        } else {
            Checked::Prefix
        }))
    }
}
