ghost use Rattle.std.specs.Prelude.{IfOk, List, ℕ};

use std::alloc::{AllocError, Global};

/// What a sequence of events is of a workflow. Places are counted from 0.
#[derive(Clone, Copy, PartialEq, Eq, Debug)]
pub enum Verdict {
    /// An execution, with silent steps put in where they may be.
    Execution,
    /// The begin of an execution.
    Front,
    /// The events before this place are the begin of an execution, and with this one they are not.
    Deviates { at: u32 },
    /// The same, and the workflow has no event of this name.
    Unknown { at: u32 },
    /// The judge gave up.
    Undecided,
}

/// Says what sequences of events are of a workflow. Several threads may ask one judge at a time.
pub trait Judge: Sync {
    ghost use Rattle.flow_conformance.specs.declared.judge.Verdict.{Verdict};

    // what this judge may say of a sequence
    ghost judges: { Self → List ℕ → Verdict → Type 0 };

    /// The verdict on a sequence. An error is want of memory.
    fn judge(&self, alloc: Global, events: &[u32]) -> Result<Verdict, AllocError>
        ensures { IfOk result (λ verdict. judges self.now events.now verdict) };
}
