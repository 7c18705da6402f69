use crate::refusal::Refusal;
use flow_model::{Call, FailEffect};

/// What came of an ask: one entry of the history.
#[derive(Clone, Copy)]
pub enum Made {
    /// A claim, of the present epoch.
    Claim(Call),
    /// The leaf is done.
    Did,
    /// The claim's leaf is done.
    Done,
    /// The claim's task failed.
    Failed(FailEffect),
    /// The run is back at that place of its journal.
    Rewound(u32),
    /// The run is over.
    Committed,
}

/// What is answered to an ask: what was made, or why nothing was.
pub type Answer = Result<Made, Refusal>;
