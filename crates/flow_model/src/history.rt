use crate::labels::Note;

/// One step of a run, and the number of the caller that made it.
#[derive(Clone, Copy)]
pub struct Entry {
    pub by: u32,
    pub step: Step,
}

/// What one entry of a history does.
#[derive(Clone, Copy)]
pub enum Step {
    /// A claim is given on an event's leaf.
    Took { claim: u32, leaf: u32 },
    /// The claim's task succeeded.
    Done { claim: u32 },
    /// The claim's task failed.
    Failed { claim: u32, effect: FailEffect },
    /// A result came for a claim of an older epoch: it does not count.
    Late { claim: u32 },
    /// A test, an absence, an insertion or a deletion was performed.
    Did { leaf: u32 },
    /// The journal was cut back to this length.
    Rewound { index: u32 },
    /// The run is over.
    Committed,
}

/// Whether the run goes on without the leaf of a failed task.
#[derive(Clone, Copy)]
pub enum FailEffect {
    /// Some execution that is still free lacks the leaf: it is banned.
    Switched,
    /// Every execution that is still free has the leaf: it may be taken again.
    Kept,
}

/// What a gate is asked to perform.
#[derive(Clone, Copy, PartialEq, Eq)]
pub struct Call {
    pub claim: u32,
    pub leaf: u32,
    pub event: u32,
    /// How many claims on leaves of this event were given so far, this one included.
    pub attempt: u32,
    pub note: Note,
}

/// What a gate answers.
#[derive(Clone, Copy)]
pub enum Outcome {
    Done,
    Failed,
}
