ghost use Rattle.std.specs.Prelude.{◌≡◌, codes};
ghost use Rattle.flow_export.specs.Rows.{word_of};

/// What happened to a leaf of a workflow.
#[derive(Clone, Copy, Debug, PartialEq, Eq)]
pub enum Lifecycle {
    /// A task was given to somebody.
    Start,
    /// A task was done; or a test or a change of a fact was made.
    Complete,
    /// A task failed.
    Fail,
    /// A result came for a task that was given up: it does not count.
    Late,
    /// A step back took a task that was done.
    Undone,
}

impl Lifecycle {
    /// Its word in an event log.
    pub fn word(self) -> &'static str
        ensures { result.now ≡ word_of self }
    {
        match self {
            Lifecycle::Start => "start",
            Lifecycle::Complete => "complete",
            Lifecycle::Fail => "fail",
            Lifecycle::Late => "late",
            Lifecycle::Undone => "undone",
        }
    }
}

/// An event of a history, as an event log has it.
#[derive(Clone, Copy)]
pub struct LogEvent {
    /// The place of its entry in the history, from 0.
    pub place: usize,
    pub leaf: u32,
    pub lifecycle: Lifecycle,
    /// Whether the leaf stands on the journal by this entry, after the whole history.
    pub counts: bool,
}
