/// An entry of a history, as its line has to tell it.
#[derive(Drop)]
pub struct Due {
    /// The name of the user.
    pub by: String,
    /// The step in words, as a history has it.
    pub entry: String,
    /// The name of the task, or the label of the leaf.
    pub task: String,
}

/// What a line tells of an entry.
#[derive(Clone, Copy)]
pub(crate) enum Tale {
    /// None that stands.
    Nothing,
    /// The one that is expected.
    Expected,
    /// One more than are due, in the last line.
    Next,
    /// Another one.
    Other,
}
