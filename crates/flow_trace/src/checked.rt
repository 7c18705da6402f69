/// What a list of leaves is of a workflow. Its own tests and absences are asked of the state, in turn.
#[derive(Clone, Copy)]
pub enum Checked {
    /// A whole execution.
    Execution,
    /// The front of an execution in event order.
    Prefix,
    /// So many leaves are such a front, and with the next one they are not.
    Bad(u32),
}
