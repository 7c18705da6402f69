use flow_trace::Checked;

/// What is found of the text of a journal. Lines are counted from 0 within it.
#[derive(Clone, Copy)]
pub enum Finding {
    /// What its leaves are of the workflow.
    Checked(Checked),
    /// The least line that is not as it must be.
    BadLine(u32),
    /// All lines are as they must be: the least line whose label is not that of its leaf.
    Label(u32),
}
