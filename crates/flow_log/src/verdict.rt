/// How a list of events fits a workflow.
#[derive(Drop)]
pub enum Fit {
    /// These leaves are an execution that has just these events.
    Execution(Vec<u32>),
    /// These leaves begin an execution, and have just these events, which no whole execution has.
    Front(Vec<u32>),
    /// So many of the events fit, and the next one cannot come there.
    Deviates { at: u32 },
    /// So many of the events fit, and the next one is none of the workflow.
    Unknown { at: u32 },
    /// The budget was spent first.
    Undecided,
}
