use flow_facts::Name;

/// What a line asks for. Tasks go by the names of their events.
#[derive(Drop)]
pub enum Command {
    /// A claim on the task.
    Take(TaskRef),
    /// The task of the claim succeeded.
    Done(ClaimRef),
    /// It failed.
    Fail(ClaimRef),
    /// A test or an update is to be done.
    Do(StepRef),
    /// Back to the last place at which another choice is free.
    Rewind,
    /// The run is to end.
    Commit,
    /// The updates that nothing waits for are to be done.
    Tidy,
    /// What may be begun, and what is out.
    Todo,
    /// Why the task cannot be taken now.
    Why(TaskRef),
    /// What was done, and by whom.
    History,
    /// What was taken back, and is to be undone outside.
    Undone,
    /// What was taken back by a step back is undone outside.
    TickOff(ClaimRef),
    /// The facts that hold.
    Facts,
    /// All that the run came to.
    Report,
}

/// A task as it is said: the name of its event, and the one leaf of this that is meant, where that is said too.
#[derive(Drop)]
pub struct TaskRef {
    pub name: Name,
    pub leaf: Option<u32>,
}

/// A claim as it is said.
#[derive(Drop)]
pub enum ClaimRef {
    Number(u32),
    /// The one that is out on the task.
    Of(TaskRef),
}

/// A leaf that is no event, as it is said.
#[derive(Drop)]
pub enum StepRef {
    Leaf(u32),
    /// A leaf with this label, as a journal prints it.
    Label(Name),
}
