/// What is written at a leaf of a goal. Events and facts go by their numbers.
#[derive(Clone, Copy)]
pub enum Label {
    /// A task outside the engine.
    Event(u32),
    /// The fact holds.
    Test(u32),
    /// The fact does not hold.
    Absent(u32),
    /// The fact is added.
    Ins(u32),
    /// The fact is taken away.
    Del(u32),
}

/// What a leaf that is no event asks of its fact, or does to it.
#[derive(Clone, Copy)]
pub enum Deed {
    Test,
    Absent,
    Ins,
    Del,
}

/// What an event's declaration says of the outcome of its task, for a gate that follows it.
#[derive(Clone, Copy, PartialEq, Eq)]
pub enum Note {
    /// It succeeds.
    Done,
    /// It fails.
    Fail,
    /// It fails at so many first attempts, and then succeeds.
    FailFirst(u32),
}
