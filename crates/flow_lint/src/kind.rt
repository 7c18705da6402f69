/// What is found of the thing of a number.
#[derive(Clone, Copy, Debug, PartialEq, Eq)]
pub enum Kind {
    /// The fact is tested, and neither holds at the start nor is ever added.
    NeverAdded,
    /// The fact holds at the start or is added, and is never tested.
    NeverTested,
    /// The event is declared, and no leaf of the goal is an event of it.
    UnusedEvent,
    /// The sub-workflow is declared, and no goal names it. It is the declaration of that number.
    UnusedFlow,
    /// No execution has the leaf.
    DeadLeaf,
    /// The constraint follows from the others.
    Redundant,
    /// Whether the constraint follows from the others would be seen past the limits alone.
    Unsettled,
    /// The constraint names an event that no leaf of the goal has.
    Idle,
    /// The `nop` stands among goals that are done one after another or beside one another. It is the one of that number in the text.
    IdleNop,
    /// The `iso` has a leaf, a `nop` or another `iso` alone inside. It is the one of that number in the text.
    LoneIso,
}
