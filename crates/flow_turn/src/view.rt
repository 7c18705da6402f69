//! What a caller knows, as the rule of the lock sees it. No value of these types is made.
use std::collections::LinkedList;

/// Where a caller stands.
pub(crate) enum Stage {
    /// It has no ticket.
    Idle,
    /// It has a ticket whose turn it has not seen come.
    Waiting,
    /// It is its turn, and it has the value.
    Serving,
    /// Its pass was joined into the root.
    Joined,
}

/// What one caller knows. The numbers have no upper bound here.
pub(crate) struct View<E, F> {
    pub number: u64,
    /// How many passes were split from this one.
    pub given: u64,
    /// How many of them were not joined.
    pub outs: u64,
    pub stage: Stage,
    /// The ticket that was drawn last.
    pub ticket: u64,
    pub seen: LinkedList<E>,
    /// What the pass that was joined last had seen.
    pub beside: LinkedList<E>,
    pub mine: LinkedList<E>,
    /// Which passes were joined into this one, and the entries of each.
    pub joined: LinkedList<(u64, LinkedList<E>)>,
    /// The part of the value that stays, for as long as the pass is not joined.
    pub part: Option<F>,
}
