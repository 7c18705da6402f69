/// A constraint of an event, as it is looked up. Ties are ordered by their events, and then by their indices.
#[derive(Clone, Copy, PartialEq, Eq, PartialOrd, Ord)]
pub struct Tie {
    pub event: u32,
    /// The number of the constraint among those of its kind.
    pub index: u32,
    /// The other event, which may be the same.
    pub other: u32,
}
