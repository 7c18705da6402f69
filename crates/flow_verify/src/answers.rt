/// Whether every execution meets a property.
#[derive(Drop)]
pub enum Verified {
    Holds,
    /// An execution, in event order, that does not meet the property.
    Fails(Vec<u32>),
}

/// Whether a constraint follows from the others.
#[derive(Drop)]
pub enum Redundancy {
    Redundant,
    /// An execution, in event order, that meets the other constraints and not this one.
    Needed(Vec<u32>),
}
