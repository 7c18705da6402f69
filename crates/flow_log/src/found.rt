/// What the search has found.
#[derive(Clone, Copy)]
pub(crate) enum Found {
    /// The point at that place is one after a whole execution.
    Whole(usize),
    /// There is none such. No point has more of the events than the one at that place.
    Furthest(usize),
    /// The budget is spent.
    Spent,
}
