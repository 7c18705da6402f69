ghost use Rattle.std.specs.Prelude.{◌≤◌, ◌↔◌, IsTrue};

/// The places of the leaves of a part in the list of all leaves: those from the first up to the end.
#[derive(Clone, Copy, PartialEq, Eq)]
pub(crate) struct Span {
    pub(crate) first: usize,
    pub(crate) end: usize,
}

impl Span {
    /// Whether each of its places is one of the other.
    pub(crate) fn lies_in(self, other: Span) -> bool
        ensures { IsTrue result ↔ (other.first ≤ self.first × self.end ≤ other.end) }
    {
        other.first <= self.first && self.end <= other.end
    }
}
