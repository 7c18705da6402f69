ghost use Rattle.std.specs.Prelude.{◌≡◌};
ghost use Rattle.flow_goal.specs.Repeats as repeats;

/// Two leaves of one event that stand in one execution.
#[derive(Clone, Copy, Debug)]
pub struct Twice {
    pub event: u32,
    pub first: u32,
    pub second: u32,
}

impl Twice {
    /// Whether the pair comes before the other one: its first leaf, or its second where the first leaves are the same.
    fn is_sooner(self, other: Twice) -> bool
        ensures { result ≡ repeats.is_sooner self other }
    {
        self.first < other.first || (self.first == other.first && self.second < other.second)
    }
}

/// The sooner one of two pairs.
pub(crate) fn sooner(one: Option<Twice>, other: Option<Twice>) -> Option<Twice>
    ensures { result ≡ repeats.sooner one other }
{
    match (one, other) {
        (None, _) => other,
        (Some(held), Some(next)) if next.is_sooner(held) => other,
        (Some(_), _) => one,
    }
}
