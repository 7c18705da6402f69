ghost use Rattle.std.specs.Prelude.{◌≡◌, ◌<◌, ◌==◌, length, slice_get};
ghost use Rattle.std.specs.List.{position_from};
ghost use Rattle.flow_model.specs.Lists.{Each};
ghost use Rattle.flow_residual.specs.Given.{renewed_at};

/// A claim that was given. Its number is its place, counted from 1.
#[derive(Clone, Copy)]
pub struct Given {
    pub leaf: u32,
    pub event: u32,
    /// To whom it was given.
    pub by: u32,
    /// The epoch in which it was given, or the last that began and spared it.
    pub epoch: u32,
    /// How many claims were given on the event up to this one.
    pub attempt: u32,
    pub answered: bool,
}

/// The claim at the place.
pub(crate) fn at(given: &[Given], place: u32) -> Option<Given>
    ensures { result ≡ slice_get given.now place }
{
    given.get(place as usize).copied()
}

/// Where the place stands among the places.
pub(crate) fn index_of(places: &[u32], place: u32) -> Option<usize>
    ensures { result ≡ position_from (λ other. other == place) 0 places.now }
{
    places.iter().position(|other| *other == place)
}

/// The claims at the places are of the epoch.
pub(crate) fn renew(given: &mut [Given], places: &[u32], epoch: u32)
    requires { Each (λ place. place < length given.old) places.now }
    ensures { given.new ≡ renewed_at epoch places.now given.old }
{
    for place in places {
        given[*place as usize].epoch = epoch;
    }
}
