ghost use Rattle.std.specs.Prelude.{◌↔◌, IsTrue};
ghost use Rattle.flow_stages.specs.Fitting.{AreForOne};

/// What is wanted of takers for the events of a run.
#[derive(Clone, Copy)]
pub enum Wanted {
    /// That there are any.
    Anybody,
    /// That these two events go to one user.
    OneFor(u32, u32),
    /// That there are some under which nobody may take this event.
    NobodyFor(u32),
}

impl Wanted {
    /// Whether these are the two events that are to go to one user.
    pub(crate) fn is_of(self, event: u32, other: u32) -> bool
        ensures { IsTrue result ↔ AreForOne self event other }
    {
        match self {
            Wanted::OneFor(one, two) => {
                event == one && other == two || event == two && other == one
            }
            Wanted::Anybody | Wanted::NobodyFor(_) => false,
        }
    }
}
