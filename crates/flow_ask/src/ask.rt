ghost use Rattle.std.specs.Prelude.{◌≡◌};

/// What is asked of a run. It makes one entry of the history, or is refused.
#[derive(Clone, Copy)]
pub enum Ask {
    /// A claim on the leaf.
    Take(u32),
    /// The leaf is to be done.
    Do(u32),
    /// The claim's task succeeded.
    Done(u32),
    /// The claim's task failed.
    Fail(u32),
    /// Back to the last place at which another choice is free.
    Rewind,
    /// The run is to end.
    Commit,
}

impl Ask {
    ghost use Rattle.flow_ask.specs.Ask.{number_of};

    /// The leaf or the claim that it is about; 0 where it is about none.
    pub fn number(self) -> u32
        ensures { result ≡ number_of self }
    {
        match self {
            Ask::Take(leaf) | Ask::Do(leaf) => leaf,
            Ask::Done(claim) | Ask::Fail(claim) => claim,
            Ask::Rewind | Ask::Commit => 0,
        }
    }
}

/// What is shown of a run. It stays as it is.
#[derive(Clone, Copy)]
pub enum Look {
    /// What is to be done next.
    Next,
    /// Which leaves can act.
    Enabled,
    /// The journal.
    Journal,
    /// The facts that hold.
    Facts,
}
