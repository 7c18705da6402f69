ghost use Rattle.std.specs.Prelude.{◌≡◌};
ghost use Rattle.flow_ask.specs.Refusal.{number_of};

use thiserror::Error;

/// Why nothing comes of an ask: by the run, by a duty of its caller, by the disk that keeps it, or by the rules of a case. A run of
/// itself gives the first twelve.
#[derive(Clone, Copy, Debug, Error)]
pub enum Refusal {
    #[error("the run is over")]
    Closed,
    #[error("there is no such leaf")]
    NoLeaf,
    #[error("the leaf is not of the kind that is asked for")]
    WrongKind,
    #[error("the leaf cannot be taken or done now")]
    NotEnabled,
    #[error("what the leaf tests does not hold now")]
    TestFalse,
    #[error("the claim was never given")]
    NoClaim,
    #[error("the claim is answered")]
    Answered,
    /// The result is recorded, and does not count.
    #[error("the claim is of epoch {of}, and it is epoch {now} now")]
    Late { of: u32, now: u32 },
    #[error("no other choice is free")]
    NoChoice,
    #[error("the journal is no whole execution")]
    Unfinished,
    /// This claim is the least that is out.
    #[error("claim {claim} is out")]
    ClaimsOut { claim: u32 },
    #[error("all {limit} steps are spent")]
    Spent { limit: u32 },
    /// The event is allowed to no role of the caller.
    #[error("the event is allowed to no role of the user")]
    Role,
    /// The event is for other users than the one who has another. Separations are numbered from 0; this one is the least.
    #[error("by separation {0} the event is for other users")]
    Separate(u32),
    /// The event is for the one user who has another. Bindings are numbered from 0; this one is the least.
    #[error("by binding {0} the event is for another user")]
    Bind(u32),
    #[error("the claim was taken by another user")]
    Holder,
    #[error("an earlier step could not be kept")]
    Broken,
    #[error("the step could not be kept")]
    Disk,
    /// A step back would cut this leaf, which is the first one of a final event.
    #[error("leaf {leaf} is done for good")]
    Final { leaf: u32 },
    #[error("the user may not step back")]
    Back,
    #[error("the user may not end the run")]
    Close,
}

impl Refusal {
    /// Its number: 1 to 12 of a run, 13 to 16 of a duty, 17 and 18 of a disk, 19 to 21 of the rules of a case.
    pub fn number(self) -> u8
        ensures { result ≡ number_of self }
    {
        match self {
            Refusal::Closed => 1,
            Refusal::NoLeaf => 2,
            Refusal::WrongKind => 3,
            Refusal::NotEnabled => 4,
            Refusal::TestFalse => 5,
            Refusal::NoClaim => 6,
            Refusal::Answered => 7,
            Refusal::Late { .. } => 8,
            Refusal::NoChoice => 9,
            Refusal::Unfinished => 10,
            Refusal::ClaimsOut { .. } => 11,
            Refusal::Spent { .. } => 12,
            Refusal::Role => 13,
            Refusal::Separate(_) => 14,
            Refusal::Bind(_) => 15,
            Refusal::Holder => 16,
            Refusal::Broken => 17,
            Refusal::Disk => 18,
            Refusal::Final { .. } => 19,
            Refusal::Back => 20,
            Refusal::Close => 21,
        }
    }
}
