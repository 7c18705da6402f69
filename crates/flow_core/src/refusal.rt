ghost use Rattle.std.specs.Prelude.{◌≡◌};
ghost use Rattle.flow_core.specs.Ask.{of_take, of_do, of_post, of_rewind, of_commit};

use flow_ask::Refusal;
use thiserror::Error;

/// Why a leaf is not taken.
#[derive(Clone, Copy, Debug, Error)]
pub enum TakeRefusal {
    #[error("the run is over")]
    Closed,
    #[error("there is no such leaf")]
    NoLeaf,
    #[error("the leaf is no event")]
    WrongKind,
    #[error("all {limit} steps are spent")]
    Spent { limit: u32 },
    #[error("the leaf cannot be taken now")]
    NotEnabled,
}

/// Why a leaf that is no event is not done.
#[derive(Clone, Copy, Debug, Error)]
pub enum DoRefusal {
    #[error("the run is over")]
    Closed,
    #[error("there is no such leaf")]
    NoLeaf,
    #[error("the leaf is an event")]
    WrongKind,
    #[error("all {limit} steps are spent")]
    Spent { limit: u32 },
    #[error("the leaf cannot be done now")]
    NotEnabled,
    #[error("what the leaf tests does not hold now")]
    TestFalse,
}

/// Why a result is not posted.
#[derive(Clone, Copy, Debug, Error)]
pub enum PostRefusal {
    #[error("the run is over")]
    Closed,
    #[error("the claim was never given")]
    NoClaim,
    #[error("the claim is answered")]
    Answered,
    #[error("all {limit} steps are spent")]
    Spent { limit: u32 },
    /// The result is recorded, and does not count.
    #[error("the claim is of epoch {of}, and it is epoch {now} now")]
    Late { of: u32, now: u32 },
}

/// Why a run does not go back.
#[derive(Clone, Copy, Debug, Error)]
pub enum RewindRefusal {
    #[error("the run is over")]
    Closed,
    #[error("all {limit} steps are spent")]
    Spent { limit: u32 },
    #[error("no other choice is free")]
    NoChoice,
}

/// Why a run is not committed.
#[derive(Clone, Copy, Debug, Error)]
pub enum CommitRefusal {
    #[error("the run is over")]
    Closed,
    #[error("all {limit} steps are spent")]
    Spent { limit: u32 },
    /// This claim is the least that is out.
    #[error("claim {claim} is out")]
    ClaimsOut { claim: u32 },
    #[error("the journal is no whole execution")]
    Unfinished,
}

impl From<TakeRefusal> for Refusal {
    ghost from_gives = { λ refusal told. told ≡ of_take refusal };

    fn from(refusal: TakeRefusal) -> Refusal {
        match refusal {
            TakeRefusal::Closed => Refusal::Closed,
            TakeRefusal::NoLeaf => Refusal::NoLeaf,
            TakeRefusal::WrongKind => Refusal::WrongKind,
            TakeRefusal::Spent { limit } => Refusal::Spent { limit },
            TakeRefusal::NotEnabled => Refusal::NotEnabled,
        }
    }
}

impl From<DoRefusal> for Refusal {
    ghost from_gives = { λ refusal told. told ≡ of_do refusal };

    fn from(refusal: DoRefusal) -> Refusal {
        match refusal {
            DoRefusal::Closed => Refusal::Closed,
            DoRefusal::NoLeaf => Refusal::NoLeaf,
            DoRefusal::WrongKind => Refusal::WrongKind,
            DoRefusal::Spent { limit } => Refusal::Spent { limit },
            DoRefusal::NotEnabled => Refusal::NotEnabled,
            DoRefusal::TestFalse => Refusal::TestFalse,
        }
    }
}

impl From<PostRefusal> for Refusal {
    ghost from_gives = { λ refusal told. told ≡ of_post refusal };

    fn from(refusal: PostRefusal) -> Refusal {
        match refusal {
            PostRefusal::Closed => Refusal::Closed,
            PostRefusal::NoClaim => Refusal::NoClaim,
            PostRefusal::Answered => Refusal::Answered,
            PostRefusal::Spent { limit } => Refusal::Spent { limit },
            PostRefusal::Late { of, now } => Refusal::Late { of, now },
        }
    }
}

impl From<RewindRefusal> for Refusal {
    ghost from_gives = { λ refusal told. told ≡ of_rewind refusal };

    fn from(refusal: RewindRefusal) -> Refusal {
        match refusal {
            RewindRefusal::Closed => Refusal::Closed,
            RewindRefusal::Spent { limit } => Refusal::Spent { limit },
            RewindRefusal::NoChoice => Refusal::NoChoice,
        }
    }
}

impl From<CommitRefusal> for Refusal {
    ghost from_gives = { λ refusal told. told ≡ of_commit refusal };

    fn from(refusal: CommitRefusal) -> Refusal {
        match refusal {
            CommitRefusal::Closed => Refusal::Closed,
            CommitRefusal::Spent { limit } => Refusal::Spent { limit },
            CommitRefusal::ClaimsOut { claim } => Refusal::ClaimsOut { claim },
            CommitRefusal::Unfinished => Refusal::Unfinished,
        }
    }
}
