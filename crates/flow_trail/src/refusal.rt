ghost use Rattle.std.specs.Prelude.{◌≡◌};

use std::alloc::{AllocError, AllocFailed};
use thiserror::Error;

/// Why a trail is not read.
#[derive(Clone, Copy, Debug, Error)]
pub enum ReadRefusal {
    /// The first line, from 1, that is not spelt as it is printed, has not its seal, or may not stand there.
    #[error("line {line} of the trail is no line of it: it is changed, or one before it is missing")]
    BadLine { line: usize },
    #[error("out of memory")]
    NoMemory,
}

impl From<AllocError> for ReadRefusal {
    ghost use Rattle.flow_trail.specs.declared.refusal.ReadRefusal.TheVariants.{NoMemory};

    ghost from_gives = { λ _ e. e ≡ NoMemory };

    fn from(_error: AllocError) -> ReadRefusal {
        ReadRefusal::NoMemory
    }
}

impl<T: Drop> From<AllocFailed<T>> for ReadRefusal {
    ghost use Rattle.flow_trail.specs.declared.refusal.ReadRefusal.TheVariants.{NoMemory};

    ghost from_gives = { λ _ e. e ≡ NoMemory };

    fn from(_failed: AllocFailed<T>) -> ReadRefusal {
        ReadRefusal::NoMemory
    }
}

/// Why a line is not told. The causes are looked for in this order.
#[derive(Clone, Copy, Debug, Error)]
pub enum TellRefusal {
    /// Nothing is told any more.
    #[error("an earlier line could not be kept")]
    Broken,
    /// A void line stands behind a line that tells an entry, and no more than 4,294,967,295 entries are told.
    #[error("the line may not stand there")]
    OutOfPlace,
    #[error("out of memory")]
    NoMemory,
    /// A trail has at most 1 TiB.
    #[error("the trail is full")]
    Full,
    /// The file may have the line or not.
    #[error("the disk failed")]
    DiskFault,
}

impl From<AllocError> for TellRefusal {
    ghost use Rattle.flow_trail.specs.declared.refusal.TellRefusal.TheVariants.{NoMemory};

    ghost from_gives = { λ _ e. e ≡ NoMemory };

    fn from(_error: AllocError) -> TellRefusal {
        TellRefusal::NoMemory
    }
}

impl<T: Drop> From<AllocFailed<T>> for TellRefusal {
    ghost use Rattle.flow_trail.specs.declared.refusal.TellRefusal.TheVariants.{NoMemory};

    ghost from_gives = { λ _ e. e ≡ NoMemory };

    fn from(_failed: AllocFailed<T>) -> TellRefusal {
        TellRefusal::NoMemory
    }
}

/// Why a trail is not opened.
#[derive(Clone, Copy, Debug, Error)]
pub enum OpenRefusal {
    #[error("the disk failed")]
    DiskFault,
    /// The first line, from 1, that is none: it is changed, or one before it is missing.
    #[error("line {line} of the trail is no line of it: it is changed, or one before it is missing")]
    BadLine { line: usize },
    /// It tells fewer entries than there are, or more than one more.
    #[error("the trail tells {told} entries")]
    Count { told: u32 },
    /// A trail has at most 1 TiB.
    #[error("the trail is full")]
    Full,
    #[error("out of memory")]
    NoMemory,
}

impl From<AllocError> for OpenRefusal {
    ghost use Rattle.flow_trail.specs.declared.refusal.OpenRefusal.TheVariants.{NoMemory};

    ghost from_gives = { λ _ e. e ≡ NoMemory };

    fn from(_error: AllocError) -> OpenRefusal {
        OpenRefusal::NoMemory
    }
}

impl From<ReadRefusal> for OpenRefusal {
    ghost use Rattle.flow_trail.specs.Opened.{of_read};

    ghost from_gives = { λ refusal told. told ≡ of_read refusal };

    fn from(refusal: ReadRefusal) -> OpenRefusal {
        match refusal {
            ReadRefusal::BadLine { line } => OpenRefusal::BadLine { line },
            ReadRefusal::NoMemory => OpenRefusal::NoMemory,
        }
    }
}

/// Why a trail is not whole, or not that of a history. The causes are looked for in this order.
#[derive(Clone, Copy, Debug, Error)]
pub enum VerifyRefusal {
    /// The first line, from 1, that is not spelt as it is printed, has not its seal, or may not stand there.
    #[error("line {line} of the trail is no line of it: it is changed, or one before it is missing")]
    BadLine { line: usize },
    /// The first line, from 1, that tells another entry than the next of the history, or one behind its last, and is not the last line.
    #[error("line {line} of the trail tells another entry than the history has there")]
    Other { line: usize },
    /// The first entry, from 1, that no line tells.
    #[error("no line of the trail tells entry {entry}")]
    Missing { entry: usize },
    #[error("out of memory")]
    NoMemory,
}

impl From<ReadRefusal> for VerifyRefusal {
    ghost use Rattle.flow_trail.specs.Due.{of_read};

    ghost from_gives = { λ refusal told. told ≡ of_read refusal };

    fn from(refusal: ReadRefusal) -> VerifyRefusal {
        match refusal {
            ReadRefusal::BadLine { line } => VerifyRefusal::BadLine { line },
            ReadRefusal::NoMemory => VerifyRefusal::NoMemory,
        }
    }
}
