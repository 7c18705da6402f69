use std::alloc::{AllocError, AllocFailed};

/// A column that a log has, or may have.
#[derive(Clone, Copy, PartialEq, Eq, Debug)]
pub enum Column {
    Case,
    Activity,
    Time,
}

/// Why a log is refused. Lines are counted from 1.
#[derive(Debug, Drop)]
pub enum LogRefusal {
    /// There is no first row.
    Empty,
    /// The first row lacks a column; these are there.
    NoColumn {
        column: Column,
        header: Vec<Vec<u8>>,
    },
    /// A time is not one of ISO 8601.
    BadTime {
        line: u64,
    },
    /// A time has a zone where those above it have none, or has none where they have one.
    MixedTimes {
        line: u64,
    },
    /// There are more events than can be numbered.
    TooLong {
        line: u64,
    },
}

/// Why a log is not read.
#[derive(Debug, Drop)]
pub enum LogFault {
    Refused(LogRefusal),
    /// The source failed.
    Read,
    NoMemory,
}

impl From<AllocError> for LogFault {
    ghost use Rattle.std.specs.Prelude.{◌≡◌};
    ghost use Rattle.flow_event_log.specs.declared.fault.LogFault.TheVariants.{NoMemory};

    ghost from_gives = { λ _ fault. fault ≡ NoMemory };

    fn from(_error: AllocError) -> LogFault {
        LogFault::NoMemory
    }
}

impl<T: Drop> From<AllocFailed<T>> for LogFault {
    ghost use Rattle.std.specs.Prelude.{◌≡◌};
    ghost use Rattle.flow_event_log.specs.declared.fault.LogFault.TheVariants.{NoMemory};

    ghost from_gives = { λ _ fault. fault ≡ NoMemory };

    fn from(_error: AllocFailed<T>) -> LogFault {
        LogFault::NoMemory
    }
}

impl From<csv::Error> for LogFault {
    fn from(error: csv::Error) -> LogFault {
        if error.is_io_error() {
            LogFault::Read
        } else {
            LogFault::NoMemory
        }
    }
}
