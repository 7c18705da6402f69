ghost use Rattle.std.specs.Prelude.{◌≡◌};

use std::alloc::{AllocError, AllocFailed};
use thiserror::Error;

/// Why a text is not read.
#[derive(Clone, Copy, Debug, Error)]
pub enum RecordRefusal {
    /// The least line that is not as it must be, counted from 0.
    #[error("line {line} from 0 is not as it must be")]
    BadLine { line: u32 },
    /// All lines are as they must be: the least line whose label is not that of its leaf, counted from 0.
    #[error("line {line} from 0 has not the label of its leaf")]
    Label { line: u32 },
    #[error("out of memory")]
    NoMemory,
}

impl From<AllocError> for RecordRefusal {
    ghost use Rattle.flow_record.specs.declared.refusal.RecordRefusal.TheVariants.{NoMemory};

    ghost from_gives = { λ _ e. e ≡ NoMemory };

    fn from(_error: AllocError) -> RecordRefusal {
        RecordRefusal::NoMemory
    }
}

impl<T: Drop> From<AllocFailed<T>> for RecordRefusal {
    ghost use Rattle.flow_record.specs.declared.refusal.RecordRefusal.TheVariants.{NoMemory};

    ghost from_gives = { λ _ e. e ≡ NoMemory };

    fn from(_failed: AllocFailed<T>) -> RecordRefusal {
        RecordRefusal::NoMemory
    }
}
