ghost use Rattle.std.specs.Prelude.{◌≡◌};
ghost use Rattle.flow_verify.specs.declared.refusal.VerifyRefusal.TheVariants.{NoMemory};

use flow_model::{GREATEST_BULK, MOST_OPTIONS, MOST_RESOLUTIONS};
use std::alloc::{AllocError, AllocFailed};
use thiserror::Error;

/// Why nothing is told of a property or a constraint. The counts are those of the workflow with the negated
/// property as a further constraint, or with the constraint asked about negated.
#[derive(Debug, Drop, Error)]
pub enum VerifyRefusal {
    /// So many ways to resolve the choices.
    #[error("the choices can be resolved in {count} ways, more than {most}", most = MOST_RESOLUTIONS)]
    TooManyChoices { count: u64 },
    /// So many options.
    #[error("there are {count} options, more than {most}", most = MOST_OPTIONS)]
    TooManyWays { count: u64 },
    /// So many leaves and pairs are in all options.
    #[error("all options together have {count} leaves and pairs, more than {most}", most = GREATEST_BULK)]
    TooBulky { count: u64 },
    /// There is no constraint of that index.
    #[error("there is no constraint {index}")]
    NoRule { index: u32 },
    /// Nothing is said of the workflow.
    #[error("out of memory")]
    NoMemory,
}

impl From<AllocError> for VerifyRefusal {
    ghost from_gives = { λ _ e. e ≡ NoMemory };

    fn from(_error: AllocError) -> VerifyRefusal {
        VerifyRefusal::NoMemory
    }
}

impl<T: Drop> From<AllocFailed<T>> for VerifyRefusal {
    ghost from_gives = { λ _ e. e ≡ NoMemory };

    fn from(_error: AllocFailed<T>) -> VerifyRefusal {
        VerifyRefusal::NoMemory
    }
}
