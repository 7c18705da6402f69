ghost use Rattle.std.specs.Prelude.{◌≡◌};
ghost use Rattle.flow_excise.specs.declared.refusal.CompileRefusal.TheVariants.{NoMemory};

use flow_model::{GREATEST_BULK, MOST_OPTIONS, MOST_RESOLUTIONS};
use flow_sample::Circle;
use std::alloc::{AllocError, AllocFailed};
use thiserror::Error;

/// An option that has no execution.
#[derive(Debug, Drop)]
pub struct Dropped {
    /// The number of its resolution.
    pub resolution: u64,
    /// The number of its way among those of the resolution.
    pub way: u64,
    pub circle: Circle,
}

/// Why a tree and rules give no plans.
#[derive(Debug, Drop, Error)]
pub enum CompileRefusal {
    /// So many ways to resolve the choices.
    #[error("the choices can be resolved in {count} ways, more than {most}", most = MOST_RESOLUTIONS)]
    TooManyChoices { count: u64 },
    /// So many options.
    #[error("there are {count} options, more than {most}", most = MOST_OPTIONS)]
    TooManyWays { count: u64 },
    /// So many leaves and pairs are in all options.
    #[error("all options together have {count} leaves and pairs, more than {most}", most = GREATEST_BULK)]
    TooBulky { count: u64 },
    /// No execution meets the constraints: each option, in order, with its circle.
    #[error("no execution meets the constraints")]
    Inconsistent { dropped: Vec<Dropped> },
    /// Nothing is said of the workflow.
    #[error("out of memory")]
    NoMemory,
}

impl From<AllocError> for CompileRefusal {
    ghost from_gives = { λ _ e. e ≡ NoMemory };

    fn from(_error: AllocError) -> CompileRefusal {
        CompileRefusal::NoMemory
    }
}

impl<T: Drop> From<AllocFailed<T>> for CompileRefusal {
    ghost from_gives = { λ _ e. e ≡ NoMemory };

    fn from(_error: AllocFailed<T>) -> CompileRefusal {
        CompileRefusal::NoMemory
    }
}
