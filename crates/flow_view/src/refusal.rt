ghost use Rattle.std.specs.Prelude.{◌≡◌};
ghost use Rattle.flow_view.specs.declared.refusal.ViewRefusal.TheVariants.{NoMemory};

use std::alloc::{AllocError, AllocFailed};
use thiserror::Error;

/// Why a workflow has no picture.
#[derive(Clone, Copy, Debug, Error)]
pub enum ViewRefusal {
    /// It would be too wide or too high.
    #[error("the picture is too large")]
    TooLarge,
    /// There is no memory. Nothing is said of the workflow.
    #[error("out of memory")]
    NoMemory,
}

impl From<AllocError> for ViewRefusal {
    ghost from_gives = { λ _ e. e ≡ NoMemory };

    fn from(_error: AllocError) -> ViewRefusal {
        ViewRefusal::NoMemory
    }
}

impl<T: Drop> From<AllocFailed<T>> for ViewRefusal {
    ghost from_gives = { λ _ e. e ≡ NoMemory };

    fn from(_error: AllocFailed<T>) -> ViewRefusal {
        ViewRefusal::NoMemory
    }
}
