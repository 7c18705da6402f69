ghost use Rattle.std.specs.Prelude.{◌≡◌};
ghost use Rattle.flow_policy.specs.declared.refusal.PolicyRefusal.TheVariants.{NoMemory};

use std::alloc::{AllocError, AllocFailed};
use thiserror::Error;

/// Why a text gives no policy. Places are offsets in bytes.
#[derive(Debug, Drop, Error)]
pub enum PolicyRefusal {
    /// The first byte over 127.
    #[error("byte {place} is not ASCII")]
    NotAscii { place: usize },
    /// The first byte that begins no token, or the first of a number over the greatest `u32`.
    #[error("no token begins at byte {place}")]
    BadToken { place: usize },
    /// The first token with which no policy goes on, or the end of a text that ends too early.
    #[error("no policy goes on with what stands at byte {place}")]
    Expected { place: usize },
    /// The first name that must be that of a role or an event, and is not.
    #[error("the name at byte {place} is not known")]
    Unknown { place: usize },
    /// There is no memory for the policy. Nothing is said of the text.
    #[error("out of memory")]
    NoMemory,
}

impl From<AllocError> for PolicyRefusal {
    ghost from_gives = { λ _ e. e ≡ NoMemory };

    fn from(_error: AllocError) -> PolicyRefusal {
        PolicyRefusal::NoMemory
    }
}

impl<T: Drop> From<AllocFailed<T>> for PolicyRefusal {
    ghost from_gives = { λ _ e. e ≡ NoMemory };

    fn from(_error: AllocFailed<T>) -> PolicyRefusal {
        PolicyRefusal::NoMemory
    }
}
