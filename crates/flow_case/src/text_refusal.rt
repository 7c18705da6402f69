ghost use Rattle.std.specs.Prelude.{◌≡◌};
ghost use Rattle.flow_case.specs.declared.text_refusal.CasePolicyRefusal.TheVariants.{NoMemory};

use flow_policy::PolicyRefusal;
use std::alloc::{AllocError, AllocFailed};
use thiserror::Error;

/// Why a text gives no policy of a case. Places are offsets in bytes.
#[derive(Debug, Drop, Error)]
pub enum CasePolicyRefusal {
    /// What the text says besides the rules is no policy.
    #[error("{0}")]
    Policy(PolicyRefusal),
    /// The first token with which no rule goes on, or the end of a text that ends too early.
    #[error("no rule goes on with what stands at byte {place}")]
    Expected { place: usize },
    /// The first name in a `final` that is not that of an event.
    #[error("the name at byte {place} is that of no event")]
    NoEvent { place: usize },
    /// The first name in a `back`, or else in a `close`, that is not that of a role which some user has.
    #[error("the name at byte {place} is that of no role")]
    NoRole { place: usize },
    /// There is no memory for the policy. Nothing is said of the text.
    #[error("no memory for the policy")]
    NoMemory,
}

impl From<AllocError> for CasePolicyRefusal {
    ghost from_gives = { λ _ e. e ≡ NoMemory };

    fn from(_error: AllocError) -> CasePolicyRefusal {
        CasePolicyRefusal::NoMemory
    }
}

impl<T: Drop> From<AllocFailed<T>> for CasePolicyRefusal {
    ghost from_gives = { λ _ e. e ≡ NoMemory };

    fn from(_error: AllocFailed<T>) -> CasePolicyRefusal {
        CasePolicyRefusal::NoMemory
    }
}
