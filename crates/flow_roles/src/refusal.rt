ghost use Rattle.std.specs.Prelude.{◌≡◌};

use flow_ask::Refusal;
use flow_core::{PostRefusal, TakeRefusal};
use std::error::Error;
use thiserror::Error;

/// Which duty keeps a user from what he asks. Constraints of each kind are numbered from 0, in the order of the policy.
#[derive(Clone, Copy, Debug, Error)]
pub enum Denied {
    #[error("the event is allowed to no role of the user")]
    Role,
    /// This constraint is the least.
    #[error("by constraint {0} the event is for other users than the one who has another")]
    Separate(u32),
    /// This constraint is the least.
    #[error("by constraint {0} the event is for the one user who has another")]
    Bind(u32),
    /// The claim is that one.
    #[error("claim {0} was taken by another user")]
    Holder(u32),
}

/// Why a desk does not do what it is asked: what the run says, or who asks.
#[derive(Clone, Copy, Debug, Error)]
pub enum DutyRefusal<R: Error> {
    #[error(transparent)]
    Core(R),
    #[error(transparent)]
    Denied(Denied),
}

impl From<Denied> for Refusal {
    ghost use Rattle.flow_roles.specs.Ask.{of_denied};

    ghost from_gives = { λ denied told. told ≡ of_denied denied };

    fn from(denied: Denied) -> Refusal {
        match denied {
            Denied::Role => Refusal::Role,
            Denied::Separate(index) => Refusal::Separate(index),
            Denied::Bind(index) => Refusal::Bind(index),
            Denied::Holder(_) => Refusal::Holder,
        }
    }
}

impl From<DutyRefusal<TakeRefusal>> for Refusal {
    ghost use Rattle.flow_core.specs.Ask.{of_take};
    ghost use Rattle.flow_roles.specs.Ask.{of_duty};

    ghost from_gives = { λ refusal told. told ≡ of_duty of_take refusal };

    fn from(refusal: DutyRefusal<TakeRefusal>) -> Refusal {
        match refusal {
            DutyRefusal::Core(refusal) => Refusal::from(refusal),
            DutyRefusal::Denied(denied) => Refusal::from(denied),
        }
    }
}

impl From<DutyRefusal<PostRefusal>> for Refusal {
    ghost use Rattle.flow_core.specs.Ask.{of_post};
    ghost use Rattle.flow_roles.specs.Ask.{of_duty};

    ghost from_gives = { λ refusal told. told ≡ of_duty of_post refusal };

    fn from(refusal: DutyRefusal<PostRefusal>) -> Refusal {
        match refusal {
            DutyRefusal::Core(refusal) => Refusal::from(refusal),
            DutyRefusal::Denied(denied) => Refusal::from(denied),
        }
    }
}
