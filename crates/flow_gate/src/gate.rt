ghost use Rattle.std.specs.Prelude.{◌≡◌, Bool, true};
ghost use Rattle.flow_model.specs.declared.history.Call.{Call};
ghost use Rattle.flow_model.specs.declared.history.Outcome.{Outcome};

use flow_model::{Call, Outcome};

/// Performs tasks. Several threads may ask one gate at a time.
pub trait Gate: Sync {
    // Whether gates of this type may answer the call so.
    ghost gives: { Call → Outcome → Bool };

    /// Performs the task of a call.
    fn perform(&self, call: Call) -> Outcome
        ensures { gives call result ≡ true };
}

/// A gate that is lent performs as it does itself.
impl<G: Gate> Gate for &G {
    ghost gives = { G.gives };

    fn perform(&self, call: Call) -> Outcome {
        (**self).perform(call)
    }
}
