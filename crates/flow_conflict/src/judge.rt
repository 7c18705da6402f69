ghost use Rattle.std.specs.Prelude.{◌<◌, ℕ, List, IfOk};
ghost use Rattle.flow_model.specs.Lists.{Each};
ghost use Rattle.flow_conflict.specs.Lists.{IsAmong, IsRising};
ghost use Rattle.flow_conflict.specs.Judgement.{Tells};

use std::alloc::{AllocError, Global};

/// What is found of a set of demands.
#[derive(Clone, Copy, Debug, PartialEq, Eq)]
pub enum Judged {
    /// They can all be met together.
    Met,
    /// They cannot.
    Unmet,
    /// To see it would pass the limits.
    Unknown,
}

/// Judges sets of demands, as the constraints of a workflow, each by their numbers.
pub trait Judge {
    // How many demands there are.
    ghost size: { Self → ℕ };

    // The demands of these numbers can all be met together.
    ghost is_met: { Self → List ℕ → Type 0 };

    // These can be judged within the limits.
    ghost is_within: { Self → List ℕ → Type 0 };

    fn judge(&self, alloc: Global, members: &[u32]) -> Result<Judged, AllocError>
        requires rising { IsRising members.now }
        requires below { Each (λ member. member < size self.now) members.now }
        ensures { IfOk result (Tells (is_within self.now members.now) (is_met self.now members.now)) };

    // What meets more meets less. Neither the order nor how often a number stands there matters.
    ghost antitone: { (judge : Self) (fewer more : List ℕ) → IsAmong fewer more → is_met judge more → is_met judge fewer };
}
