ghost use Rattle.std.specs.Prelude.{All};
ghost use Rattle.flow_model.specs.Lists.{Each};
ghost use Rattle.flow_plan.specs.Options.{HasSmallLeaves, options_of, small-prop};
ghost use Rattle.flow_plan.specs.Sampled.{Sampled};
ghost use Rattle.flow_plan.specs.Planned.{AreNumbered};

use crate::refusal::Dropped;
use flow_plan::KnotFree;

/// The options that were looked at: plans of those with an execution, and why each of the others has
/// none.
#[derive(Drop)]
pub(crate) struct Sieve {
    pub(crate) kept: Vec<KnotFree>,
    pub(crate) dropped: Vec<Dropped>,
    ghost small: { Each HasSmallLeaves (options_of kept.items) } by { small-prop (options_of kept.items) },
    ghost numbered: { All (λ (s : Sampled). AreNumbered s.plan.tokens) kept.items },
}
