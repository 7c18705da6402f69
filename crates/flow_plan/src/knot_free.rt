ghost use Rattle.std.specs.Prelude.{◌≡◌};
ghost use Rattle.flow_model.specs.Lists.{AreInOrder};
ghost use Rattle.flow_model.specs.Trace.{Trace};
ghost use Rattle.flow_plan.specs.Planned.{pairs_of};

use crate::plan::Plan;
use std::marker::Model;

/// A plan that has an execution, and one of them.
#[derive(Drop)]
pub struct KnotFree {
    plan: Plan,
    sample: Vec<u32>,
}

impl Model for KnotFree {
    ghost use Rattle.flow_plan.specs.Sampled.{Sampled, sampled_code};

    ghost Value = { Sampled };

    ghost coded = { sampled_code };

    ghost use Rattle.flow_plan.specs.Sampled.{sampled, IsTraceOf};

    ghost view = { λ k. sampled k.plan k.sample.items };

    ghost invariant = { λ k. IsTraceOf (sampled k.plan k.sample.items) };
}

impl KnotFree {
    /// The plan with that execution as its sample.
    pub fn new(plan: Plan, sample: Vec<u32>) -> KnotFree
        requires trace { Trace plan.process sample.items }
        requires in_order { AreInOrder (pairs_of plan.tokens) sample.items }
        ensures plan { result.plan ≡ plan }
        ensures sample { result.sample ≡ sample.items }
    {
        KnotFree { plan, sample }
    }

    /// The plan, without its sample.
    pub fn plan(&self) -> &Plan
        ensures { result.now ≡ self.now.plan }
    {
        &self.plan
    }

    /// The leaves in the order of the execution.
    pub fn sample(&self) -> &[u32]
        ensures sample { result.now ≡ self.now.sample }
        ensures trace { Trace self.now.plan.process self.now.sample }
        ensures in_order { AreInOrder (pairs_of self.now.plan.tokens) self.now.sample }
    {
        &self.sample
    }
}
