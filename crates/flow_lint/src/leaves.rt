ghost use Rattle.std.specs.Prelude.{◌≡◌, ◌==◌, IsTrue};
ghost use Rattle.std.specs.List.{list_any};
ghost use Rattle.flow_model.specs.Process;
ghost use Rattle.flow_lint.specs.Leaves.{is_in_plans};

use crate::question::Question;
use flow_plan::KnotFree;
use std::alloc::{AllocError, Global};

/// Whether the option has the leaf.
fn has_leaf(plan: &KnotFree, leaf: u32) -> bool
    ensures { result ≡ list_any (λ n. n == leaf) (Process.leaves plan.now.plan.process) }
{
    plan.plan().leaves().contains(&leaf)
}

/// Whether some option that has an execution has the leaf.
fn is_in_plans(plans: &[KnotFree], leaf: u32) -> bool
    ensures { result ≡ is_in_plans plans.now leaf }
{
    plans.iter().any(|plan| has_leaf(plan, leaf))
}

/// Which leaves no option has that has an execution.
#[derive(Clone, Copy)]
pub(crate) struct DeadLeaves<'a> {
    pub(crate) plans: &'a [KnotFree],
    /// How many leaves there are.
    pub(crate) leaves: u32,
}

impl Question for DeadLeaves<'_> {
    ghost size = { λ question. question.leaves };

    ghost is_so = { λ question leaf. ¬ (IsTrue (is_in_plans question.plans.now leaf)) };

    fn count(&self) -> usize {
        self.leaves as usize
    }

    fn ask(&self, _alloc: Global, number: u32) -> Result<bool, AllocError> {
        Ok(!is_in_plans(self.plans, number))
    }
}
