ghost use Rattle.std.specs.Prelude.{◌≡◌, ◌≢◌, [], length, All};
ghost use Rattle.flow_model.specs.Lists.{Each};
ghost use Rattle.flow_plan.specs.Compilation.{AreShared};
ghost use Rattle.flow_plan.specs.Options.{HasSmallLeaves, options_of};
ghost use Rattle.flow_plan.specs.Sampled.{Sampled};
ghost use Rattle.flow_plan.specs.Planned.{AreNumbered};

use crate::counts::Counts;
use crate::fold_row::FoldRow;
use crate::knot_free::KnotFree;
use std::marker::Model;

/// The plans of all options that have an execution, of which there is one at least.
#[derive(Drop)]
pub struct Compiled {
    plans: Vec<KnotFree>,
    counts: Counts,
    folds: Vec<FoldRow>,
}

impl Model for Compiled {
    ghost use Rattle.flow_plan.specs.Compilation.{Compilation, compilation_code, compilation, IsLive};

    ghost Value = { Compilation };

    ghost coded = { compilation_code };

    ghost view = { λ c. compilation c.plans.items c.counts c.folds.items };

    ghost invariant = { λ c. IsLive (compilation c.plans.items c.counts c.folds.items) };
}

impl Compiled {
    /// These plans, in the order of their options, the counts of the workflow, and the rows of its choices that stay.
    pub fn new(plans: Vec<KnotFree>, counts: Counts, folds: Vec<FoldRow>) -> Compiled
        requires some { plans.items ≢ [] }
        requires live { counts.live ≡ length plans.items }
        requires small { Each HasSmallLeaves (options_of plans.items) }
        requires numbered { All (λ (s : Sampled). AreNumbered s.plan.tokens) plans.items }
        requires shared { AreShared folds.items plans.items }
        ensures plans { result.plans ≡ plans.items }
        ensures counts { result.counts ≡ counts }
        ensures folds { result.folds ≡ folds.items }
    {
        Compiled {
            plans,
            counts,
            folds,
        }
    }

    /// The plans in the order of their options.
    pub fn plans(&self) -> &[KnotFree]
        ensures plans { result.now ≡ self.now.plans }
        ensures some { self.now.plans ≢ [] }
        // each leaf has a place in a row
        ensures small { Each HasSmallLeaves (options_of self.now.plans) }
        // the token with number k stands for pair k of the option's order
        ensures numbered { All (λ (s : Sampled). AreNumbered s.plan.tokens) self.now.plans }
    {
        &self.plans
    }

    /// The rows of the choices that stay, inner ones first. What they say of a leaf, they say of it in each plan that has it.
    pub fn folds(&self) -> &[FoldRow]
        ensures folds { result.now ≡ self.now.folds }
        ensures shared { AreShared self.now.folds self.now.plans }
    {
        &self.folds
    }

    /// The plans by value, in the order of their options, and the rows of the choices that stay.
    pub fn into_parts(self) -> (Vec<KnotFree>, Vec<FoldRow>)
        ensures plans { result.0.items ≡ self.plans }
        ensures folds { result.1.items ≡ self.folds }
        ensures numbered { All (λ (s : Sampled). AreNumbered s.plan.tokens) result.0.items }
        ensures shared { AreShared result.1.items result.0.items }
    {
        (self.plans, self.folds)
    }

    /// How large the workflow is.
    pub fn counts(&self) -> Counts
        ensures counts { result ≡ self.now.counts }
        ensures live { self.now.counts.live ≡ length self.now.plans }
    {
        // what the type keeps of its plans
        let _plans = &self.plans;
        self.counts
    }
}
