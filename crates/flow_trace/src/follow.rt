ghost use Rattle.std.specs.Prelude.{◌↔◌, IsTrue, IfOk};
ghost use Rattle.flow_model.specs.Lists.{◌∈◌, Each};
ghost use Rattle.flow_plan.specs.Compilation.{AreShared};
ghost use Rattle.flow_plan.specs.Courses.{IsCourse};
ghost use Rattle.flow_plan.specs.Options.{options_of, option_of, HasSmallLeaves};
ghost use Rattle.flow_plan.specs.Sampled.{Sampled};
ghost use Rattle.flow_residual.specs.Options.{SomeOption};
ghost use Rattle.flow_residual.specs.Telling.{IsOrderedOption};
ghost use Rattle.flow_trace.specs.Fronts.{Finishes, Reaches, AreReaching};

use flow_plan::{Course, FoldRow, KnotFree, Plan};
use std::alloc::{AllocError, Global};

/// How long a front of the leaves is a ready run of some plan, and whether all of them are a whole execution of one.
pub(crate) fn furthest(
    alloc: Global,
    plans: &[KnotFree],
    folds: &[FoldRow],
    leaves: &[u32],
) -> Result<(usize, bool), AllocError>
    requires small { Each HasSmallLeaves (options_of plans.now) }
    requires shared { AreShared folds.now plans.now }
    ensures reaching { IfOk result (λ told. AreReaching leaves.now (options_of plans.now) told.0) }
    ensures whole { IfOk result (λ told. IsTrue told.1 ↔ SomeOption (Finishes leaves.now) (options_of plans.now)) }
{
    let course = Course::new(alloc, folds, leaves)?;
    Ok(follow_each(plans, leaves, &course))
}

/// The same, where it is known what the choices tell.
fn follow_each(plans: &[KnotFree], leaves: &[u32], course: &Course) -> (usize, bool)
    requires { (s : Sampled) → s ∈ plans.now → IsOrderedOption (option_of s.plan) → IsCourse s.plan leaves.now course.now }
    ensures reaching { AreReaching leaves.now (options_of plans.now) result.0 }
    ensures whole { IsTrue result.1 ↔ SomeOption (Finishes leaves.now) (options_of plans.now) }
{
    let mut longest = 0;
    for plan in plans {
        let (reached, is_whole) = follow(plan.plan(), leaves, course);
        if is_whole {
            return (leaves.len(), true);
        }
        longest = reached.max(longest);
    }
    (longest, false)
}

/// How long a front of the leaves is a ready run of the plan, and whether all of them are a whole execution of it.
fn follow(plan: &Plan, leaves: &[u32], course: &Course) -> (usize, bool)
    requires { IsOrderedOption (option_of plan.now) → IsCourse plan.now leaves.now course.now }
    ensures reaches { Reaches leaves.now (option_of plan.now) result.0 }
    ensures whole { IsTrue result.1 ↔ Finishes leaves.now (option_of plan.now) }
{
    // what the plan keeps of its goal and its pairs
    let _tokens = plan.tokens();
    plan.follow(course, leaves)
}
