ghost use Rattle.std.specs.Prelude.{◌↔◌, ◌≡◌, ℕ, Bool, IsTrue, IfOk};
ghost use Rattle.flow_model.specs.FoldedRun.{CanAvoid};
ghost use Rattle.flow_model.specs.Lists.{◌∈◌};
ghost use Rattle.flow_model.specs.Process.{leaves};
ghost use Rattle.flow_model.specs.Schema.{Schema};
ghost use Rattle.flow_laws.specs.WellFormed.{IsWellFormed};
ghost use Rattle.flow_plan.specs.Compilation.{IsCompiled};
ghost use Rattle.flow_plan.specs.Courses.{IsCourse};
ghost use Rattle.flow_plan.specs.Options.{options_of, option_of};
ghost use Rattle.flow_plan.specs.Sampled.{Sampled};
ghost use Rattle.flow_residual.specs.Options.{SomeOption};
ghost use Rattle.flow_residual.specs.Telling.{IsOrderedOption};
ghost use Rattle.flow_trace.specs.Fronts.{Follows};
ghost use Rattle.flow_reach.specs.Reach.{HasAhead, MayStillCome, TellsOf, TellsOfEach};

use crate::sets::{set_of, with_leaf};
use flow_plan::{Compiled, Course, KnotFree, Plan, Sides};
use std::alloc::{AllocError, Global};

/// Whether the plan has the leaf.
fn has(plan: &Plan, leaf: u32) -> bool
    ensures { IsTrue result ↔ (leaf ∈ leaves plan.now.process) }
{
    plan.leaves().contains(&leaf)
}

/// Whether the plan can go on, by what its choices tell.
fn can_go_on(plan: &Plan, sides: &Sides) -> bool
    ensures { (done out : ℕ → Bool) → TellsOf plan.now done out sides.now →
        IsTrue result ↔ CanAvoid plan.now.process (λ n. IsTrue (done n)) (λ n. IsTrue (out n)) }
{
    // what the plan keeps of its goal and its pairs
    let _tokens = plan.tokens();
    !plan.is_spoilt(sides)
}

/// Whether the journal is a ready run of the plan.
fn follows(plan: &Plan, course: &Course, journal: &[u32]) -> bool
    requires { IsOrderedOption (option_of plan.now) → IsCourse plan.now journal.now course.now }
    ensures { IsTrue result ↔ Follows journal.now (option_of plan.now) }
{
    // what the plan keeps of its goal and its pairs
    let _tokens = plan.tokens();
    let (followed, _) = plan.follow(course, journal);
    followed == journal.len()
}

/// Whether the journal is a ready run of the plan, which has the leaf and can go on with it, by what its choices tell.
fn has_ahead(plan: &Plan, course: &Course, journal: &[u32], sides: &Sides, leaf: u32) -> bool
    requires { IsOrderedOption (option_of plan.now) → IsCourse plan.now journal.now course.now }
    ensures { (done out : ℕ → Bool) → TellsOf plan.now done out sides.now →
        IsTrue result ↔ HasAhead journal.now leaf done out (option_of plan.now) }
{
    if !has(plan, leaf) {
        return false;
    }
    if !can_go_on(plan, sides) {
        return false;
    }
    follows(plan, course, journal)
}

/// Whether it is so of some plan.
fn some_ahead(
    plans: &[KnotFree],
    course: &Course,
    journal: &[u32],
    sides: &Sides,
    leaf: u32,
) -> bool
    requires { (s : Sampled) → s ∈ plans.now → IsOrderedOption (option_of s.plan) → IsCourse s.plan journal.now course.now }
    ensures { (done out : ℕ → Bool) → TellsOfEach plans.now done out sides.now →
        IsTrue result ↔ SomeOption (HasAhead journal.now leaf done out) (options_of plans.now) }
{
    for plan in plans {
        if has_ahead(plan.plan(), course, journal, sides, leaf) {
            return true;
        }
    }
    false
}

/// Whether some execution of the workflow begins with the journal and has the leaf, and none of the others. Facts are not looked at.
pub fn may_still_come(
    alloc: Global,
    compiled: &Compiled,
    journal: &[u32],
    without: &[u32],
    leaf: u32,
) -> Result<bool, AllocError>
    ensures { (w : Schema) → IsWellFormed w → IsCompiled w compiled.now →
        IfOk result (λ may. IsTrue may ↔ MayStillCome w journal.now without.now leaf) }
{
    let course = Course::new(alloc, compiled.folds(), journal)?;
    let done = with_leaf(&set_of(journal), leaf);
    let sides = Sides::new(compiled.folds(), &done, &set_of(without));
    Ok(some_ahead(compiled.plans(), &course, journal, &sides, leaf))
}
