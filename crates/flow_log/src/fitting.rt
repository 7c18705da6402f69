ghost use Rattle.std.specs.Prelude.{◌≡◌, ◌<◌, ◌≤◌, ◌*◌, ℕ, IfOk, length};
ghost use Rattle.flow_workflow.specs.Definition.{schema_of};
ghost use Rattle.flow_plan.specs.Compilation.{IsCompiled};
ghost use Rattle.flow_log.specs.declared.verdict.Fit.{Fit};
ghost use Rattle.flow_log.specs.Case.{IsCase, IsKept, fitted_of};
ghost use Rattle.flow_log.specs.Search.{IsFound, IsLed};
ghost use Rattle.flow_log.specs.declared.found.Found.TheVariants.{Furthest};
ghost use Rattle.flow_log.specs.Fits.{IsOneVerdict, TellsOfFit};

use crate::case::Case;
use crate::fact_places::fact_places;
use crate::found::Found;
use crate::points::Points;
use crate::search::first_point;
use crate::verdict::Fit;
use flow_plan::{Compiled, MIDDLE_WORDS, NARROW_WORDS};
use flow_workflow::Workflow;
use leaf_rows::LEAF_WORDS;
use std::alloc::{AllocError, Global};

/// What is told where no execution has just these events, and no list more of them than those that lead to the point at that place.
fn told_of_furthest<const W: usize>(
    alloc: Global,
    case: &Case,
    points: &Points<W>,
    place: usize,
) -> Result<Fit, AllocError>
    requires kept { IsKept case.now }
    requires led { IsLed (fitted_of case.now) points.now.points.items }
    requires found { IsFound (fitted_of case.now) 0 points.now.points.items (Furthest place) }
    ensures { (budget : ℕ) → IfOk result (TellsOfFit case.now.workflow.now case.now.events.now budget) }
{
    let at = points.points[place].count;
    if at == case.events.len() {
        return Ok(Fit::Front(points.list_of(alloc, place)?));
    }
    if (case.events[at] as usize) < case.workflow.events().len() {
        Ok(Fit::Deviates { at: at as u32 })
    } else {
        Ok(Fit::Unknown { at: at as u32 })
    }
}

/// How the events of the case fit, by points of one width.
fn fit_by<const W: usize>(alloc: Global, case: &Case, budget: u32) -> Result<Fit, AllocError>
    requires kept { IsKept case.now }
    requires wide { W ≤ 64 }
    requires few { length case.now.plans.now ≤ 64 * W }
    requires leaves { length case.now.workflow.now.tree.labels ≤ 64 * W }
    requires some { 0 < length case.now.plans.now }
    ensures { IfOk result (TellsOfFit case.now.workflow.now case.now.events.now budget) }
{
    let mut points: Points<W> = Points::new(alloc)?;
    points.push(first_point(case))?;
    match points.find(case, budget)? {
        Found::Whole(place) => Ok(Fit::Execution(points.list_of(alloc, place)?)),
        Found::Furthest(place) => told_of_furthest(alloc, case, &points, place),
        Found::Spent => Ok(Fit::Undecided),
    }
}

/// Whether and how the events fit the workflow, where leaves that are no events stand between them as they are needed. An event is
/// told by its number; any number that is none of an event's is an activity that the workflow does not know. So many points are
/// made at most.
pub fn fit(
    alloc: Global,
    workflow: &Workflow,
    compiled: &Compiled,
    events: &[u32],
    budget: u32,
) -> Result<Fit, AllocError>
    requires { IsCompiled (schema_of workflow.now) compiled.now }
    ensures told { IfOk result (TellsOfFit workflow.now events.now budget) }
    // nothing else could be told
    ensures only { IfOk result (λ one. (other : Fit) → TellsOfFit workflow.now events.now budget other → IsOneVerdict one other) }
{
    let places = fact_places(alloc, workflow)?;
    let case = Case {
        workflow,
        plans: compiled.plans(),
        folds: compiled.folds(),
        places,
        events,
    };
    let room = case.plans.len().max(workflow.tree().leaves() as usize);
    if room <= 64 * NARROW_WORDS {
        return fit_by::<NARROW_WORDS>(alloc, &case, budget);
    }
    if room <= 64 * MIDDLE_WORDS {
        return fit_by::<MIDDLE_WORDS>(alloc, &case, budget);
    }
    fit_by::<LEAF_WORDS>(alloc, &case, budget)
}
