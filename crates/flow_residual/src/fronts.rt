//! How far each plan follows the journal.
ghost use Rattle.std.specs.Prelude.{◌≡◌, ◌<◌, ◌↔◌, ℕ, List, [], ◌∷◌, ◌++◌, length};
ghost use Rattle.flow_model.specs.Lists.{◌∈◌, Each};
ghost use Rattle.flow_plan.specs.Orders.{TellOf};
ghost use Rattle.flow_plan.specs.Options.{options_of, option_of};
ghost use Rattle.flow_residual.specs.Options.{EachHas};
ghost use Rattle.flow_residual.specs.Telling.{IsSetOf, Tells};
ghost use Rattle.flow_residual.specs.Track.{IsFront, journal_after};

use flow_plan::{KnotFree, Plan, Sides};

/// What happens to the journal.
#[derive(Clone, Copy)]
pub(crate) enum Change {
    /// The leaf is done.
    Done(u32),
    /// The journal ends before the index.
    Back(u32),
}

/// How long the front is when the leaf is done.
fn lengthened(plan: &Plan, front: usize, journal: &[u32], sides: &Sides, leaf: u32) -> usize
    requires tell { TellOf plan.now sides.now }
    requires done { IsSetOf journal.now sides.now.done }
    ensures { IsFront journal.now (option_of plan.now) front →
        IsFront (journal.now ++ leaf ∷ []) (option_of plan.now) result }
{
    if front != journal.len() {
        return front;
    }
    if plan.ready(sides, leaf) {
        front + 1
    } else {
        front
    }
}

/// How long the front is after the change.
fn after(front: usize, plan: &Plan, journal: &[u32], sides: &Sides, change: Change) -> usize
    requires tell { TellOf plan.now sides.now }
    requires done { IsSetOf journal.now sides.now.done }
    ensures { IsFront journal.now (option_of plan.now) front →
        IsFront (journal_after change journal.now) (option_of plan.now) result }
{
    match change {
        Change::Done(leaf) => lengthened(plan, front, journal, sides, leaf),
        Change::Back(index) => front.min(index as usize),
    }
}

/// Makes the change for each plan.
pub(crate) fn follow(
    plans: &[KnotFree],
    fronts: &mut [usize],
    journal: &[u32],
    sides: &Sides,
    change: Change,
)
    requires tell { (bans : List ℕ) × Tells (options_of plans.now) journal.now bans sides.now }
    requires one_each { length fronts.old ≡ length plans.now }
    ensures { EachHas (IsFront journal.now) (options_of plans.now) fronts.old →
        EachHas (IsFront (journal_after change journal.now)) (options_of plans.now) fronts.new }
{
    for (place, front) in fronts.iter_mut().enumerate() {
        *front = after(*front, plans[place].plan(), journal, sides, change);
    }
}
