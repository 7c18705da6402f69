//! What may come next in each plan, in rows as wide as the plans' leaves ask for.
ghost use Rattle.std.specs.Prelude.{◌≡◌, ◌<◌, ◌≤◌, ◌*◌, ℕ, List, IsTrue, length};
ghost use Rattle.flow_model.specs.Lists.{Each};
ghost use Rattle.flow_plan.specs.Orders.{TellOf};
ghost use Rattle.flow_plan.specs.Options.{options_of, option_of};
ghost use Rattle.flow_residual.specs.PlanRows.{AreNext};
ghost use Rattle.flow_residual.specs.Options.{EachHas};
ghost use Rattle.flow_residual.specs.Telling.{IsSetOf, Tells};
ghost use Rattle.flow_residual.specs.Track.{IsFront, IsNextRow};

use crate::plan_rows::PlanRows;
use flow_plan::{KnotFree, MIDDLE_WORDS, NARROW_WORDS, Plan, Sides, Words};
use leaf_rows::{LEAF_WORDS, LeafSet};

/// Whether rows of that width have room for each leaf of the plan.
fn has_room<const W: usize>(plan: &Plan) -> bool
    ensures { IsTrue result → Each (λ n. n < 64 * W) plan.now.leaves }
{
    match plan.words() {
        Words::Narrow => NARROW_WORDS <= W,
        Words::Middle => MIDDLE_WORDS <= W,
        Words::Wide => LEAF_WORDS <= W,
    }
}

/// Makes the row anew, where the plan follows the whole journal. Whether it has room.
fn look_at<const W: usize>(
    plan: &Plan,
    front: usize,
    journal: &[u32],
    sides: &Sides,
    row: &mut LeafSet<W>,
) -> bool
    requires tell { TellOf plan.now sides.now }
    requires done { IsSetOf journal.now sides.now.done }
    requires front { IsFront journal.now (option_of plan.now) front }
    ensures { IsTrue result → IsNextRow journal.now (option_of plan.now) row.new }
{
    if front != journal.len() {
        return true;
    }
    if !has_room::<W>(plan) {
        return false;
    }
    *row = plan.next_row_in(sides);
    true
}

/// Makes the rows of the plans that follow the whole journal. Whether they have room.
fn look_all<const W: usize>(
    plans: &[KnotFree],
    fronts: &[usize],
    journal: &[u32],
    sides: &Sides,
    rows: &mut [LeafSet<W>],
) -> bool
    requires wide { W ≤ 64 }
    requires tell { (bans : List ℕ) × Tells (options_of plans.now) journal.now bans sides.now }
    requires fronts { EachHas (IsFront journal.now) (options_of plans.now) fronts.now }
    ensures { IsTrue result → EachHas (IsNextRow journal.now) (options_of plans.now) rows.new }
{
    if rows.len() != plans.len() {
        return false;
    }
    for (place, row) in rows.iter_mut().enumerate() {
        if !look_at(plans[place].plan(), fronts[place], journal, sides, row) {
            return false;
        }
    }
    true
}

impl PlanRows {
    /// Makes the rows of the plans that follow the whole journal. Whether they have room.
    pub(crate) fn look(
        &mut self,
        plans: &[KnotFree],
        fronts: &[usize],
        journal: &[u32],
        sides: &Sides,
    ) -> bool
        requires tell { (bans : List ℕ) × Tells (options_of plans.now) journal.now bans sides.now }
        requires fronts { EachHas (IsFront journal.now) (options_of plans.now) fronts.now }
        ensures { IsTrue result → AreNext journal.now (options_of plans.now) self.new }
    {
        match self.words {
            Words::Narrow => look_all(plans, fronts, journal, sides, &mut self.narrow),
            Words::Middle => look_all(plans, fronts, journal, sides, &mut self.middle),
            Words::Wide => look_all(plans, fronts, journal, sides, &mut self.wide),
        }
    }
}
