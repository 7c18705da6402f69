ghost use Rattle.std.specs.Prelude.{◌<◌, ◌≤◌, ◌*◌, IfOk, IfErr};
ghost use Rattle.flow_model.specs.Lists.{Each};
ghost use Rattle.flow_model.specs.Process.{IsChoiceFree};
ghost use Rattle.flow_model.specs.Resolution.{OptionTrace};
ghost use Rattle.flow_plan.specs.Options.{option_of};
ghost use Rattle.flow_plan.specs.Planned.{pairs_of};
ghost use Rattle.flow_sample.specs.Items.{TellsCircle};

use crate::items::items_of_plan;
use crate::order::run_of;
use crate::sample::ExciseRefusal;
use flow_plan::{MIDDLE_WORDS, NARROW_WORDS, Plan, Words};
use leaf_rows::LEAF_WORDS;
use std::alloc::Global;

/// The same, where sets of that many words have room for each leaf of the plan.
fn run_by_sets<const W: usize>(alloc: Global, plan: &Plan) -> Result<Vec<u32>, ExciseRefusal>
    requires wide { W ≤ 64 }
    requires small { Each (λ n. n < 64 * W) plan.now.leaves }
    requires choice_free { IsChoiceFree plan.now.process }
    ensures ok { IfOk result (λ run. OptionTrace (option_of plan.now) run.items) }
    ensures circle { IfErr result (TellsCircle plan.now.process (pairs_of plan.now.tokens)) }
{
    // what the type keeps of its leaves and tokens
    let _leaves = plan.leaves();
    let _tokens = plan.tokens();
    let items = items_of_plan::<W>(alloc, plan)?;
    run_of(alloc, &items)
}

/// An execution of a plan without choices, or why there is none, by its items. Their sets are as wide as the rows of the
/// plan, so that one of few leaves is not looked through in sets that have room for the most.
pub(crate) fn run_by_items(alloc: Global, plan: &Plan) -> Result<Vec<u32>, ExciseRefusal>
    requires { IsChoiceFree plan.now.process }
    ensures ok { IfOk result (λ run. OptionTrace (option_of plan.now) run.items) }
    ensures circle { IfErr result (TellsCircle plan.now.process (pairs_of plan.now.tokens)) }
{
    match plan.words() {
        Words::Narrow => run_by_sets::<NARROW_WORDS>(alloc, plan),
        Words::Middle => run_by_sets::<MIDDLE_WORDS>(alloc, plan),
        Words::Wide => run_by_sets::<LEAF_WORDS>(alloc, plan),
    }
}
