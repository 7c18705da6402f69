ghost use Rattle.std.specs.Prelude.{◌<◌, ◌≤◌, ◌*◌, MatchResult};
ghost use Rattle.flow_model.specs.Circle.{items_of};
ghost use Rattle.flow_model.specs.Lists.{Each};
ghost use Rattle.flow_model.specs.Process.{IsChoiceFree};
ghost use Rattle.flow_plan.specs.Planned.{pairs_of};
ghost use Rattle.flow_sample.specs.Items.{AreItemsOf, TellsCircle};

use crate::gathering::Gathering;
use crate::item::Item;
use crate::sample::ExciseRefusal;
use flow_plan::Plan;
use std::alloc::Global;

/// The items of the goal of a plan that has no choice, unless those of some part wait for each other.
pub(crate) fn items_of_plan<const W: usize>(
    alloc: Global,
    plan: &Plan,
) -> Result<Vec<Item<W>>, ExciseRefusal>
    requires wide { W ≤ 64 }
    requires small { Each (λ n. n < 64 * W) plan.now.leaves }
    requires choice_free { IsChoiceFree plan.now.process }
    ensures { MatchResult result
        (λ items. AreItemsOf plan.now.process (pairs_of plan.now.tokens) (items_of plan.now.process) items.items)
        (TellsCircle plan.now.process (pairs_of plan.now.tokens)) }
{
    // what the type keeps of its leaves and tokens
    let _leaves = plan.leaves();
    let _tokens = plan.tokens();
    let mut gathering = Gathering {
        place: 0,
        items: Vec::new(alloc),
        outer: Vec::new(alloc),
    };
    for node in plan.nodes() {
        gathering.read(alloc, plan, node)?;
    }
    Ok(gathering.items)
}
