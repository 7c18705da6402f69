ghost use Rattle.std.specs.Prelude.{◌≡◌, ◌<◌, ◌↔◌, ◌++◌, [], ◌∷◌, IfOk, IsTrue, length};
ghost use Rattle.std.specs.Bool.{OnTrue};
ghost use Rattle.flow_model.specs.Facts.{HoldsAt};
ghost use Rattle.flow_facts.specs.Course.{state_of_world};
ghost use Rattle.flow_facts.specs.Journals.{labels_at};
ghost use Rattle.flow_trace.specs.Traces.{HoldsUpTo};

use flow_facts::World;
use flow_workflow::Workflow;
use std::alloc::{AllocError, Global};

/// How long a front of the leaves has labels that hold in turn. No possible front is longer.
pub(crate) fn held_front(
    alloc: Global,
    workflow: &Workflow,
    leaves: &[u32],
) -> Result<usize, AllocError>
    ensures { IfOk result (HoldsUpTo workflow.now leaves.now) }
{
    let room = workflow.tree().leaves();
    let mut world = World::new(alloc, workflow.facts().count(), workflow.held(), room)?;
    // a leaf is performed once at most
    let most = leaves.len().min(room as usize);
    for place in 0..most {
        if !perform(workflow, &mut world, leaves[place]) {
            return Ok(place);
        }
    }
    Ok(most)
}

/// Performs the label of the leaf, if it has one that holds now.
fn perform(workflow: &Workflow, world: &mut World, leaf: u32) -> bool
    requires count { world.old.count ≡ length workflow.now.facts }
    requires room { length world.old.labels < world.old.room }
    ensures holds { IsTrue result ↔ (leaf < length workflow.now.tree.labels × HoldsAt workflow.now.tree.labels (state_of_world world.old) leaf) }
    ensures performed { OnTrue result
        (world.new ≡ record world.old { labels = world.old.labels ++ labels_at workflow.now.tree.labels (leaf ∷ []) }) }
{
    match workflow.tree().label(leaf) {
        Some(label) => {
            if !world.holds(label) {
                return false;
            }
            world.perform(label);
            true
        }
        None => false,
    }
}
