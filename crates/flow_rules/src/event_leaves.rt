ghost use Rattle.std.specs.Prelude.{◌≡◌, ℕ, IfOk, OnErr, OnOk};
ghost use Rattle.std.specs.Option.{option_or};
ghost use Rattle.flow_model.specs.Ways as model;
ghost use Rattle.flow_rules.specs.EventLeaves.{leaf_in, unless};

use crate::leaf_table::LeafEvents;
use crate::room::room_for;
use flow_goal::Tree;
use std::alloc::{AllocError, Global};

/// Notes the events of the leaves. Where an event has several leaves, the first counts. It takes memory
/// in the measure of the greatest event, once.
pub fn note_events(tree: &Tree, leaves: &[u32], events: &mut LeafEvents) -> Result<(), AllocError>
    ensures noted { OnOk result ((event : ℕ) →
        leaf_in events.new event ≡ option_or (leaf_in events.old event) (model.leaf_of_event tree.now.labels leaves.now event)) }
    ensures unchanged { OnErr result ((event : ℕ) → leaf_in events.new event ≡ leaf_in events.old event) }
{
    events.make_room(room_for(tree, leaves))?;
    for leaf in leaves {
        events.note(tree.event(*leaf), *leaf);
    }
    Ok(())
}

/// The leaves of the events. Where an event has several, the first counts.
#[tactic(auto, using(crate::proofs::LeafLemmas::noted_leaves))]
pub fn leaf_events(alloc: Global, tree: &Tree, leaves: &[u32]) -> Result<LeafEvents, AllocError>
    ensures { IfOk result (λ events. (event : ℕ) →
        leaf_in events event ≡ model.leaf_of_event tree.now.labels leaves.now event) }
{
    let mut events = LeafEvents::new(alloc);
    note_events(tree, leaves, &mut events)?;
    Ok(events)
}

/// Forgets the events of the leaves.
pub fn forget_events(tree: &Tree, leaves: &[u32], events: &mut LeafEvents)
    ensures { (event : ℕ) →
        leaf_in events.new event ≡ unless (model.leaf_of_event tree.now.labels leaves.now event) (leaf_in events.old event) }
{
    for leaf in leaves {
        events.forget(tree.event(*leaf));
    }
}
