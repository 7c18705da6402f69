ghost use Rattle.std.specs.Prelude.{◌≡◌, ◌==◌, ◌-◌, ◌^◌, ℕ, List, false, get_or, min, IfOk};
ghost use Rattle.std.specs.List.{list_any};
ghost use Rattle.flow_model.specs.Folding.{folded_count, is_among};
ghost use Rattle.flow_goal.specs.EventSet.{has_event};
ghost use Rattle.flow_goal.specs.Folds.{AreFoldsOf, named_by};
ghost use Rattle.flow_goal.specs.Labelled.{Labelled};

use crate::event_set::EventSet;
use crate::fold::Fold;
use crate::tree::Tree;
use crate::walk::{Walk, walk_goal};
use std::alloc::{AllocError, Global};

/// The events in the list.
fn set_of(alloc: Global, events: &[u32]) -> Result<EventSet, AllocError>
    ensures { IfOk result (λ set. (other : ℕ) → has_event set other ≡ list_any (λ event. event == other) events.now) }
{
    let mut set = EventSet::new(alloc);
    for event in events {
        set.add(*event)?;
    }
    Ok(set)
}

/// Whether there is an event and it is in the set.
fn is_in(set: &EventSet, event: Option<u32>) -> bool
    ensures { (events : List ℕ) → ((other : ℕ) → has_event set.now other ≡ list_any (λ event. event == other) events) →
        result ≡ is_among events event }
{
    match event {
        Some(event) => set.has(event),
        None => false,
    }
}

/// Of each leaf, whether its event is in the list.
fn named_leaves(alloc: Global, tree: &Tree, events: &[u32]) -> Result<Vec<bool>, AllocError>
    ensures { IfOk result (λ named. (leaf : ℕ) → get_or named.items leaf false ≡ named_by tree.now.labels events.now leaf) }
{
    let set = set_of(alloc, events)?;
    let mut named = Vec::new(alloc);
    for leaf in 0..tree.leaves() {
        named.push(is_in(&set, tree.event(leaf)))?;
    }
    Ok(named)
}

/// Which choices of a tree stay, where events are named: those that stand in no isolated part, hold no leaf of a named
/// event, and have no side that may be executed with no block. The others are resolved.
#[derive(Drop)]
pub struct Folds {
    named: Vec<bool>,
    flags: Vec<bool>,
    spans: Vec<Fold>,
    count: u64,
}

impl Folds {
    /// Sees which they are, where these events are named. It walks the goal once, and takes memory in the measure of the
    /// greatest of the events.
    pub fn new(alloc: Global, tree: &Tree, named: &[u32]) -> Result<Folds, AllocError>
        ensures { IfOk result (AreFoldsOf tree.now named.now) }
    {
        let named = named_leaves(alloc, tree, named)?;
        let mut walk = Walk::new(alloc);
        // what the type keeps of its leaves
        let _leaves = tree.leaves();
        let measure = walk_goal(tree.goal(), false, &named, &mut walk)?;
        Ok(Folds {
            named,
            flags: walk.flags,
            spans: walk.spans,
            count: measure.folded,
        })
    }

    /// Whether the leaf has one of the named events.
    pub fn is_named(&self, leaf: u32) -> bool
        ensures { result ≡ get_or self.now.named.items leaf false }
    {
        match self.named.get(leaf as usize) {
            Some(named) => *named,
            None => false,
        }
    }

    /// Of each choice from left to right, each before those inside it, whether it stays.
    pub fn flags(&self) -> &[bool]
        ensures { result.now ≡ self.now.flags.items }
    {
        &self.flags
    }

    /// Where the choices that stay have their leaves. Those inside a choice come before it.
    pub fn spans(&self) -> &[Fold]
        ensures { result.now ≡ self.now.spans.items }
    {
        &self.spans
    }

    /// In how many ways the other choices can be resolved, or the greatest `u64` where there are more.
    pub(crate) fn count(&self) -> u64
        ensures { (tree : Labelled) (events : List ℕ) → AreFoldsOf tree events self.now →
            result ≡ min (folded_count (named_by tree.labels events) tree.process) (2 ^ 64 - 1) }
    {
        self.count
    }
}
