ghost use Rattle.std.specs.Option.{option_or};
ghost use Rattle.std.specs.Prelude.{◌≡◌, ◌<◌, ◌≤◌, ℕ, length, IfSome, OnOk};
ghost use Rattle.flow_model.specs.Ways as model;

use crate::room::make_room;
use std::alloc::{AllocError, Global};

/// The leaf of each event, among some leaves of a tree: at the place of each event its leaf.
#[derive(Drop)]
pub struct LeafEvents {
    leaves: Vec<Option<u32>>,
}

impl LeafEvents {
    ghost use Rattle.flow_rules.specs.EventLeaves.{IsBlank, if_on, leaf_in, without_leaf};
    ghost use Rattle.flow_rules.specs.Normal.{event_form};
    ghost use Rattle.flow_rules.specs.WayLists.{decided, pair_in};

    /// No event has a leaf.
    pub fn new(alloc: Global) -> LeafEvents
        ensures { IsBlank result }
    {
        LeafEvents {
            leaves: Vec::new(alloc),
        }
    }

    /// The leaf of the event. `None` where no leaf has it.
    pub fn leaf_of(&self, event: u32) -> Option<u32>
        ensures { result ≡ leaf_in self.now event }
    {
        match self.leaves.get(event as usize) {
            Some(leaf) => *leaf,
            None => None,
        }
    }

    /// Whether the event happens, or does not where that is wanted.
    pub(crate) fn meets(&self, wanted: bool, event: u32) -> bool
        ensures { decided result ≡ model.ways (event_form wanted event) (leaf_in self.now) }
    {
        self.leaf_of(event).is_some() == wanted
    }

    /// The leaves of two events, if both have one: the first before the second, or the other way round
    /// where that is not wanted.
    pub(crate) fn pair(&self, wanted: bool, first: u32, second: u32) -> Option<(u32, u32)>
        ensures { result ≡ pair_in (leaf_in self.now) wanted first second }
    {
        if first == second {
            return None;
        }
        match (self.leaf_of(first), self.leaf_of(second)) {
            (Some(x), Some(y)) if wanted => Some((x, y)),
            (Some(x), Some(y)) => Some((y, x)),
            _ => None,
        }
    }

    /// Makes room for the events below a bound.
    pub(crate) fn make_room(&mut self, room: usize) -> Result<(), AllocError>
        ensures room { OnOk result (room ≤ length self.new.leaves.items) }
        ensures same { (q : ℕ) → leaf_in self.new q ≡ leaf_in self.old q }
    {
        make_room(&mut self.leaves, room, None)
    }

    /// Notes the leaf of an event, unless the event has one. Where there is no event nothing is noted.
    pub(crate) fn note(&mut self, event: Option<u32>, leaf: u32)
        requires { IfSome event (λ event. event < length self.old.leaves.items) }
        ensures noted { (q : ℕ) → leaf_in self.new q ≡ option_or (leaf_in self.old q) (if_on q leaf event) }
        ensures room { length self.new.leaves.items ≡ length self.old.leaves.items }
    {
        let Some(event) = event else { return };
        if self.leaves[event as usize].is_none() {
            self.leaves[event as usize] = Some(leaf);
        }
    }

    /// Takes the event's leaf away, if it has one.
    pub(crate) fn forget(&mut self, event: Option<u32>)
        ensures { (q : ℕ) → leaf_in self.new q ≡ without_leaf event (leaf_in self.old q) q }
    {
        let Some(event) = event else { return };
        if (event as usize) < self.leaves.len() {
            self.leaves[event as usize] = None;
        }
    }
}
