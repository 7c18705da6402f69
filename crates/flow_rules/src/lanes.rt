ghost use Rattle.std.specs.Prelude.{◌≡◌, ◌<◌, ◌==◌, ◌&&◌, ◌||◌, ℕ, false, get_or, is_some, length, IfSome, OnErr, OnOk};
ghost use Rattle.flow_model.specs.Facts.{is_event};
ghost use Rattle.flow_model.specs.Ways as model;

use crate::room::{make_room, room_for};
use flow_goal::Tree;
use std::alloc::{AllocError, Global};

/// Up to 64 maps from events to leaves side by side, one a lane: of each event, the lanes in which it has
/// a leaf.
#[derive(Drop)]
pub struct Lanes {
    words: Vec<u64>,
}

/// The word of an event: none is marked where there is no such word.
pub(crate) fn word_at(words: &[u64], event: u32) -> u64
    ensures { result ≡ get_or words.now event 0 }
{
    match words.get(event as usize) {
        Some(word) => *word,
        None => 0,
    }
}

impl Lanes {
    ghost use Rattle.flow_rules.specs.Lanes.{Shows, has_event, word_of};

    /// No event has a leaf in any lane.
    pub fn new(alloc: Global) -> Lanes
        ensures { (lane event : ℕ) → has_event result lane event ≡ false }
    {
        Lanes {
            words: Vec::new(alloc),
        }
    }

    /// The lanes in which the event has a leaf: a bit each.
    pub(crate) fn lanes_of(&self, event: u32) -> u64
        ensures { result ≡ word_of self.now event }
    {
        word_at(&self.words, event)
    }

    /// The words by events.
    pub(crate) fn words(&self) -> &[u64]
        ensures { result.now ≡ self.now.words.items }
    {
        &self.words
    }

    /// Marks the event in a lane, if there is one.
    fn mark(&mut self, event: Option<u32>, lane: u32)
        requires room { IfSome event (λ event. event < length self.old.words.items) }
        requires lane { lane < 64 }
        ensures marked { (other q : ℕ) →
            has_event self.new other q ≡ (other == lane && is_event q event || has_event self.old other q) }
        ensures room { length self.new.words.items ≡ length self.old.words.items }
    {
        let Some(event) = event else { return };
        self.words[event as usize] |= 1 << lane;
    }

    /// Notes the events of the leaves in a lane that has none. It takes memory in the measure of the
    /// greatest event, once.
    pub fn note(&mut self, tree: &Tree, leaves: &[u32], lane: u32) -> Result<(), AllocError>
        requires lane { lane < 64 }
        requires blank { (event : ℕ) → has_event self.old lane event ≡ false }
        ensures shown { OnOk result (Shows self.new lane (model.leaf_of_event tree.now.labels leaves.now)) }
        ensures others { (other event : ℕ) → (other == lane) ≡ false → has_event self.new other event ≡ has_event self.old other event }
        ensures unchanged { OnErr result ((other event : ℕ) → has_event self.new other event ≡ has_event self.old other event) }
    {
        make_room(&mut self.words, room_for(tree, leaves), 0)?;
        for leaf in leaves {
            self.mark(tree.event(*leaf), lane);
        }
        Ok(())
    }

    /// No event has a leaf any more. The memory is kept.
    pub fn clear(&mut self)
        ensures { (lane event : ℕ) → has_event self.new lane event ≡ false }
    {
        self.words.fill(0);
    }
}
