ghost use Rattle.std.specs.Prelude.{◌<◌};

use crate::lanes::word_at;
use crate::leaf_table::LeafEvents;

/// What tells of events whether they have a leaf.
pub trait Presence {
    ghost use Rattle.std.specs.Prelude.{◌≡◌, ℕ, Bool};

    // Whether an event has one.
    ghost present: { Self → ℕ → Bool };

    /// Whether the event has a leaf.
    fn has(&self, event: u32) -> bool
        ensures { result ≡ present self.now event };
}

impl Presence for LeafEvents {
    ghost use Rattle.std.specs.Prelude.{is_some};
    ghost use Rattle.flow_rules.specs.EventLeaves.{leaf_in};

    ghost present = { λ events event. is_some (leaf_in events event) };

    fn has(&self, event: u32) -> bool {
        self.leaf_of(event).is_some()
    }
}

/// One of up to 64 maps side by side, whose words are lent.
#[derive(Drop)]
pub(crate) struct Lane<'a> {
    pub(crate) words: &'a [u64],
    pub(crate) lane: u32,
    ghost within: { lane < 64 },
}

impl<'a> Presence for Lane<'a> {
    ghost use Rattle.flow_rules.specs.Lanes.{is_marked};

    ghost present = { λ one event. is_marked one.words.now one.lane event };

    fn has(&self, event: u32) -> bool {
        word_at(self.words, event) >> self.lane & 1 == 1
    }
}
