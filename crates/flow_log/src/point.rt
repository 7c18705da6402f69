ghost use Rattle.std.specs.Prelude.{◌≡◌, ◌↔◌, ◌==◌, if◌then◌else◌, ℕ, IsTrue};
ghost use Rattle.leaf_rows.specs.Leaves.{has_leaf};

use leaf_rows::LeafSet;

/// What a list of leaves leads to, and how the list goes.
#[derive(Clone, Copy)]
pub(crate) struct Point<const W: usize> {
    /// The leaves of the list.
    pub(crate) done: LeafSet<W>,
    /// The facts that hold after it, each by its place.
    pub(crate) facts: LeafSet<W>,
    /// Options of which the list is a ready run, by the places of their plans.
    pub(crate) options: LeafSet<W>,
    /// How many of the events it has.
    pub(crate) count: usize,
    /// The place of the point before its last leaf.
    pub(crate) before: usize,
    /// Its last leaf.
    pub(crate) leaf: u32,
    /// Made of the done leaves and the facts. No answer rests on it.
    pub(crate) key: u64,
}

/// Whether the two sets have the same members.
fn are_same<const W: usize>(one: &LeafSet<W>, other: &LeafSet<W>) -> bool
    ensures { IsTrue result ↔ ((n : ℕ) → has_leaf one.now n ≡ has_leaf other.now n) }
{
    one.is_subset(other) && other.is_subset(one)
}

/// The part of a key that a number makes.
fn mixed(number: u32) -> u64 {
    (number as u64 + 1).wrapping_mul(0x9E37_79B9_7F4A_7C15)
}

impl<const W: usize> Point<W> {
    ghost use Rattle.std.specs.Prelude.{◌<◌, ◌*◌, ◌≤◌, Bool, ◌||◌};
    ghost use Rattle.flow_log.specs.Search.{AreLike};

    /// Whether the two have as many events, the same done leaves and the same facts.
    pub(crate) fn is_like(&self, other: &Point<W>) -> bool
        ensures { IsTrue result ↔ AreLike self.now other.now }
    {
        self.count == other.count
            && are_same(&self.done, &other.done)
            && are_same(&self.facts, &other.facts)
    }

    /// Puts the leaf to the done ones.
    pub(crate) fn put_leaf(&mut self, leaf: u32)
        requires { leaf < 64 * W }
        ensures done { (n : ℕ) → has_leaf self.new.done n ≡ (n == leaf || has_leaf self.old.done n) }
        ensures others { self.new ≡ record self.old { done = self.new.done; key = self.new.key } }
    {
        self.done.insert(leaf);
        self.key ^= mixed(leaf);
    }

    /// Says whether the fact of that place holds.
    pub(crate) fn put_fact(&mut self, place: u32, holds: bool)
        requires { place < 64 * W }
        ensures facts { (n : ℕ) → has_leaf self.new.facts n ≡ (if n == place then holds else has_leaf self.old.facts n) }
        ensures others { self.new ≡ record self.old { facts = self.new.facts; key = self.new.key } }
    {
        if self.facts.has(place) != holds {
            self.key ^= mixed(!place);
        }
        if holds {
            self.facts.insert(place);
        } else {
            self.facts.remove(place);
        }
    }
}
