ghost use Rattle.std.specs.Prelude.{◌≡◌, ◌<◌, ◌≤◌, ℕ, IfOk, false, length};
ghost use Rattle.flow_model.specs.Facts.{event_at};
ghost use Rattle.flow_model.specs.Process.{IsNumbered};
ghost use Rattle.flow_goal.specs.Batches as batches;
ghost use Rattle.flow_goal.specs.Goal.{process_of};
ghost use Rattle.flow_goal.specs.Labelled.{Labelled};
ghost use Rattle.flow_goal.specs.Repeats.{HoldsNoneOf};

use crate::goal::Goal;
use crate::times::{new_table, repeated_in};
use crate::tree::Tree;
use std::alloc::{AllocError, Global};

/// Of 64 events, one a bit: which of them some leaf of a goal has, and which some execution of it holds twice.
#[derive(Clone, Copy)]
struct Seen {
    some: u64,
    again: u64,
}

/// Of two parts that both stay.
fn in_both(left: Seen, right: Seen) -> Seen
    ensures { result ≡ batches.in_both left right }
{
    Seen {
        some: left.some | right.some,
        again: left.again | right.again | left.some & right.some,
    }
}

/// Of the two sides of a choice.
fn in_choice(left: Seen, right: Seen) -> Seen
    ensures { result ≡ batches.in_choice left right }
{
    Seen {
        some: left.some | right.some,
        again: left.again | right.again,
    }
}

/// The place of an event, where it has one.
fn place_of(places: &[u32], event: Option<u32>) -> Option<u32>
    ensures { result ≡ batches.place_of places.now event }
{
    places.get(event? as usize).copied()
}

/// The bit of a place in the batch of that number, where it is one of that.
fn bit_of(place: Option<u32>, batch: u32) -> u64
    ensures { result ≡ batches.bit_of place batch }
{
    match place {
        Some(place) if place / 64 == batch => 1 << (place % 64),
        _ => 0,
    }
}

/// Of the events of one batch. It costs one walk.
fn seen_in(goal: &Goal, tree: &Tree, places: &[u32], batch: u32) -> Seen
    ensures { result ≡ batches.seen_in (λ n. batches.bit_of (batches.place_of places.now (event_at tree.now.labels n)) batch) (process_of goal.now) }
{
    match goal {
        Goal::Nop => Seen { some: 0, again: 0 },
        Goal::Leaf(leaf) => Seen {
            some: bit_of(place_of(places, tree.event(*leaf)), batch),
            again: 0,
        },
        Goal::Serial(left, right) | Goal::Beside(left, right) => {
            let one = seen_in(left, tree, places, batch);
            in_both(one, seen_in(right, tree, places, batch))
        }
        Goal::Either(left, right) => {
            let one = seen_in(left, tree, places, batch);
            in_choice(one, seen_in(right, tree, places, batch))
        }
        Goal::Iso(part) => seen_in(part, tree, places, batch),
    }
}

/// Where the events stand in the batches, and how many they are: each event that several leaves have, in the order of its second
/// leaf. Others have a place in no batch.
fn places_of(alloc: Global, tree: &Tree) -> Result<(Vec<u32>, u32), AllocError> {
    let mut table = new_table(alloc, tree)?;
    let mut places = vec![in alloc; u32::MAX; table.len()]?;
    let mut count: u32 = 0;
    for leaf in 0..tree.leaves() {
        if let Some(event) = repeated_in(tree, leaf, &mut table) {
            places[event as usize] = count;
            count += 1;
        }
    }
    Ok((places, count))
}

/// The events that several leaves have, in batches of 64.
#[derive(Drop)]
pub(crate) struct Batches {
    /// At the number of each event its place.
    places: Vec<u32>,
    /// Of each batch, the events that some execution holds twice.
    again: Vec<u64>,
}

impl Batches {
    ghost use Rattle.flow_goal.specs.Batches.{AreBatchesOf};

    /// Those of a tree. It costs a walk of the goal a batch.
    pub(crate) fn of(alloc: Global, tree: &Tree) -> Result<Batches, AllocError>
        ensures { IfOk result (AreBatchesOf tree.now) }
    {
        let (places, count) = places_of(alloc, tree)?;
        let mut again = Vec::new(alloc);
        for batch in 0..count.div_ceil(64) {
            again.push(seen_in(tree.goal(), tree, &places, batch).again)?;
        }
        Ok(Batches { places, again })
    }

    /// Whether some execution may hold the event twice.
    pub(crate) fn may_repeat(&self, event: u32) -> bool
        ensures { (t : Labelled) → IsNumbered t.process (length t.labels) → AreBatchesOf t self.now → result ≡ false → HoldsNoneOf t event }
    {
        let Some(place) = place_of(&self.places, Some(event)) else {
            return true;
        };
        let batch = (place / 64) as usize;
        batch >= self.again.len() || self.again[batch] >> (place % 64) & 1 == 1
    }
}
