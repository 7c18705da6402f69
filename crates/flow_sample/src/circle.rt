ghost use Rattle.std.specs.Prelude.{◌≡◌, ◌<◌, ◌≤◌, ℕ, IfOk, length, map, slice_index};
ghost use Rattle.flow_model.specs.Lists.{Each};
ghost use Rattle.flow_sample.specs.Rows.{least_at};
ghost use Rattle.flow_sample.specs.Turned.{IsTurned};

use crate::item::Item;
use std::alloc::{AllocError, Global};

/// Why an option has no execution: two or more items of one part wait for each other in a ring. Each is
/// written as its least leaf, the least of all first.
#[derive(Debug, Drop)]
pub struct Circle {
    leaves: Vec<u32>,
}

impl Circle {
    /// The items, each before the next and the last before the first.
    pub fn leaves(&self) -> &[u32]
        ensures { result.now ≡ self.now.leaves.items }
    {
        &self.leaves
    }
}

/// The least leaves of those items.
fn leasts<const W: usize>(
    alloc: Global,
    items: &[Item<W>],
    numbers: &[usize],
) -> Result<Vec<u32>, AllocError>
    requires { Each (λ number. number < length items.now) numbers.now }
    ensures { IfOk result (λ leaves. leaves.items ≡ map (least_at items.now) numbers.now) }
{
    let mut leaves = Vec::with_capacity(alloc, numbers.len())?;
    for number in numbers {
        leaves.push(items[*number].least)?;
    }
    Ok(leaves)
}

/// The first place of the least number.
fn least_place(list: &[u32]) -> usize
    requires { 0 < length list.now }
    ensures within { result < length list.now }
    ensures least { (k : ℕ) → k < length list.now → slice_index list.now result ≤ slice_index list.now k }
{
    let least = list.iter().enumerate().min_by_key(|(_, number)| **number);
    least.map_or(0, |(place, _)| place)
}

/// The items of a ring as a circle.
pub(crate) fn circle_of<const W: usize>(
    alloc: Global,
    items: &[Item<W>],
    ring: &[usize],
) -> Result<Circle, AllocError>
    requires within { Each (λ number. number < length items.now) ring.now }
    requires some { 0 < length ring.now }
    ensures { IfOk result (λ circle. IsTurned (map (least_at items.now) ring.now) circle.leaves.items) }
{
    let mut leaves = leasts(alloc, items, ring)?;
    let place = least_place(&leaves);
    leaves.rotate_left(place);
    Ok(Circle { leaves })
}
