ghost use Rattle.std.specs.Prelude.{◌≡◌, ◌<◌, ◌≤◌, ◌&&◌, ◌||◌, ℕ, IsTrue, IfOk, IfErr, MatchOption, MatchResult, length, not, slice_get, slice_index};
ghost use Rattle.flow_model.specs.Lists.{◌∈◌, Each};
ghost use Rattle.leaf_rows.specs.Leaves.{has_leaf};
ghost use Rattle.flow_sample.specs.Rows.{AreApart, IsIn, WaitsFor, has_inside, runs};
ghost use Rattle.flow_sample.specs.Arranged.{TakesIn, IsArranged, IsNodeRing, IsRunOf, TellsRing};

use crate::circle::circle_of;
use crate::item::{Item, all_inside};
use crate::sample::ExciseRefusal;
use leaf_rows::LeafSet;
use std::alloc::{AllocError, Global};

/// The item that the leaf is in. Leaves rise from item to item, so it is the last whose least leaf is not above this one,
/// which is found by halves.
fn item_with<const W: usize>(items: &[Item<W>], leaf: u32) -> usize
    requires apart { AreApart items.now }
    requires some { (n : ℕ) × IsIn items.now n leaf }
    ensures { IsIn items.now result leaf }
{
    let mut first = 0;
    let mut end = items.len();
    while first + 1 < end {
        let middle = first + (end - first) / 2;
        if items[middle].least <= leaf {
            first = middle;
        } else {
            end = middle;
        }
    }
    first
}

/// An item that the one of that number waits for, and that is left.
fn blocker<const W: usize>(items: &[Item<W>], left: &LeafSet<W>, number: usize) -> Option<usize>
    requires wide { W ≤ 64 }
    requires apart { AreApart items.now }
    requires there { number < length items.now }
    requires within { (x : ℕ) → IsTrue (has_leaf left.now x) → (n : ℕ) × IsIn items.now n x }
    ensures { MatchOption result
        ((x : ℕ) → WaitsFor items.now number x → ¬ IsTrue (has_leaf left.now x))
        (λ next. (x : ℕ) × IsIn items.now next x × WaitsFor items.now number x × IsTrue (has_leaf left.now x)) }
{
    match items[number].waits.first_common(left) {
        Some(leaf) => Some(item_with(items, leaf)),
        None => None,
    }
}

/// Takes the leaves of an item out.
fn take_out<const W: usize>(items: &[Item<W>], number: usize, set: &mut LeafSet<W>)
    requires { number < length items.now }
    ensures { (x : ℕ) → has_leaf set.new x ≡ (not (has_inside (slice_get items.now number) x) && has_leaf set.old x) }
{
    set.remove_all(&items[number].inside);
}

/// Puts the leaves of an item in.
fn put_in<const W: usize>(items: &[Item<W>], number: usize, set: &mut LeafSet<W>)
    requires { number < length items.now }
    ensures { (x : ℕ) → has_leaf set.new x ≡ (has_leaf set.old x || has_inside (slice_get items.now number) x) }
{
    set.union_with(&items[number].inside);
}

/// The first place of a number in a path.
fn place_in_path(path: &[usize], number: usize) -> usize
    requires { number ∈ path.now }
    ensures within { result < length path.now }
    ensures there { slice_index path.now result ≡ number }
{
    for (place, seen) in path.iter().enumerate() {
        if *seen == number {
            return place;
        }
    }
    unreachable!()
}

/// The items of a ring as a refusal.
fn refusal_of<const W: usize>(alloc: Global, items: &[Item<W>], ring: &[usize]) -> ExciseRefusal
    requires wide { W ≤ 64 }
    requires ring { IsNodeRing items.now ring.now }
    ensures { TellsRing items.now result }
{
    match circle_of(alloc, items, ring) {
        Ok(circle) => ExciseRefusal::Circle(circle),
        Err(_) => ExciseRefusal::NoMemory,
    }
}

/// Puts the item behind the order, and before it those that it waits for, as far as they are left. If
/// they wait for each other, a circle of them is the refusal. The path goes from the item to one that it
/// waits for, and on; the leaves on it are a set, so that only a ring that is found is looked for in it.
fn put_in_order<const W: usize>(
    alloc: Global,
    items: &[Item<W>],
    start: usize,
    left: &mut LeafSet<W>,
    order: &mut Vec<usize>,
) -> Result<(), ExciseRefusal>
    requires wide { W ≤ 64 }
    requires apart { AreApart items.now }
    requires there { start < length items.now }
    requires fresh { ¬ (start ∈ order.old.items) }
    requires arranged { IsArranged items.now left.old order.old.items }
    ensures { MatchResult result
        (λ _. IsArranged items.now left.new order.new.items × TakesIn start order.old.items order.new.items)
        (TellsRing items.now) }
{
    let mut path = Vec::from_slice(alloc, &[start])?;
    let mut on_path = items[start].inside;
    while let Some(top) = path.last().copied() {
        match blocker(items, left, top) {
            None => {
                take_out(items, top, left);
                take_out(items, top, &mut on_path);
                order.push(top)?;
                path.pop();
            }
            Some(next) => {
                if items[next].inside.meets(&on_path) {
                    path.reverse();
                    let place = place_in_path(&path, next);
                    return Err(refusal_of(alloc, items, &path[..place + 1]));
                }
                put_in(items, next, &mut on_path);
                path.push(next)?;
            }
        }
    }
    Ok(())
}

/// The runs of the items in that order.
fn joined_runs<const W: usize>(
    alloc: Global,
    items: &[Item<W>],
    order: &[usize],
) -> Result<Vec<u32>, AllocError>
    requires { Each (λ n. n < length items.now) order.now }
    ensures { IfOk result (λ run. run.items ≡ runs items.now order.now) }
{
    let mut run = Vec::new(alloc);
    for number in order {
        run.extend_from_slice(&items[*number].run)?;
    }
    Ok(run)
}

/// The runs of the items one after another, each after those that it waits for. If they wait for each
/// other, a circle of them is the refusal.
pub(crate) fn run_of<const W: usize>(
    alloc: Global,
    items: &[Item<W>],
) -> Result<Vec<u32>, ExciseRefusal>
    requires wide { W ≤ 64 }
    requires apart { AreApart items.now }
    ensures ok { IfOk result (λ run. IsRunOf items.now run.items) }
    ensures ring { IfErr result (TellsRing items.now) }
{
    let mut left = all_inside(items);
    let mut order = Vec::with_capacity(alloc, items.len())?;
    for start in 0..items.len() {
        if items[start].inside.meets(&left) {
            put_in_order(alloc, items, start, &mut left, &mut order)?;
        }
    }
    Ok(joined_runs(alloc, items, &order)?)
}
