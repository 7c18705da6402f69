ghost use Rattle.std.specs.Prelude.{◌≡◌, ◌<◌, ◌≤◌, ◌*◌, ◌↔◌, ◌∷◌, ℕ, [], IsTrue, IfOk, false};
ghost use Rattle.leaf_rows.specs.Leaves.{has_leaf};
ghost use Rattle.flow_model.specs.Lists.{Each};
ghost use Rattle.flow_model.specs.Ready.{DirectlyBefore};
ghost use Rattle.flow_plan.specs.Planned.{pairs_of};
ghost use Rattle.flow_sample.specs.Rows.{IsIn, WaitsFor};

use flow_plan::Plan;
use leaf_rows::LeafSet;
use std::alloc::{AllocError, Global};

/// An item of a part: a leaf, or an isolated part that is done as a whole. Its sets are as wide as the plan asks for.
#[derive(Drop)]
pub(crate) struct Item<const W: usize> {
    pub(crate) inside: LeafSet<W>,
    /// The leaves outside that are directly before one inside.
    pub(crate) waits: LeafSet<W>,
    pub(crate) least: u32,
    /// An execution of the item alone.
    pub(crate) run: Vec<u32>,
}

/// The leaves of the items.
pub(crate) fn all_inside<const W: usize>(items: &[Item<W>]) -> LeafSet<W>
    requires { W ≤ 64 }
    ensures { (x : ℕ) → IsTrue (has_leaf result x) ↔ ((n : ℕ) × IsIn items.now n x) }
{
    let mut all = LeafSet::new();
    for item in items {
        all.union_with(&item.inside);
    }
    all
}

/// The leaves that some item waits for.
fn all_waits<const W: usize>(items: &[Item<W>]) -> LeafSet<W>
    requires { W ≤ 64 }
    ensures { (x : ℕ) → IsTrue (has_leaf result x) ↔ ((n : ℕ) × WaitsFor items.now n x) }
{
    let mut all = LeafSet::new();
    for item in items {
        all.union_with(&item.waits);
    }
    all
}

impl<const W: usize> Item<W> {
    ghost use Rattle.flow_sample.specs.Rows.{IsOneOf};

    /// A leaf as an item.
    pub(crate) fn of_leaf(alloc: Global, plan: &Plan, leaf: u32) -> Result<Item<W>, AllocError>
        requires wide { W ≤ 64 }
        requires small { Each (λ n. n < 64 * W) plan.now.leaves }
        requires leaf { leaf < 64 * W }
        ensures inside { IfOk result (λ item. (x : ℕ) → IsTrue (has_leaf item.inside x) ↔ (x ≡ leaf)) }
        ensures waits { IfOk result (λ item. (x : ℕ) → IsTrue (has_leaf item.waits x)
            ↔ DirectlyBefore plan.now.process (pairs_of plan.now.tokens) x leaf) }
        ensures least { IfOk result (λ item. item.least ≡ leaf) }
        ensures run { IfOk result (λ item. item.run.items ≡ leaf ∷ []) }
    {
        let mut inside = LeafSet::new();
        inside.insert(leaf);
        Ok(Item {
            inside,
            waits: plan.all_before_in(leaf),
            least: leaf,
            run: Vec::from_slice(alloc, &[leaf])?,
        })
    }

    /// The items of an isolated part as one item.
    pub(crate) fn of_part(items: &[Item<W>], run: Vec<u32>) -> Item<W>
        requires wide { W ≤ 64 }
        requires some { (n x : ℕ) × IsIn items.now n x }
        ensures { IsOneOf items.now run.items result }
    {
        let inside = all_inside(items);
        let mut waits = all_waits(items);
        waits.remove_all(&inside);
        let Some(least) = inside.first() else {
            unreachable!()
        };
        Item {
            inside,
            waits,
            least,
            run,
        }
    }
}
