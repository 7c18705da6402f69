//! Sets of leaves, made of others.
ghost use Rattle.std.specs.Prelude.{◌≡◌, ◌<◌, ◌≤◌, ◌*◌, ◌==◌, ◌||◌, ℕ, IsTrue, All, IfNone, IfSome};
ghost use Rattle.flow_model.specs.Lists.{◌∈◌};
ghost use Rattle.leaf_rows.specs.Leaves.{has_leaf};
ghost use Rattle.flow_plan.specs.Ahead.{IsInSome};
ghost use Rattle.flow_plan.specs.Parts.{IsOneAtMost};
ghost use Rattle.flow_plan.specs.Rows.{IsRowOf};

use leaf_rows::LeafSet;

/// The leaves as a set.
pub(crate) fn set_of<const W: usize>(leaves: &[u32]) -> LeafSet<W>
    requires wide { W ≤ 64 }
    requires small { All (λ n. n < 64 * W) leaves.now }
    ensures { IsRowOf (λ x. x ∈ leaves.now) result }
{
    let mut set = LeafSet::new();
    for leaf in leaves {
        set.insert(*leaf);
    }
    set
}

/// What some of the rows has.
pub(crate) fn union<const W: usize>(rows: &[LeafSet<W>]) -> LeafSet<W>
    requires { W ≤ 64 }
    ensures { IsRowOf (IsInSome rows.now) result }
{
    let mut all = LeafSet::new();
    for row in rows {
        all.union_with(row);
    }
    all
}

/// The set with one leaf more.
pub(crate) fn with<const W: usize>(set: &LeafSet<W>, leaf: u32) -> LeafSet<W>
    requires { leaf < 64 * W }
    ensures { (k : ℕ) → has_leaf result k ≡ (k == leaf || has_leaf set.now k) }
{
    let mut more = *set;
    more.insert(leaf);
    more
}

/// Whether the set has no two leaves.
pub(crate) fn has_one_at_most<const W: usize>(set: &LeafSet<W>) -> bool
    ensures { IsTrue result → IsOneAtMost (λ n. IsTrue (has_leaf set.now n)) }
{
    let Some(first) = set.first() else {
        return true;
    };
    let mut rest = *set;
    rest.remove(first);
    rest.first().is_none()
}

/// The least leaf of the one set that the other lacks.
pub(crate) fn first_outside<const W: usize>(one: &LeafSet<W>, other: &LeafSet<W>) -> Option<u32>
    ensures none { IfNone result ((n : ℕ) → IsTrue (has_leaf one.now n) → IsTrue (has_leaf other.now n)) }
    ensures some { IfSome result (λ n. n < 64 * W × IsTrue (has_leaf one.now n) × ¬ (IsTrue (has_leaf other.now n))) }
{
    let mut outside = *one;
    outside.remove_all(other);
    outside.first()
}
