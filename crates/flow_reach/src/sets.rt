//! Leaves as sets, as far as there is room for them.
ghost use Rattle.std.specs.Prelude.{◌<◌, ◌↔◌, ◌⊎◌, ◌≡◌, ℕ, IsTrue};
ghost use Rattle.flow_model.specs.declared.limits.TheConstants.{MOST_LEAVES};
ghost use Rattle.flow_model.specs.Lists.{◌∈◌};
ghost use Rattle.leaf_rows.specs.Leaves.{has_leaf};

use flow_model::MOST_LEAVES;
use leaf_rows::{LEAF_WORDS, LeafSet};

/// The set with the leaf besides, where there is room for it.
pub(crate) fn with_leaf(set: &LeafSet<LEAF_WORDS>, leaf: u32) -> LeafSet<LEAF_WORDS>
    ensures { (n : ℕ) → IsTrue (has_leaf result n) ↔ (IsTrue (has_leaf set.now n) ⊎ ((n < MOST_LEAVES) × (n ≡ leaf))) }
{
    if MOST_LEAVES <= leaf {
        return *set;
    }
    let mut more = *set;
    more.insert(leaf);
    more
}

/// The leaves of the list for which there is room.
pub(crate) fn set_of(leaves: &[u32]) -> LeafSet<LEAF_WORDS>
    ensures { (n : ℕ) → IsTrue (has_leaf result n) ↔ ((n < MOST_LEAVES) × (n ∈ leaves.now)) }
{
    let mut set = LeafSet::new();
    for leaf in leaves {
        set = with_leaf(&set, *leaf);
    }
    set
}
