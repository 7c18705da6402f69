//! Leaves as sets, and what the choices that stay tell by them.
ghost use Rattle.std.specs.Prelude.{◌≡◌, ◌<◌, ◌↔◌, ◌⊎◌, ◌&&◌, not, ℕ, List, IsTrue, IfNone, IfSome};
ghost use Rattle.flow_model.specs.Lists.{◌∈◌, Each, AreDistinct};
ghost use Rattle.flow_model.specs.Resolution.{ChoiceOption};
ghost use Rattle.leaf_rows.specs.Leaves.{has_leaf};
ghost use Rattle.flow_plan.specs.Rows.{IsRowOf};
ghost use Rattle.flow_residual.specs.Remaining.{banned};
ghost use Rattle.flow_residual.specs.Telling.{AreServing, IsApart, IsOrderedOption, IsSetOf, Tells};
ghost use Rattle.flow_residual.specs.View.{pairs_of_bans};

use crate::residual::Ban;
use flow_model::MOST_LEAVES;
use flow_plan::{FoldRow, Sides, closed_off, distinct};
use leaf_rows::{LEAF_WORDS, LeafSet};

/// The leaves as a set.
pub(crate) fn set_of(leaves: &[u32]) -> LeafSet<LEAF_WORDS>
    requires { Each (λ n. n < MOST_LEAVES) leaves.now }
    ensures { IsSetOf leaves.now result }
{
    let mut set = LeafSet::new();
    for leaf in leaves {
        set.insert(*leaf);
    }
    set
}

/// The banned leaves as a set.
pub(crate) fn set_of_bans(bans: &[Ban]) -> LeafSet<LEAF_WORDS>
    requires { Each (λ n. n < MOST_LEAVES) (banned (pairs_of_bans bans.now)) }
    ensures { IsSetOf (banned (pairs_of_bans bans.now)) result }
{
    let mut set = LeafSet::new();
    for ban in bans {
        set.insert(ban.leaf);
    }
    set
}

/// Whether each of the numbers has a place in a row.
fn all_small(list: &[u32]) -> bool
    ensures { IsTrue result ↔ Each (λ n. n < MOST_LEAVES) list.now }
{
    for leaf in list {
        if MOST_LEAVES <= *leaf {
            return false;
        }
    }
    true
}

/// The leaves as a set, where each has a place in a row and none of them stands twice.
pub(crate) fn row_of(list: &[u32]) -> Option<LeafSet<LEAF_WORDS>>
    ensures some { IfSome result (λ set. AreDistinct list.now × IsRowOf (λ x. x ∈ list.now) set) }
    ensures none { IfNone result (¬ (Each (λ n. n < MOST_LEAVES) list.now × AreDistinct list.now)) }
{
    if all_small(list) {
        distinct(list)
    } else {
        None
    }
}

/// The one set without the members of the other.
pub(crate) fn less(one: &LeafSet<LEAF_WORDS>, other: &LeafSet<LEAF_WORDS>) -> LeafSet<LEAF_WORDS>
    ensures { (n : ℕ) → has_leaf result n ≡ (not (has_leaf other.now n) && has_leaf one.now n) }
{
    let mut rest = *one;
    rest.remove_all(other);
    rest
}

/// Whether each member of the set is one of the one or of the other.
pub(crate) fn is_covered<const W: usize>(
    set: &LeafSet<W>,
    one: &LeafSet<W>,
    other: &LeafSet<W>,
) -> bool
    ensures { IsTrue result ↔ ((n : ℕ) → IsTrue (has_leaf set.now n) → IsTrue (has_leaf one.now n) ⊎ IsTrue (has_leaf other.now n)) }
{
    let mut rest = *set;
    rest.remove_all(one);
    rest.is_subset(other)
}

/// What the choices tell of all options by the done and the banned leaves: one look at each choice.
pub(crate) fn sides_by(
    folds: &[FoldRow],
    done: &LeafSet<LEAF_WORDS>,
    excluded: &LeafSet<LEAF_WORDS>,
) -> Sides
    ensures { (os : List ChoiceOption) (journal bans : List ℕ) → Each IsOrderedOption os → Each (AreServing folds.now) os →
        IsSetOf journal done.now → IsSetOf bans excluded.now → Tells os journal bans result }
{
    Sides::new(folds, done, excluded)
}

/// The leaves that those of the set close off.
pub(crate) fn closed_by(folds: &[FoldRow], set: &LeafSet<LEAF_WORDS>) -> LeafSet<LEAF_WORDS>
    ensures { (os : List ChoiceOption) (list : List ℕ) → Each IsOrderedOption os → Each (AreServing folds.now) os →
        IsSetOf list set.now → Each (IsApart list result) os }
{
    closed_off(folds, set)
}
