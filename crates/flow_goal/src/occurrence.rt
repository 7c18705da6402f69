ghost use Rattle.std.specs.Prelude.{◌≡◌};
ghost use Rattle.flow_model.specs.Facts.{event_at, is_event};
ghost use Rattle.flow_goal.specs.Goal.{process_of};
ghost use Rattle.flow_goal.specs.Occurrences;

use crate::goal::Goal;
use crate::tree::Tree;

/// What the leaves of a goal that have an event come to.
#[derive(Clone, Copy)]
pub(crate) enum Occurrence {
    Never,
    /// The first of them. No execution has two.
    Once(u32),
    /// The first of them, and of the pairs in one execution the least one.
    Again(u32, u32, u32),
}

impl Occurrence {
    /// The first leaf.
    fn first(self) -> Option<u32>
        ensures { result ≡ Occurrences.first self }
    {
        match self {
            Occurrence::Never => None,
            Occurrence::Once(leaf) | Occurrence::Again(leaf, _, _) => Some(leaf),
        }
    }
}

/// Of two parts that both stay.
fn in_both(left: Occurrence, right: Occurrence) -> Occurrence
    ensures { result ≡ Occurrences.in_both left right }
{
    let Some(next) = right.first() else {
        return left;
    };
    match left {
        Occurrence::Never => right,
        Occurrence::Again(leaf, first, _) if first == leaf => left,
        Occurrence::Once(leaf) | Occurrence::Again(leaf, _, _) => {
            Occurrence::Again(leaf, leaf, next)
        }
    }
}

/// Of the two sides of a choice.
fn in_choice(left: Occurrence, right: Occurrence) -> Occurrence
    ensures { result ≡ Occurrences.in_choice left right }
{
    match (left, right) {
        (Occurrence::Never, _) => right,
        (Occurrence::Once(leaf), Occurrence::Again(_, first, second)) => {
            Occurrence::Again(leaf, first, second)
        }
        (_, _) => left,
    }
}

/// Of a goal. It costs one walk.
pub(crate) fn occurrence_of(goal: &Goal, tree: &Tree, event: u32) -> Occurrence
    ensures { result ≡ Occurrences.occurrence_in (λ n. is_event event (event_at tree.now.labels n)) (process_of goal.now) }
{
    match goal {
        Goal::Nop => Occurrence::Never,
        Goal::Leaf(leaf) => {
            if tree.has_event(*leaf, event) {
                Occurrence::Once(*leaf)
            } else {
                Occurrence::Never
            }
        }
        Goal::Serial(left, right) | Goal::Beside(left, right) => {
            let one = occurrence_of(left, tree, event);
            in_both(one, occurrence_of(right, tree, event))
        }
        Goal::Either(left, right) => {
            let one = occurrence_of(left, tree, event);
            in_choice(one, occurrence_of(right, tree, event))
        }
        Goal::Iso(part) => occurrence_of(part, tree, event),
    }
}
