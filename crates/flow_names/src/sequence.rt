//! Which leaves of a goal stand before which.
ghost use Rattle.std.specs.Prelude.{◌≡◌, ◌↔◌, IsTrue};
ghost use Rattle.flow_goal.specs.Goal.{process_of};
ghost use Rattle.flow_model.specs.Ready.{InSequence};
ghost use Rattle.flow_names.specs.Sequence.{seen_in, with_sequence, with_both};

use flow_goal::Goal;

/// What is seen of two leaves in a goal.
#[derive(Clone, Copy)]
struct Seen {
    /// Whether the goal has the first.
    first: bool,
    /// Whether it has the second.
    second: bool,
    /// Whether the least goal above both is a sequence, with the first on its left.
    in_sequence: bool,
}

impl Seen {
    /// Of a sequence of two goals.
    fn then(self, right: Seen) -> Seen
        ensures { result ≡ with_sequence self right }
    {
        Seen {
            first: self.first || right.first,
            second: self.second || right.second,
            in_sequence: self.first && right.second || self.in_sequence || right.in_sequence,
        }
    }

    /// Of two goals of which neither stands before the other.
    fn beside(self, right: Seen) -> Seen
        ensures { result ≡ with_both self right }
    {
        Seen {
            first: self.first || right.first,
            second: self.second || right.second,
            in_sequence: self.in_sequence || right.in_sequence,
        }
    }
}

fn seen_in(goal: &Goal, first: u32, second: u32) -> Seen
    ensures { result ≡ seen_in (process_of goal.now) first second }
{
    match goal {
        Goal::Nop => Seen {
            first: false,
            second: false,
            in_sequence: false,
        },
        Goal::Leaf(leaf) => Seen {
            first: *leaf == first,
            second: *leaf == second,
            in_sequence: false,
        },
        Goal::Serial(left, right) => {
            let left = seen_in(left, first, second);
            left.then(seen_in(right, first, second))
        }
        Goal::Beside(left, right) | Goal::Either(left, right) => {
            let left = seen_in(left, first, second);
            left.beside(seen_in(right, first, second))
        }
        Goal::Iso(part) => seen_in(part, first, second),
    }
}

/// Whether the least goal above both leaves is a sequence, with the first on its left.
#[tactic(auto, using(crate::proofs::SequenceLemmas::sequence_seen))]
pub(crate) fn stands_before(goal: &Goal, first: u32, second: u32) -> bool
    ensures { IsTrue result ↔ InSequence (process_of goal.now) first second }
{
    seen_in(goal, first, second).in_sequence
}
