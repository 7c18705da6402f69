ghost use Rattle.std.specs.Prelude.{◌≡◌, ◌<◌, ◌≤◌, ◌+◌, ◌^◌, ℕ, length, slice_index, MatchOption};
ghost use Rattle.flow_model.specs.Lists.{◌∈◌};
ghost use Rattle.flow_model.specs.Schema.{Schema};
ghost use Rattle.flow_model.specs.Run.{RunState, next_state, state_of};
ghost use Rattle.flow_core.specs.Run.{schema, now};
ghost use Rattle.flow_reason.specs.DoneBy.{HasGrown, IsDoneBy};

use flow_core::Core;
use flow_model::{Entry, Step};

/// How long the journal is after the step, where it is so long before it.
fn length_after(long: usize, step: Step) -> usize
    requires { long < 2 ^ 63 }
    ensures after { (w : Schema) (s : RunState) → length s.journal ≡ long → length (next_state w s step).journal ≡ result }
    ensures most { result ≤ long + 1 }
{
    match step {
        Step::Done { .. } | Step::Did { .. } => long + 1,
        Step::Rewound { index } => long.min(index as usize),
        Step::Took { .. } | Step::Failed { .. } | Step::Late { .. } | Step::Committed => long,
    }
}

/// The last entry at which the journal got longer than the place, where it is longer now.
fn grown_past(history: &[Entry], place: usize) -> Option<usize>
    ensures { (w : Schema) → MatchOption result (length (state_of w history.now).journal ≤ place) (HasGrown w history.now place (length history.now)) }
{
    let mut long: usize = 0;
    let mut grown = None;
    for (index, entry) in history.iter().enumerate() {
        let before = long;
        long = length_after(before, entry.step);
        if long <= place {
            grown = None;
        } else if before <= place {
            grown = Some(index);
        }
    }
    grown
}

/// The first place of the leaf, if it is in the list.
fn place_of(list: &[u32], leaf: u32) -> Option<usize>
    ensures { MatchOption result (¬ (leaf ∈ list.now)) (λ place. (place < length list.now) × (leaf ≡ slice_index list.now place)) }
{
    for (place, other) in list.iter().enumerate() {
        if *other == leaf {
            return Some(place);
        }
    }
    None
}

/// The entry that did the leaf, if it is done.
pub(crate) fn entry_that_did(core: &Core, leaf: u32) -> Option<usize>
    ensures { MatchOption result (¬ (leaf ∈ (now core.now).journal)) (IsDoneBy (schema core.now) core.now.history leaf) }
{
    let place = place_of(core.journal(), leaf)?;
    grown_past(core.history(), place)
}
