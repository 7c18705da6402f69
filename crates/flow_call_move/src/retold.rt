//! The entries of a case that is moved are made and told in the new one.

use flow_ask::Ask;
use flow_case_talk::{Book, Speaker};
use flow_model::{Entry, FailEffect, Step};

/// What is asked so that the step is made.
fn ask_of(step: Step) -> Ask {
    match step {
        Step::Took { leaf, claim: _ } => Ask::Take(leaf),
        Step::Done { claim } | Step::Late { claim } => Ask::Done(claim),
        Step::Failed { claim, effect: _ } => Ask::Fail(claim),
        Step::Did { leaf } => Ask::Do(leaf),
        Step::Rewound { index: _ } => Ask::Rewind,
        Step::Committed => Ask::Commit,
    }
}

fn is_same_effect(one: FailEffect, other: FailEffect) -> bool {
    match (one, other) {
        (FailEffect::Switched, FailEffect::Switched) | (FailEffect::Kept, FailEffect::Kept) => true,
        _ => false,
    }
}

fn is_same_step(one: Step, other: Step) -> bool {
    match (one, other) {
        (Step::Took { claim: a, leaf: x }, Step::Took { claim: b, leaf: y }) => a == b && x == y,
        (Step::Done { claim: a }, Step::Done { claim: b })
        | (Step::Late { claim: a }, Step::Late { claim: b }) => a == b,
        (
            Step::Failed {
                claim: a,
                effect: x,
            },
            Step::Failed {
                claim: b,
                effect: y,
            },
        ) => a == b && is_same_effect(x, y),
        (Step::Did { leaf: x }, Step::Did { leaf: y }) => x == y,
        (Step::Rewound { index: i }, Step::Rewound { index: k }) => i == k,
        (Step::Committed, Step::Committed) => true,
        _ => false,
    }
}

/// Whether the case has that entry at the place, and no further one.
fn ends_with<B: Book>(book: &B, place: usize, entry: Entry) -> bool {
    let history = book.core().history();
    match history.get(place) {
        Some(made) => {
            history.len() == place + 1 && made.by == entry.by && is_same_step(made.step, entry.step)
        }
        None => false,
    }
}

/// Makes the entry in the new case, as it was told in the old one. Whether it is made.
fn retell_one<B: Book, C: Book>(old: &B, new: &mut C, place: usize, entry: Entry) -> bool {
    let Some(told) = old.told(place) else {
        return false;
    };
    let speaker = Speaker {
        number: entry.by,
        name: told.by,
        at: told.at,
        note: told.note,
    };
    let _ = new.ask(ask_of(entry.step), speaker);
    ends_with(new, place, entry)
}

/// Makes the entries in the new case, each as it was told in the old one. Or the place of the first that is not made.
pub(crate) fn retell<B: Book, C: Book>(
    old: &B,
    new: &mut C,
    entries: &[Entry],
) -> Result<(), usize> {
    for (place, entry) in entries.iter().enumerate() {
        if !retell_one(old, new, place, *entry) {
            return Err(place);
        }
    }
    Ok(())
}
