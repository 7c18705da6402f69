//! The fifteen bytes of an entry, behind the gate of its record.
ghost use Rattle.std.specs.Prelude.{◌≡◌, MatchOption};
ghost use Rattle.flow_model.specs.declared.history.Entry.{Entry};
ghost use Rattle.flow_record.specs.History.{IsSmall};
ghost use Rattle.flow_keep.specs.Records.{kind_of, first_of, second_of, step_of, body_of};

use flow_model::{Entry, FailEffect, Step};

/// How many bytes a record has behind its gate.
pub(crate) const BODY: usize = 15;

fn kind_of(step: Step) -> u8
    ensures { result ≡ kind_of step }
{
    match step {
        Step::Took { .. } => 0,
        Step::Done { .. } => 1,
        Step::Failed {
            effect: FailEffect::Switched,
            ..
        } => 2,
        Step::Failed {
            effect: FailEffect::Kept,
            ..
        } => 3,
        Step::Late { .. } => 4,
        Step::Did { .. } => 5,
        Step::Rewound { .. } => 6,
        Step::Committed => 7,
    }
}

fn first_of(step: Step) -> u32
    ensures { result ≡ first_of step }
{
    match step {
        Step::Took { claim, .. } => claim,
        Step::Done { claim } => claim,
        Step::Failed { claim, .. } => claim,
        Step::Late { claim } => claim,
        Step::Did { leaf } => leaf,
        Step::Rewound { index } => index,
        Step::Committed => 0,
    }
}

fn second_of(step: Step) -> u32
    ensures { result ≡ second_of step }
{
    match step {
        Step::Took { leaf, .. } => leaf,
        _ => 0,
    }
}

fn step_of(kind: u8, first: u32, second: u32) -> Option<Step>
    ensures { result ≡ step_of kind first second }
{
    match kind {
        0 => Some(Step::Took {
            claim: first,
            leaf: second,
        }),
        1 => Some(Step::Done { claim: first }),
        2 => Some(Step::Failed {
            claim: first,
            effect: FailEffect::Switched,
        }),
        3 => Some(Step::Failed {
            claim: first,
            effect: FailEffect::Kept,
        }),
        4 => Some(Step::Late { claim: first }),
        5 => Some(Step::Did { leaf: first }),
        6 => Some(Step::Rewound { index: first }),
        7 => Some(Step::Committed),
        _ => None,
    }
}

/// The bytes of an entry.
#[tactic(auto, using(crate::proofs::EntryLemmas::small_numbers))]
pub(crate) fn body_of(entry: &Entry) -> [u8; BODY]
    ensures bytes { result ≡ body_of entry.now }
    ensures small { IsSmall entry.now }
{
    let kind = kind_of(entry.step);
    let [a, b, c, d] = entry.by.to_be_bytes();
    let [e, f, g, h] = first_of(entry.step).to_be_bytes();
    let [i, j, k, l] = second_of(entry.step).to_be_bytes();
    [kind, 0, 0, a, b, c, d, e, f, g, h, i, j, k, l]
}

/// The entry that the bytes tell, if they tell one.
pub(crate) fn entry_of(body: &[u8; BODY]) -> Option<Entry>
    ensures { MatchOption result ((entry : Entry) → IsSmall entry → ¬ (body_of entry ≡ body.now))
        (λ entry. IsSmall entry × (body_of entry ≡ body.now)) }
{
    let [kind, _, _, a, b, c, d, e, f, g, h, i, j, k, l] = *body;
    let by = u32::from_be_bytes([a, b, c, d]);
    let first = u32::from_be_bytes([e, f, g, h]);
    let second = u32::from_be_bytes([i, j, k, l]);
    let step = step_of(kind, first, second)?;
    let entry = Entry { by, step };
    if body_of(&entry) == *body {
        Some(entry)
    } else {
        None
    }
}
