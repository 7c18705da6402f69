//! The sixteen bytes of an entry.
ghost use Rattle.std.specs.Prelude.{◌≡◌, ◌≤◌, ◌++◌, ℕ, List, MatchOption};
ghost use Rattle.flow_model.specs.declared.history.Entry.{Entry};
ghost use Rattle.flow_model.specs.declared.limits.TheConstants.{MOST_ENTRIES};
ghost use Rattle.flow_record.specs.History.{IsSmall};
ghost use Rattle.flow_keep.specs.Records.{kind_of, first_of, second_of, step_of, body_of};
ghost use Rattle.flow_step.specs.Records.{record_of, room_for};

use flow_model::{Entry, FailEffect, MOST_ENTRIES, Step};

/// How many bytes the record of an entry has.
pub const RECORD: usize = 16;

/// How many it has behind its gate.
const BODY: usize = 15;

/// The gate of a record that counts.
const OPEN: u8 = 1;

/// The kind of what an entry does, and its two numbers.
fn parts_of(step: Step) -> (u8, u32, u32)
    ensures kind { result.0 ≡ kind_of step }
    ensures first { result.1 ≡ first_of step }
    ensures second { result.2 ≡ second_of step }
{
    match step {
        Step::Took { claim, leaf } => (0, claim, leaf),
        Step::Done { claim } => (1, claim, 0),
        Step::Failed {
            claim,
            effect: FailEffect::Switched,
        } => (2, claim, 0),
        Step::Failed {
            claim,
            effect: FailEffect::Kept,
        } => (3, claim, 0),
        Step::Late { claim } => (4, claim, 0),
        Step::Did { leaf } => (5, leaf, 0),
        Step::Rewound { index } => (6, index, 0),
        Step::Committed => (7, 0, 0),
    }
}

/// What an entry of that kind and with those numbers does.
fn step_of(kind: u8, first: u32, second: u32) -> Option<Step>
    ensures { result ≡ step_of kind first second }
{
    match kind {
        0 => Some(Step::Took {
            claim: first,
            leaf: second,
        }),
        1 => Some(Step::Done { claim: first }),
        2 => Some(Step::Failed {
            claim: first,
            effect: FailEffect::Switched,
        }),
        3 => Some(Step::Failed {
            claim: first,
            effect: FailEffect::Kept,
        }),
        4 => Some(Step::Late { claim: first }),
        5 => Some(Step::Did { leaf: first }),
        6 => Some(Step::Rewound { index: first }),
        7 => Some(Step::Committed),
        _ => None,
    }
}

/// The bytes of an entry behind the gate of its record.
#[tactic(auto, using(flow_keep::proofs::EntryLemmas::small_numbers))]
fn body_of(entry: &Entry) -> [u8; BODY]
    ensures bytes { result ≡ body_of entry.now }
    ensures small { IsSmall entry.now }
{
    let (kind, first, second) = parts_of(entry.step);
    let [a, b, c, d] = entry.by.to_be_bytes();
    let [e, f, g, h] = first.to_be_bytes();
    let [i, j, k, l] = second.to_be_bytes();
    [kind, 0, 0, a, b, c, d, e, f, g, h, i, j, k, l]
}

/// The record of an entry.
pub fn record_of(entry: &Entry) -> [u8; RECORD]
    ensures bytes { result ≡ record_of entry.now }
    ensures small { IsSmall entry.now }
{
    let [kind, x, y, a, b, c, d, e, f, g, h, i, j, k, l] = body_of(entry);
    [OPEN, kind, x, y, a, b, c, d, e, f, g, h, i, j, k, l]
}

/// The entry that the bytes behind a gate tell, if they tell one.
fn entry_of(body: &[u8; BODY]) -> Option<Entry>
    ensures { MatchOption result ((entry : Entry) → IsSmall entry → ¬ (body_of entry ≡ body.now))
        (λ entry. IsSmall entry × (body_of entry ≡ body.now)) }
{
    let [kind, _, _, a, b, c, d, e, f, g, h, i, j, k, l] = *body;
    let by = u32::from_be_bytes([a, b, c, d]);
    let first = u32::from_be_bytes([e, f, g, h]);
    let second = u32::from_be_bytes([i, j, k, l]);
    let step = step_of(kind, first, second)?;
    let entry = Entry { by, step };
    if body_of(&entry) == *body {
        Some(entry)
    } else {
        None
    }
}

/// The entry of the first record, if the bytes begin with one, and the bytes behind it.
pub(crate) fn split_record(bytes: &[u8]) -> Option<(Entry, &[u8])>
    ensures { MatchOption result ((entry : Entry) (more : List ℕ) → IsSmall entry → ¬ (bytes.now ≡ record_of entry ++ more))
        (λ found. IsSmall found.0 × (bytes.now ≡ record_of found.0 ++ found.1.now)) }
{
    let (gate, rest) = bytes.split_first()?;
    if *gate != OPEN {
        return None;
    }
    let (body, more) = rest.split_first_chunk::<BODY>()?;
    match entry_of(body) {
        Some(entry) => Some((entry, more)),
        None => None,
    }
}

/// The limit of a run that goes on from these records: it has room for one entry more.
pub(crate) fn room_for(history: &[u8]) -> u32
    ensures { result ≡ room_for history.now }
{
    (history.len() / RECORD + 1).min(MOST_ENTRIES as usize) as u32
}
