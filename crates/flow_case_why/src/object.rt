//! Why a leaf waits, as members of an object of JSON.

use flow_reason::Reason;
use itoa::Buffer;
use std::alloc::AllocError;

/// Adds words.
fn push_words(text: &mut Vec<u8>, words: &str) -> Result<(), AllocError> {
    text.extend_from_slice(words.as_bytes())
}

/// Adds a member whose value is a number.
fn push_number(text: &mut Vec<u8>, key: &str, number: u64) -> Result<(), AllocError> {
    let mut digits = Buffer::new();
    push_key(text, key)?;
    push_words(text, digits.format(number))
}

/// Adds the key of a member that is not the first one.
fn push_key(text: &mut Vec<u8>, key: &str) -> Result<(), AllocError> {
    push_words(text, ",\"")?;
    push_words(text, key)?;
    push_words(text, "\":")
}

/// Adds a member whose value is a list of numbers.
fn push_list(text: &mut Vec<u8>, key: &str, numbers: &[u32]) -> Result<(), AllocError> {
    push_key(text, key)?;
    push_words(text, "[")?;
    let mut before = "";
    for number in numbers {
        let mut digits = Buffer::new();
        push_words(text, before)?;
        push_words(text, digits.format(*number))?;
        before = ",";
    }
    push_words(text, "]")
}

/// The word of a reason.
fn reason_word(reason: &Reason) -> &'static str {
    match reason {
        Reason::NoLeaf => "no_leaf",
        Reason::Free => "free",
        Reason::Over => "over",
        Reason::Done { .. } => "done",
        Reason::Out { .. } => "out",
        Reason::False { .. } => "false",
        Reason::OtherSide { .. } => "other_side",
        Reason::GivenUp => "given_up",
        Reason::Waits { .. } => "waits",
        Reason::Isolated { .. } => "isolated",
        Reason::WaitsByConstraints { .. } => "waits_by_constraints",
        Reason::Claims { .. } => "claims",
        Reason::Barred => "barred",
        Reason::Other => "other",
    }
}

/// Adds the numbers of the claims that are in the way.
fn push_claims(text: &mut Vec<u8>, reason: &Reason) -> Result<(), AllocError> {
    let Reason::Claims { claims } = reason else {
        return Ok(());
    };
    push_key(text, "claims")?;
    push_words(text, "[")?;
    let mut before = "";
    for out in claims {
        let mut digits = Buffer::new();
        push_words(text, before)?;
        push_words(text, digits.format(out.call.claim))?;
        before = ",";
    }
    push_words(text, "]")
}

/// Adds the word of a reason and what it names, as members behind others. Numbers are those of the run: entries are counted from 0.
pub fn push_reason_members(text: &mut Vec<u8>, reason: &Reason) -> Result<(), AllocError> {
    push_key(text, "reason")?;
    push_words(text, "\"")?;
    push_words(text, reason_word(reason))?;
    push_words(text, "\"")?;
    match reason {
        Reason::Done { entry } => push_number(text, "entry", *entry as u64),
        Reason::Out { claim, entry, user } => {
            push_number(text, "entry", *entry as u64)?;
            push_number(text, "claim", u64::from(*claim))?;
            push_number(text, "user", u64::from(*user))
        }
        Reason::False {
            fact,
            wanted,
            leaves,
        } => {
            push_number(text, "fact", u64::from(*fact))?;
            push_key(text, "wanted")?;
            push_words(text, if *wanted { "true" } else { "false" })?;
            push_list(text, "leaves", leaves)
        }
        Reason::OtherSide { leaf } => push_list(text, "leaves", &[*leaf]),
        Reason::Waits { leaves } | Reason::Isolated { leaves } => push_list(text, "leaves", leaves),
        Reason::WaitsByConstraints {
            constraints,
            undecided,
        } => {
            push_list(text, "constraints", constraints)?;
            push_key(text, "least")?;
            push_words(
                text,
                if undecided.is_empty() {
                    "true"
                } else {
                    "false"
                },
            )
        }
        _ => push_claims(text, reason),
    }
}
