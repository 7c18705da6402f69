//! What is wrong with the policy of a case, in words.
ghost use Rattle.std.specs.Prelude.{◌≤◌, length};

use crate::wanted::statement_form;
use flow_case::CasePolicyRefusal;
use flow_fault::{Met, met_at, spot_of};
use flow_policy::PolicyRefusal;
use std::alloc::AllocError;

/// How many columns of a line are shown in all, and how many before a place.
const SHOWN: usize = 100;

const BEFORE: usize = 60;

/// The byte of the text, from 0, at which it is refused. Where memory was wanting there is none.
pub fn policy_place(refusal: &CasePolicyRefusal) -> Option<usize> {
    match refusal {
        CasePolicyRefusal::Policy(
            PolicyRefusal::NotAscii { place }
            | PolicyRefusal::BadToken { place }
            | PolicyRefusal::Expected { place }
            | PolicyRefusal::Unknown { place },
        )
        | CasePolicyRefusal::Expected { place }
        | CasePolicyRefusal::NoEvent { place }
        | CasePolicyRefusal::NoRole { place } => Some(*place),
        CasePolicyRefusal::Policy(PolicyRefusal::NoMemory) | CasePolicyRefusal::NoMemory => None,
    }
}

/// Adds words.
fn push_words(text: &mut Vec<u8>, words: &str) -> Result<(), AllocError> {
    text.extend_from_slice(words.as_bytes())
}

/// Adds bytes as they can be shown, each in one column.
fn push_shown(text: &mut Vec<u8>, bytes: &[u8]) -> Result<(), AllocError> {
    for byte in bytes {
        text.push(match *byte {
            b'\t' => b' ',
            b' '..=b'~' => *byte,
            _ => b'?',
        })?;
    }
    Ok(())
}

/// The front of the bytes, so many at most.
fn front(bytes: &[u8], most: usize) -> &[u8] {
    match bytes.get(..most) {
        Some(front) => front,
        None => bytes,
    }
}

/// Adds what stands at a place.
fn push_met(text: &mut Vec<u8>, met: Met<'_>) -> Result<(), AllocError> {
    let (what, word) = match met {
        Met::End => ("the text ends here", b"".as_slice()),
        Met::Reserved(word) => ("here stands the reserved word ", word),
        Met::Name(word) => ("here stands the name ", word),
        Met::Number(digits) => ("here stands the number ", digits),
        Met::Mark(byte) => return push_mark(text, byte),
        Met::Byte(_) => ("here stands a byte that begins no word", b"".as_slice()),
    };
    push_words(text, what)?;
    push_shown(text, front(word, SHOWN))
}

/// Adds that a mark stands there.
fn push_mark(text: &mut Vec<u8>, byte: u8) -> Result<(), AllocError> {
    push_words(text, "here stands the mark ")?;
    push_shown(text, &[byte])
}

/// Adds the cause, of a policy that is refused at a place.
fn push_cause(
    text: &mut Vec<u8>,
    policy: &[u8],
    place: usize,
    refusal: &CasePolicyRefusal,
) -> Result<(), AllocError>
    requires { place ≤ length policy.now }
{
    match refusal {
        CasePolicyRefusal::NoEvent { .. } => push_named(text, policy, place, "no event is called "),
        CasePolicyRefusal::NoRole { .. } => push_named(
            text,
            policy,
            place,
            "no user has a role that is called ",
        ),
        CasePolicyRefusal::Policy(PolicyRefusal::Unknown { .. }) => push_named(
            text,
            policy,
            place,
            "no event, and no role of a user, is called ",
        ),
        CasePolicyRefusal::Policy(PolicyRefusal::NotAscii { .. }) => push_words(
            text,
            "here stands a byte over 127: a policy has ASCII alone, in comments too",
        ),
        CasePolicyRefusal::Policy(PolicyRefusal::BadToken { .. }) => push_words(
            text,
            "a policy has words, numbers, and the marks , ; and =",
        ),
        _ => {
            push_met(text, met_at(policy, place))?;
            push_words(text, ": ")?;
            push_words(text, statement_form(front(policy, place)))
        }
    }
}

/// Adds that nothing has the name that stands at the place.
fn push_named(text: &mut Vec<u8>, policy: &[u8], place: usize, what: &str) -> Result<(), AllocError>
    requires { place ≤ length policy.now }
{
    push_words(text, what)?;
    match met_at(policy, place) {
        Met::Name(word) | Met::Reserved(word) | Met::Number(word) => push_shown(
            text,
            front(word, SHOWN),
        ),
        _ => push_words(text, "so"),
    }
}

/// Adds what is wrong with the policy, and on the next two lines the line where it is, and a mark under the place.
pub fn push_policy_fault(
    text: &mut Vec<u8>,
    policy: &[u8],
    refusal: &CasePolicyRefusal,
) -> Result<(), AllocError> {
    let Some(place) = policy_place(refusal) else {
        return push_words(text, "there was not enough memory\n");
    };
    let place = place.min(policy.len());
    push_cause(text, policy, place, refusal)?;
    let spot = spot_of(policy, place);
    let column = spot.column.saturating_sub(1);
    let skipped = column.saturating_sub(BEFORE);
    push_words(text, "\n    ")?;
    match spot.text.get(skipped..) {
        Some(line) => push_shown(text, front(line, SHOWN))?,
        None => {}
    }
    push_words(text, "\n    ")?;
    for _ in skipped..column {
        push_words(text, " ")?;
    }
    push_words(text, "^\n")
}
