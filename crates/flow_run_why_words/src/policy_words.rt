//! What is wrong with a policy, in words.
ghost use Rattle.std.specs.Prelude.{◌≡◌, ◌++◌, OnOk};
ghost use Rattle.flow_model.specs.Lists.{Begins};
ghost use Rattle.flow_run_why_words.specs.Second.{met_lines, policy_place};

use crate::lines::{lines_before, without_divider};
use flow_fault::{Met, Spot, met_at, near_name, spot_of};
use flow_form::Script;
use flow_policy::PolicyRefusal;
use flow_why_cli::{push_hint, push_met, push_near_in, push_place};
use flow_writer::Writer;
use std::alloc::AllocError;

/// The place of a refusal in the policy's text.
pub(crate) fn policy_place(refusal: &PolicyRefusal) -> usize
    ensures { result ≡ policy_place refusal.now }
{
    match refusal {
        PolicyRefusal::NotAscii { place }
        | PolicyRefusal::BadToken { place }
        | PolicyRefusal::Expected { place }
        | PolicyRefusal::Unknown { place } => *place,
        PolicyRefusal::NoMemory => 0,
    }
}

/// The word with which the statement begins that stands at the end of the text.
fn statement_word(text: &[u8]) -> &[u8] {
    let mut start = 0;
    for (place, byte) in text.iter().enumerate() {
        if *byte == b';' {
            start = place + 1;
        }
    }
    let Some(statement) = text.get(start..) else {
        return &[];
    };
    let Some(first) = statement.iter().position(|byte| *byte > b' ') else {
        return &[];
    };
    match met_at(&statement[first..], 0) {
        Met::Name(word) => word,
        _ => &[],
    }
}

/// How the statement is written that begins with the word.
fn statement_form(word: &[u8]) -> &'static str {
    if word == b"role".as_slice() {
        "a line of roles is role ROLE = USER, USER;"
    } else if word == b"allow".as_slice() {
        "a line of what roles may take is allow ROLE EVENT, EVENT;"
    } else if word == b"separate".as_slice() {
        "a line of events that one user may not both have is separate EVENT EVENT;"
    } else if word == b"bind".as_slice() {
        "a line of events that one user has both is bind EVENT EVENT;"
    } else {
        "a statement begins with role, allow, separate or bind, and ends with ;"
    }
}

/// Adds a place of a text that stands so many lines behind others, and what is met there.
fn push_met_at(
    writer: &mut Writer,
    spot: Spot<'_>,
    met: Met<'_>,
    before: usize,
) -> Result<(), AllocError>
    ensures { OnOk result (writer.new.text.items ≡ writer.old.text.items ++ met_lines spot.entry met.entry before) }
{
    push_place(writer, spot, before)?;
    writer.words("met: ")?;
    push_met(writer, met)?;
    writer.words("\n")
}

/// Adds what is wrong where a policy is refused, and how it is written.
pub(crate) fn push_policy_refusal(
    writer: &mut Writer,
    policy: &[u8],
    refusal: &PolicyRefusal,
    script: &Script,
) -> Result<(), AllocError> {
    let text = without_divider(policy);
    let place = text.len().min(policy_place(refusal));
    let met = met_at(text, place);
    push_met_at(writer, spot_of(text, place), met, lines_before(policy))?;
    push_form(writer, &text[..place], refusal, met, script)
}

/// Adds how a policy is written, of which that front is not refused.
fn push_form(
    writer: &mut Writer,
    front: &[u8],
    refusal: &PolicyRefusal,
    met: Met<'_>,
    script: &Script,
) -> Result<(), AllocError>
    ensures { OnOk result (Begins writer.new.text.items writer.old.text.items) }
{
    match (refusal, met) {
        (PolicyRefusal::Expected { .. }, _) => {
            push_hint(writer, statement_form(statement_word(front)))
        }
        (PolicyRefusal::Unknown { .. }, Met::Name(name)) => push_unknown(writer, script, name),
        _ => push_hint(
            writer,
            "a policy has ASCII words, numbers, and the marks , ; and =",
        ),
    }
}

/// Adds what a name that is unknown is to be, and which is perhaps meant.
fn push_unknown(writer: &mut Writer, script: &Script, name: &[u8]) -> Result<(), AllocError>
    ensures { OnOk result (Begins writer.new.text.items writer.old.text.items) }
{
    push_hint(
        writer,
        "it is to be the name of an event of the workflow, or of a role to which a line role gives users",
    )?;
    match near_name(&script.decls, name) {
        Some(near) if near.bytes() != name => push_near_in(writer, script, name),
        _ => Ok(()),
    }
}
