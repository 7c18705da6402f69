//! A refusal of what stands behind a workflow, as an object of JSON.
ghost use Rattle.std.specs.Prelude.{◌≡◌, ◌++◌, ℕ, List, OnOk};
ghost use Rattle.flow_run_why_words.specs.Second.{IsPolicyMembers};

use crate::lines::{line_refused, lines_before, lines_of, push_line_members, without_divider};
use crate::policy_words::policy_place;
use flow_fault::{met_at, spot_of};
use flow_front::Refused;
use flow_policy::PolicyRefusal;
use flow_record::RecordRefusal;
use flow_why_cli::{push_fault_members, push_met_member, push_refusal};
use flow_writer::Writer;
use std::alloc::{AllocError, Global};

/// Adds where a policy is refused, and what is met there.
fn push_policy_fault(
    writer: &mut Writer,
    policy: &[u8],
    refusal: &PolicyRefusal,
) -> Result<(), AllocError>
    ensures { OnOk result ((members : List ℕ) × IsPolicyMembers policy.now refusal.now members
        × (writer.new.text.items ≡ writer.old.text.items ++ members)) }
{
    let text = without_divider(policy);
    let place = text.len().min(policy_place(refusal));
    let spot = spot_of(text, place);
    writer.number_member(
        "line",
        spot.line.saturating_add(lines_before(policy)) as u64,
    )?;
    writer.number_member("column", spot.column as u64)?;
    push_met_member(writer, met_at(text, place))
}

/// Adds which line is not as it must be, from 1, and the line.
fn push_bad_line(
    writer: &mut Writer,
    alloc: Global,
    text: &[u8],
    refusal: RecordRefusal,
) -> Result<(), AllocError> {
    let lines = lines_of(alloc, text)?;
    push_line_members(writer, line_refused(&lines, refusal))
}

/// Adds where the second text is refused, and what is met there.
fn push_second_members(
    writer: &mut Writer,
    alloc: Global,
    second: &[u8],
    refused: &Refused,
) -> Result<(), AllocError> {
    match refused {
        Refused::Query(refusal) => {
            push_fault_members(
                writer,
                without_divider(second),
                lines_before(second),
                refusal,
            )
        }
        Refused::Policy(refusal) => push_policy_fault(writer, second, refusal),
        Refused::Record(refusal) => push_bad_line(writer, alloc, second, *refusal),
        _ => Ok(()),
    }
}

/// A refusal of the second text as an object.
pub fn second_object(
    alloc: Global,
    second: &[u8],
    refused: &Refused,
) -> Result<Vec<u8>, AllocError> {
    let mut writer = Writer::new(alloc);
    push_refusal(&mut writer, refused)?;
    push_second_members(&mut writer, alloc, second, refused)?;
    writer.words("}\n")?;
    Ok(writer.text)
}
