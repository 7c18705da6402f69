//! Reasons of leaves as JSON.
ghost use Rattle.std.specs.Prelude.{◌≡◌, ◌++◌, IfOk, OnOk, map};
ghost use Rattle.flow_run_why_words.specs.Reasons.{claim_number, leaf_members, named_members, reason_word};

use flow_core::Core;
use flow_reason::Reason;
use flow_standing::Out;
use flow_workflow::{Workflow, push_leaf_label};
use flow_writer::Writer;
use std::alloc::{AllocError, Global};

/// The word of a reason.
fn reason_word(reason: &Reason) -> &'static str
    ensures { result.now ≡ reason_word reason.now }
{
    match reason {
        Reason::NoLeaf => "no_leaf",
        Reason::Free => "free",
        Reason::Over => "over",
        Reason::Done { .. } => "done",
        Reason::Out { .. } => "out",
        Reason::False { .. } => "false",
        Reason::OtherSide { .. } => "other_side",
        Reason::GivenUp => "given_up",
        Reason::Waits { .. } => "waits",
        Reason::Isolated { .. } => "isolated",
        Reason::WaitsByConstraints { .. } => "waits_by_constraints",
        Reason::Claims { .. } => "claims",
        Reason::Barred => "barred",
        Reason::Other => "other",
    }
}

/// The numbers of claims.
fn claim_numbers(alloc: Global, claims: &[Out]) -> Result<Vec<u32>, AllocError>
    ensures { IfOk result (λ numbers. numbers.items ≡ map claim_number claims.now) }
{
    let mut numbers = Vec::new(alloc);
    for out in claims {
        numbers.push(out.call.claim)?;
    }
    Ok(numbers)
}

/// Adds what the reason names.
fn push_named(writer: &mut Writer, alloc: Global, reason: &Reason) -> Result<(), AllocError>
    ensures { OnOk result (writer.new.text.items ≡ writer.old.text.items ++ named_members reason.now) }
{
    match reason {
        Reason::Done { entry } => writer.number_member("entry", *entry as u64),
        Reason::Out { claim, entry, user } => {
            writer.number_member("entry", *entry as u64)?;
            writer.number_member("claim", u64::from(*claim))?;
            writer.number_member("user", u64::from(*user))
        }
        Reason::False {
            fact,
            wanted,
            leaves,
        } => {
            writer.number_member("fact", u64::from(*fact))?;
            writer.truth_member("wanted", *wanted)?;
            writer.list_member("leaves", leaves)
        }
        Reason::OtherSide { leaf } => writer.list_member("leaves", &[*leaf]),
        Reason::Waits { leaves } | Reason::Isolated { leaves } => {
            writer.list_member("leaves", leaves)
        }
        Reason::WaitsByConstraints {
            constraints,
            undecided,
        } => {
            writer.list_member("constraints", constraints)?;
            writer.truth_member("least", undecided.is_empty())
        }
        Reason::Claims { claims } => writer.list_member("claims", &claim_numbers(alloc, claims)?),
        _ => Ok(()),
    }
}

/// Adds a leaf and its task as members of an object.
pub(crate) fn push_leaf_members(
    writer: &mut Writer,
    alloc: Global,
    workflow: &Workflow,
    leaf: u32,
) -> Result<(), AllocError>
    ensures { OnOk result (writer.new.text.items ≡ writer.old.text.items ++ leaf_members workflow.now leaf) }
{
    let mut label = Vec::new(alloc);
    push_leaf_label(&mut label, workflow, leaf)?;
    writer.words("\"leaf\":")?;
    writer.number(u64::from(leaf))?;
    writer.text_member("task", &label)
}

/// Adds the reason of a leaf as members of an object.
pub(crate) fn push_reason_members(
    writer: &mut Writer,
    alloc: Global,
    core: &Core,
    leaf: u32,
    reason: &Reason,
) -> Result<(), AllocError> {
    push_leaf_members(writer, alloc, core.workflow(), leaf)?;
    writer.text_member("reason", reason_word(reason).as_bytes())?;
    push_named(writer, alloc, reason)
}
