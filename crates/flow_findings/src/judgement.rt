ghost use Rattle.std.specs.Prelude.{◌≡◌, ◌++◌, IfOk};
ghost use Rattle.flow_findings.specs.Judging.{checked_text, counted_journal, verified_text, redundancy_text};

use flow_record::{print_journal, print_pieces};
use flow_trace::Checked;
use flow_verify::{Redundancy, Verified};
use flow_workflow::Workflow;
use itoa::Buffer;
use std::alloc::{AllocError, Global};

/// Prints what a list of leaves is of a workflow.
pub fn print_checked(alloc: Global, checked: Checked) -> Result<Vec<u8>, AllocError>
    ensures { IfOk result (λ text. text.items ≡ checked_text checked) }
{
    match checked {
        Checked::Execution => Vec::from_slice(alloc, b"execution\n"),
        Checked::Prefix => Vec::from_slice(alloc, b"prefix\n"),
        Checked::Bad(leaves) => Ok(format!(in alloc; "bad {leaves}\n")?.into_bytes()),
    }
}

/// Prints whether a property holds, and an execution that breaks it.
pub fn print_verified(
    alloc: Global,
    workflow: &Workflow,
    verified: &Verified,
) -> Result<Vec<u8>, AllocError>
    ensures { IfOk result (λ text. text.items ≡ verified_text workflow.now verified.now) }
{
    match verified {
        Verified::Holds => Vec::from_slice(alloc, b"holds\n"),
        Verified::Fails(execution) => print_with_journal(alloc, workflow, b"fails\n", execution),
    }
}

/// Prints whether a constraint follows from the others, and an execution that meets these and breaks it.
pub fn print_redundancy(
    alloc: Global,
    workflow: &Workflow,
    redundancy: &Redundancy,
) -> Result<Vec<u8>, AllocError>
    ensures { IfOk result (λ text. text.items ≡ redundancy_text workflow.now redundancy.now) }
{
    match redundancy {
        Redundancy::Redundant => Vec::from_slice(alloc, b"redundant\n"),
        Redundancy::Needed(execution) => print_with_journal(
            alloc,
            workflow,
            b"needed\n",
            execution,
        ),
    }
}

/// Prints a head, and a journal after its count.
fn print_with_journal(
    alloc: Global,
    workflow: &Workflow,
    head: &[u8],
    leaves: &[u32],
) -> Result<Vec<u8>, AllocError>
    ensures { IfOk result (λ text. text.items ≡ head.now ++ counted_journal workflow.now leaves.now) }
{
    let mut digits = Buffer::new();
    let count = digits.format(leaves.len());
    let journal = print_journal(alloc, workflow, leaves)?;
    print_pieces(
        alloc,
        &[head, b"journal ", count.as_bytes(), b"\n", &journal],
    )
}
