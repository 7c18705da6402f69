ghost use Rattle.std.specs.Prelude.{◌≡◌, ◌++◌, ◌≤◌, length, codes, IfOk, OnOk};
ghost use Rattle.std.specs.String.{string_bytes};
ghost use Rattle.std.specs.Fmt.{decimal};
ghost use Rattle.flow_findings.specs.Auditing.{found_text, found_lines, executions, audit_text};

use crate::judgement::print_checked;
use flow_audit::Finding;
use flow_record::print_pieces;
use flow_trace::Checked;
use itoa::Buffer;
use std::alloc::{AllocError, Global};

/// Prints what is found of journals: a line each, and how many are executions.
pub fn print_audit(alloc: Global, found: &[Finding]) -> Result<Vec<u8>, AllocError>
    ensures { IfOk result (λ text. text.items ≡ audit_text found.now) }
{
    let lines = print_findings(alloc, found)?;
    let count = print_count(alloc, executions(found), found.len())?;
    print_pieces(alloc, &[&lines, &count])
}

/// Prints how many of all are executions.
fn print_count(alloc: Global, count: usize, all: usize) -> Result<Vec<u8>, AllocError>
    ensures { IfOk result (λ line. line.items ≡ codes "executions " ++ decimal count ++ codes " of " ++ decimal all ++ codes "\n") }
{
    let mut executed = Buffer::new();
    let mut whole = Buffer::new();
    print_pieces(
        alloc,
        &[
            b"executions ",
            executed.format(count).as_bytes(),
            b" of ",
            whole.format(all).as_bytes(),
            b"\n",
        ],
    )
}

/// How many are executions.
fn executions(found: &[Finding]) -> usize
    ensures { result ≡ executions found.now }
{
    let mut count = 0;
    for finding in found {
        if matches!(finding, Finding::Checked(Checked::Execution)) {
            count += 1;
        }
    }
    count
}

/// Prints a line a journal, counted from 0.
fn print_findings(alloc: Global, found: &[Finding]) -> Result<Vec<u8>, AllocError>
    ensures { IfOk result (λ lines. lines.items ≡ found_lines 0 found.now) }
{
    let mut lines = Vec::new(alloc);
    for (number, finding) in found.iter().enumerate() {
        push_finding(alloc, &mut lines, number, *finding)?;
    }
    Ok(lines)
}

/// Adds the line of a journal.
fn push_finding(
    alloc: Global,
    text: &mut Vec<u8>,
    number: usize,
    finding: Finding,
) -> Result<(), AllocError>
    ensures { OnOk result (text.new.items ≡ text.old.items ++ (decimal number ++ codes " " ++ found_text finding)) }
{
    text.extend_from_slice(format!(in alloc; "{number} ")?.as_bytes())?;
    let told = print_finding(alloc, finding)?;
    text.extend_from_slice(&told)
}

/// Prints what is found of a journal.
fn print_finding(alloc: Global, finding: Finding) -> Result<Vec<u8>, AllocError>
    ensures { IfOk result (λ text. text.items ≡ found_text finding) }
{
    match finding {
        Finding::Checked(checked) => print_checked(alloc, checked),
        Finding::BadLine(line) => Ok(format!(in alloc; "line {line}\n")?.into_bytes()),
        Finding::Label(line) => Ok(format!(in alloc; "label {line}\n")?.into_bytes()),
    }
}
