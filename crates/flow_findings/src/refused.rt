ghost use Rattle.std.specs.Prelude.{◌≡◌, ◌++◌, codes, IfOk};
ghost use Rattle.flow_words.specs.Usage.{usage_text};
ghost use Rattle.flow_findings.specs.Refusing.{refused_text, named_by, IsTold};

use crate::compile_refusal::print_compile_refusal;
use crate::expand_refusal::print_expand_refusal;
use crate::refusal_line::print_numbered;
use crate::text_refusal::{print_line_refusal, print_policy_refusal, print_text_refusal};
use flow_excise::CompileRefusal;
use flow_form::{Script, TextRefusal};
use flow_model::GREATEST_INPUT;
use flow_policy::PolicyRefusal;
use flow_record::{RecordRefusal, print_pieces};
use flow_words::print_usage;
use flow_workflow::ExpandRefusal;
use std::alloc::{AllocError, Global};

/// Why the program does nothing.
#[derive(Drop)]
pub enum Refused {
    /// The words of the command line are no call of the program.
    Words,
    /// The input could not be read.
    Read,
    /// The input has more than `GREATEST_INPUT` bytes.
    TooLong,
    /// The text of the workflow says nothing.
    Text(TextRefusal),
    /// The text of a query asks nothing.
    Query(TextRefusal),
    /// The text of a policy says nothing, or not what fits the workflow.
    Policy(PolicyRefusal),
    /// There are more than `flow_audit::MOST_JOURNALS` journals: so many.
    Journals(u64),
    /// A line of the second part is not as it must be.
    Record(RecordRefusal),
    /// The workflow is not expanded.
    Expand(ExpandRefusal),
    /// The workflow has no constraint of that number.
    NoRule(u32),
    /// The workflow is not compiled.
    Compile(CompileRefusal),
}

/// Prints the refusal, and after unknown words how the program is called. An event goes by the name that the
/// script declares.
pub fn print_refused(
    alloc: Global,
    refused: &Refused,
    script: Option<&Script>,
) -> Result<Vec<u8>, AllocError>
    requires { IsTold (named_by script) refused.now }
    ensures { IfOk result (λ text. text.items ≡ refused_text (named_by script.entry) refused.now) }
{
    match refused {
        Refused::Words => print_words_refusal(alloc),
        Refused::Read => Vec::from_slice(alloc, b"refused: read\n"),
        Refused::TooLong => print_numbered(alloc, "too long", GREATEST_INPUT as u64),
        Refused::Text(refusal) => print_text_refusal(alloc, b"refused: ", refusal),
        Refused::Query(refusal) => print_text_refusal(alloc, b"refused: query ", refusal),
        Refused::Policy(refusal) => print_policy_refusal(alloc, refusal),
        Refused::Journals(count) => print_numbered(alloc, "journals", *count),
        Refused::Record(refusal) => print_line_refusal(alloc, refusal),
        Refused::Expand(refusal) => print_expand_refusal(alloc, refusal, script),
        Refused::NoRule(index) => print_numbered(alloc, "constraint", u64::from(*index)),
        Refused::Compile(refusal) => print_compile_refusal(alloc, refusal),
    }
}

/// Prints that the words are no call of the program, and how it is called.
fn print_words_refusal(alloc: Global) -> Result<Vec<u8>, AllocError>
    ensures { IfOk result (λ text. text.items ≡ codes "refused: words\n" ++ usage_text) }
{
    let usage = print_usage(alloc)?;
    print_pieces(alloc, &[b"refused: words\n", &usage])
}
