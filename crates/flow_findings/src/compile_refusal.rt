ghost use Rattle.std.specs.Prelude.{◌≡◌, ◌++◌, IfOk, OnOk};
ghost use Rattle.std.specs.String.{string_bytes};
ghost use Rattle.flow_findings.specs.Refusing.{compile_refusal, dropped_line, inconsistent_text, IsOfOptions};

use crate::refusal_line::print_numbered;
use flow_excise::{CompileRefusal, Dropped};
use flow_record::push_numbers;
use std::alloc::{AllocError, Global};

/// Prints the lines that say why a workflow is not compiled.
pub(crate) fn print_compile_refusal(
    alloc: Global,
    refusal: &CompileRefusal,
) -> Result<Vec<u8>, AllocError>
    requires { IsOfOptions refusal.now }
    ensures { IfOk result (λ text. text.items ≡ compile_refusal refusal.now) }
{
    match refusal {
        CompileRefusal::TooManyChoices { count } => print_numbered(alloc, "choices", *count),
        CompileRefusal::TooManyWays { count } => print_numbered(alloc, "options", *count),
        CompileRefusal::TooBulky { count } => print_numbered(alloc, "bulk", *count),
        CompileRefusal::Inconsistent { dropped } => print_inconsistent(alloc, dropped),
        CompileRefusal::NoMemory => unreachable!(),
    }
}

/// Prints that no execution meets every constraint, and a line for each option.
fn print_inconsistent(alloc: Global, dropped: &[Dropped]) -> Result<Vec<u8>, AllocError>
    ensures { IfOk result (λ text. text.items ≡ inconsistent_text dropped.now) }
{
    let mut text = format!(in alloc; "inconsistent\n")?;
    for option in dropped {
        push_dropped(&mut text, option)?;
    }
    Ok(text.into_bytes())
}

/// Adds the line of an option that has no execution.
fn push_dropped(text: &mut String, dropped: &Dropped) -> Result<(), AllocError>
    ensures { OnOk result (string_bytes text.new ≡ string_bytes text.old ++ dropped_line dropped.now) }
{
    let resolution = dropped.resolution;
    let way = dropped.way;
    write!(text, "dropped {resolution} {way} circle")?;
    push_numbers(text, dropped.circle.leaves())?;
    text.push_str("\n")
}
