//! Reasons of leaves in words.
ghost use Rattle.std.specs.Prelude.{◌≡◌};
ghost use Rattle.flow_run_why_words.specs.Reasons.{rules_named};

use flow_core::Core;
use flow_reason::Reason;
use flow_why_cli::{WrittenRule, push_rule};
use flow_writer::Writer;
use std::alloc::{AllocError, Global};

/// Adds constraints, each on a line.
fn push_rules(
    writer: &mut Writer,
    text: &[u8],
    rules: &[WrittenRule],
    numbers: &[u32],
) -> Result<(), AllocError> {
    for number in numbers {
        push_rule(writer, text, rules, *number)?;
    }
    Ok(())
}

/// The constraints that a reason names.
fn rules_named(reason: &Reason) -> &[u32]
    ensures { result.now ≡ rules_named reason.now }
{
    match reason {
        Reason::WaitsByConstraints { constraints, .. } => constraints,
        _ => &[],
    }
}

/// Adds the reason of a leaf on a line, and the constraints that it names on lines of their own.
pub(crate) fn push_reason(
    writer: &mut Writer,
    alloc: Global,
    text: &[u8],
    rules: &[WrittenRule],
    core: &Core,
    leaf: u32,
    reason: &Reason,
) -> Result<(), AllocError> {
    let mut words = Vec::new(alloc);
    reason.print(&mut words, core.workflow(), leaf)?;
    writer.bytes(&words)?;
    writer.words("\n")?;
    push_rules(writer, text, rules, rules_named(reason))
}
