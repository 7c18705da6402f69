ghost use Rattle.std.specs.Prelude.{◌≡◌, ◌++◌, codes, IfOk, OnOk};
ghost use Rattle.flow_reply.specs.Facts.{spaced_facts};

use flow_workflow::{Workflow, push_fact_after};
use std::alloc::{AllocError, Global};

/// Prints the facts of those numbers.
pub(crate) fn print_facts(
    alloc: Global,
    workflow: &Workflow,
    facts: &[u32],
) -> Result<Vec<u8>, AllocError>
    ensures { IfOk result (λ text. text.items ≡ codes "facts" ++ spaced_facts workflow.now facts.now) }
{
    let mut text = Vec::from_slice(alloc, b"facts")?;
    push_facts(&mut text, workflow, facts)?;
    Ok(text)
}

/// Adds the facts of those numbers, each after a blank.
fn push_facts(text: &mut Vec<u8>, workflow: &Workflow, facts: &[u32]) -> Result<(), AllocError>
    ensures { OnOk result (text.new.items ≡ text.old.items ++ spaced_facts workflow.now facts.now) }
{
    for fact in facts {
        push_fact_after(text, workflow, b" ", *fact)?;
    }
    Ok(())
}
