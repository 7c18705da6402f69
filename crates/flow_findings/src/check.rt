ghost use Rattle.std.specs.Prelude.{◌≡◌, ◌++◌, codes, IfOk, OnOk};
ghost use Rattle.std.specs.String.{string_bytes};
ghost use Rattle.flow_record.specs.Journal.{leaf_line};
ghost use Rattle.flow_findings.specs.Checking.{leaf_table, counts_text, check_text};

use flow_excise::Counts;
use flow_record::push_leaf_line;
use flow_workflow::Workflow;
use std::alloc::{AllocError, Global};

/// Prints the leaves of a workflow with their labels, and its counts.
pub fn print_check(
    alloc: Global,
    workflow: &Workflow,
    counts: &Counts,
) -> Result<Vec<u8>, AllocError>
    ensures { IfOk result (λ text. text.items ≡ check_text workflow.now counts.now) }
{
    let leaves = workflow.tree().leaves();
    let mut text = format!(in alloc; "leaves {leaves}\n")?.into_bytes();
    push_leaves(&mut text, workflow)?;
    text.extend_from_slice(print_counts(alloc, counts)?.as_bytes())?;
    Ok(text)
}

/// Adds a line a leaf.
fn push_leaves(text: &mut Vec<u8>, workflow: &Workflow) -> Result<(), AllocError>
    ensures { OnOk result (text.new.items ≡ text.old.items ++ leaf_table workflow.now) }
{
    for leaf in 0..workflow.tree().leaves() {
        push_leaf(text, workflow, leaf)?;
    }
    Ok(())
}

/// Adds the line of a leaf.
fn push_leaf(text: &mut Vec<u8>, workflow: &Workflow, leaf: u32) -> Result<(), AllocError>
    ensures { OnOk result (text.new.items ≡ text.old.items ++ (codes "leaf " ++ leaf_line workflow.now leaf)) }
{
    text.extend_from_slice(b"leaf ")?;
    push_leaf_line(text, workflow, leaf)
}

/// Prints how many resolutions and options there are, how large all options are together, how many have an
/// execution, and that some execution meets every constraint.
fn print_counts(alloc: Global, counts: &Counts) -> Result<String, AllocError>
    ensures { IfOk result (λ text. string_bytes text ≡ counts_text counts.now ++ codes "consistent\n") }
{
    let resolutions = counts.resolutions;
    let options = counts.options;
    let bulk = counts.bulk;
    let live = counts.live;
    format!(in alloc;
        "resolutions {resolutions}\noptions {options}\nbulk {bulk}\nlive {live}\nconsistent\n"
    )
}
