ghost use Rattle.std.specs.Prelude.{◌≡◌, ◌<◌, ◌^◌, length, IfOk};
ghost use Rattle.flow_workflow.specs.Label.{leaf_text};
ghost use Rattle.flow_move.specs.Labels.{labels_in};

use flow_facts::Name;
use flow_record::print_label;
use flow_workflow::Workflow;
use std::alloc::{AllocError, Global};

/// The labels of the workflow's leaves, by their numbers.
#[tactic(auto, using(crate::proofs::LabelLemmas::labels_more, crate::proofs::LabelLemmas::labels_all, crate::proofs::LabelLemmas::labels_few))]
pub(crate) fn labels_of(alloc: Global, workflow: &Workflow) -> Result<Vec<Name>, AllocError>
    ensures all { IfOk result (λ labels. labels.items ≡ labels_in workflow.now) }
    ensures few { IfOk result (λ labels. length labels.items < 2 ^ 32) }
{
    let mut labels = Vec::new(alloc);
    for leaf in 0..workflow.tree().leaves() {
        labels.push(label_of(alloc, workflow, leaf)?)?;
    }
    Ok(labels)
}

fn label_of(alloc: Global, workflow: &Workflow, leaf: u32) -> Result<Name, AllocError>
    ensures { IfOk result (λ label. label ≡ leaf_text workflow.now leaf) }
{
    let text = print_label(alloc, workflow, leaf)?;
    let label = Name::new(alloc, &text);
    drop(text);
    label
}
