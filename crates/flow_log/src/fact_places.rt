ghost use Rattle.std.specs.Prelude.{◌≡◌, IfOk, length};
ghost use Rattle.flow_log.specs.Case.{ArePlaces, fact_in};

use flow_model::Label;
use flow_workflow::Workflow;
use std::alloc::{AllocError, Global};

/// The fact of a label, if it has one.
pub(crate) fn fact_of(label: Label) -> Option<u32>
    ensures { result ≡ fact_in label }
{
    match label {
        Label::Event(_) => None,
        Label::Test(fact) | Label::Absent(fact) | Label::Ins(fact) | Label::Del(fact) => Some(fact),
    }
}

/// For each fact a leaf that speaks of it, and `u32::MAX` where none does: facts may be many more than leaves.
pub(crate) fn fact_places(alloc: Global, workflow: &Workflow) -> Result<Vec<u32>, AllocError>
    ensures { IfOk result (λ places. ArePlaces (length workflow.now.facts) workflow.now.tree.labels places.items) }
{
    let tree = workflow.tree();
    let mut places = vec![in alloc; u32::MAX; workflow.facts().count() as usize]?;
    for leaf in 0..tree.leaves() {
        if let Some(label) = tree.label(leaf) {
            if let Some(fact) = fact_of(label) {
                places[fact as usize] = leaf;
            }
        }
    }
    Ok(places)
}
