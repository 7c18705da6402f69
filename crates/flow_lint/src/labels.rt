ghost use Rattle.std.specs.Prelude.{◌≡◌, IfOk};

use flow_goal::Tree;
use flow_model::Label;
use std::alloc::{AllocError, Global};

/// The labels of the leaves, from left to right.
pub(crate) fn labels_of(alloc: Global, tree: &Tree) -> Result<Vec<Label>, AllocError>
    ensures { IfOk result (λ labels. labels.items ≡ tree.now.labels) }
{
    let mut labels = Vec::new(alloc);
    for leaf in 0..tree.leaves() {
        match tree.label(leaf) {
            Some(label) => labels.push(label)?,
            None => {}
        }
    }
    Ok(labels)
}
