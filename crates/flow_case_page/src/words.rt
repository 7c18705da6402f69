ghost use Rattle.std.specs.Prelude.{◌≡◌, ◌++◌, [], IfOk};
ghost use Rattle.std.specs.Fmt.{decimal};
ghost use Rattle.flow_workflow.specs.Label.{leaf_text};
ghost use Rattle.flow_draw.specs.Pieces.{pieces_text};

use flow_core::Core;
use flow_draw::{Piece, push_pieces};
use flow_facts::Name;
use flow_workflow::push_leaf_label;
use itoa::Buffer;
use std::alloc::{AllocError, Global};

/// The pieces as a text of their own.
pub(crate) fn text_of(alloc: Global, pieces: &[Piece<'_>]) -> Result<Name, AllocError>
    ensures { IfOk result (λ text. text ≡ pieces_text pieces.now) }
{
    let mut text = Vec::new(alloc);
    push_pieces(&mut text, pieces)?;
    Name::new(alloc, &text)
}

pub(crate) fn number_text(alloc: Global, number: u64) -> Result<Name, AllocError>
    ensures { IfOk result (λ text. text ≡ decimal number) }
{
    let mut digits = Buffer::new();
    Name::new(alloc, digits.format(number).as_bytes())
}

/// The label of a leaf.
pub(crate) fn label_of(alloc: Global, core: &Core, leaf: u32) -> Result<Name, AllocError>
    ensures { IfOk result (λ text. text ≡ leaf_text core.now.definition leaf) }
{
    let mut label = Vec::new(alloc);
    push_leaf_label(&mut label, core.workflow(), leaf)?;
    Name::new(alloc, &label)
}

/// The labels of leaves, with commas between them.
pub(crate) fn labels_of(alloc: Global, core: &Core, leaves: &[u32]) -> Result<Name, AllocError> {
    let mut text = Vec::new(alloc);
    for (index, leaf) in leaves.iter().enumerate() {
        if index > 0 {
            text.extend_from_slice(b", ")?;
        }
        push_leaf_label(&mut text, core.workflow(), *leaf)?;
    }
    Name::new(alloc, &text)
}
