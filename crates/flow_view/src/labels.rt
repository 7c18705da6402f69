ghost use Rattle.std.specs.Prelude.{◌≡◌, ◌++◌, OnOk, IfOk, codes, map};
ghost use Rattle.std.specs.Fmt.{decimal};
ghost use Rattle.flow_form.specs.Script.{said, declared};
ghost use Rattle.flow_workflow.specs.Label.{leaf_text};
ghost use Rattle.flow_view.specs.Drawn.{letters};
ghost use Rattle.flow_view.specs.Texts.{box_text, box_texts, captions, shown_of};

use crate::short::shown;
use flow_facts::Name;
use flow_form::{Decl, Script};
use flow_workflow::{Workflow, push_leaf_label};
use itoa::Buffer;
use std::alloc::{AllocError, Global};

/// What is shown of texts, at most 48 bytes of each.
#[derive(Drop)]
pub struct Labels {
    /// What the boxes of leaves show, by the numbers of the leaves: each its number and its label.
    pub boxes: Vec<Name>,
    /// The names of the sub-workflows that are declared, by their numbers.
    pub captions: Vec<Name>,
}

/// How many letters the text at that number has, if there is one.
pub(crate) fn letters(texts: &[Name], number: usize) -> usize
    ensures { result ≡ letters texts.now number }
{
    match texts.get(number) {
        None => 0,
        Some(text) => text.bytes().len(),
    }
}

/// What is shown of a text.
fn shown_name(alloc: Global, text: &[u8]) -> Result<Name, AllocError>
    ensures { IfOk result (λ name. name ≡ shown_of text.now) }
{
    Name::new(alloc, &shown(alloc, text)?)
}

/// Adds the number of a leaf and its label to a text.
fn push_leaf(text: &mut Vec<u8>, workflow: &Workflow, leaf: u32) -> Result<(), AllocError>
    ensures { OnOk result (text.new.items ≡ text.old.items ++ decimal leaf ++ codes " " ++ leaf_text workflow.now leaf) }
{
    let mut digits = Buffer::new();
    text.extend_from_slice(digits.format(leaf).as_bytes())?;
    text.extend_from_slice(b" ")?;
    push_leaf_label(text, workflow, leaf)
}

/// What the box of a leaf shows.
fn box_text(alloc: Global, workflow: &Workflow, leaf: u32) -> Result<Name, AllocError>
    ensures { IfOk result (λ name. name ≡ box_text workflow.now leaf) }
{
    let mut text = Vec::new(alloc);
    push_leaf(&mut text, workflow, leaf)?;
    shown_name(alloc, &text)
}

/// What the boxes of leaves show.
fn boxes(alloc: Global, workflow: &Workflow) -> Result<Vec<Name>, AllocError>
    ensures { IfOk result (λ boxes. boxes.items ≡ box_texts workflow.now) }
{
    let mut boxes = Vec::new(alloc);
    for leaf in 0..workflow.tree().leaves() {
        boxes.push(box_text(alloc, workflow, leaf)?)?;
    }
    Ok(boxes)
}

/// The captions of frames.
fn captions(alloc: Global, decls: &[Decl]) -> Result<Vec<Name>, AllocError>
    ensures { IfOk result (λ names. names.items ≡ captions (map declared decls.now)) }
{
    let mut captions = Vec::new(alloc);
    for decl in decls {
        if let Decl::Flow(name, _) = decl {
            captions.push(shown_name(alloc, name.bytes())?)?;
        }
    }
    Ok(captions)
}

/// What is shown of a workflow, which was made of this script.
pub fn labels_of(alloc: Global, script: &Script, workflow: &Workflow) -> Result<Labels, AllocError>
    ensures boxes { IfOk result (λ labels. labels.boxes.items ≡ box_texts workflow.now) }
    ensures captions { IfOk result (λ labels. labels.captions.items ≡ captions (said script.now).decls) }
{
    let boxes = boxes(alloc, workflow)?;
    let captions = captions(alloc, &script.decls)?;
    Ok(Labels { boxes, captions })
}
