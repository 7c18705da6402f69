//! What steps back took, and what of it is ticked off as undone outside.

ghost use Rattle.std.specs.Prelude.{◌≡◌};

use crate::asked::push_taken;
use crate::book::{Book, Speaker};
use crate::form::Form;
use crate::made::push_reply;
use crate::todo::label_of;
use flow_ask::Refusal;
use flow_case_words::print_refusal;
use flow_names::{ClaimRef, TaskRef};
use flow_standing::{TakenBack, taken_back};
use flow_writer::Writer;
use std::alloc::{AllocError, Global};

/// What steps back took, and is not ticked off.
fn left_to_undo<B: Book>(alloc: Global, book: &B) -> Result<Vec<TakenBack>, AllocError> {
    let mut left = Vec::new(alloc);
    for taken in taken_back(alloc, book.core())?.iter() {
        if !book.is_ticked_off(taken.done) {
            left.push(*taken)?;
        }
    }
    Ok(left)
}

/// The first of what is to be undone that is meant.
pub(crate) fn taken_meant<B: Book>(
    alloc: Global,
    book: &B,
    claim: &ClaimRef,
) -> Result<Option<TakenBack>, AllocError> {
    for taken in left_to_undo(alloc, book)?.iter() {
        if is_meant(book, claim, taken) {
            return Ok(Some(*taken));
        }
    }
    Ok(None)
}

/// Whether the claim is that of what was taken back.
fn is_meant<B: Book>(book: &B, claim: &ClaimRef, taken: &TakenBack) -> bool {
    match claim {
        ClaimRef::Number(number) => *number == taken.claim,
        ClaimRef::Of(task) => is_of(book, task, taken.leaf),
    }
}

/// Whether the leaf is one of the task.
fn is_of<B: Book>(book: &B, task: &TaskRef, leaf: u32) -> bool {
    let workflow = book.core().workflow();
    match (workflow.tree().event(leaf), task.leaf) {
        (Some(event), None) => workflow.event_number(&task.name) == Some(event),
        (Some(event), Some(said)) => {
            said == leaf && workflow.event_number(&task.name) == Some(event)
        }
        (None, _) => false,
    }
}

/// What steps back took, and is to be undone outside.
pub(crate) fn undone_text<B: Book>(
    alloc: Global,
    book: &B,
    form: Form,
) -> Result<Vec<u8>, AllocError> {
    let mut page = Writer::new(alloc);
    let left = left_to_undo(alloc, book)?;
    for taken in left.iter() {
        match form {
            Form::Words => push_taken(alloc, &mut page, book, taken)?,
            Form::Json => push_taken_object(alloc, &mut page, book, taken)?,
        }
        page.words("\n")?;
    }
    if left.is_empty() && form == Form::Words {
        page.words("nothing is to be undone\n")?;
    }
    Ok(page.text)
}

fn push_taken_object<B: Book>(
    alloc: Global,
    page: &mut Writer,
    book: &B,
    taken: &TakenBack,
) -> Result<(), AllocError> {
    page.words("{\"task\":")?;
    page.quoted_text(&label_of(alloc, book, taken.leaf)?)?;
    page.key("claim")?;
    page.number(u64::from(taken.claim))?;
    page.key("by")?;
    page.quoted_text(book.user_name(taken.by).as_bytes())?;
    page.words("}")
}

/// That what was taken back is ticked off, of which these are the words.
pub(crate) fn ticked_text<B: Book>(
    alloc: Global,
    book: &B,
    taken: &TakenBack,
    words: &[u8],
    form: Form,
) -> Result<Vec<u8>, AllocError> {
    let mut page = Writer::new(alloc);
    match form {
        Form::Words => {
            page.bytes(words)?;
            page.words("\n")?;
        }
        Form::Json => {
            page.words("{\"ok\":true,\"entries\":[]")?;
            page.key("task")?;
            page.quoted_text(&label_of(alloc, book, taken.leaf)?)?;
            page.key("claim")?;
            page.number(u64::from(taken.claim))?;
            push_reply(&mut page, words)?;
        }
    }
    Ok(page.text)
}

/// Ticks off what was taken back. Where that cannot be kept, it tells why, and in words too.
pub(crate) fn tick_off<B: Book>(
    alloc: Global,
    book: &mut B,
    speaker: Speaker<'_>,
    taken: &TakenBack,
) -> Result<(Result<(), Refusal>, Vec<u8>), AllocError>
    ensures { (B.kept_case book.new).run ≡ (B.kept_case book.old).run }
{
    let task = label_of(alloc, book, taken.leaf)?;
    let kept = match str::from_utf8(&task) {
        Ok(name) => book.tick_off(name, taken.done, speaker),
        Err(_) => Err(Refusal::NoLeaf),
    };
    let words = match kept {
        Ok(()) => ticked_words(alloc, &task, taken.claim)?,
        Err(refusal) => print_refusal(alloc, speaker.name.as_bytes(), &task, refusal)?,
    };
    Ok((kept, words))
}

/// That the task is ticked off.
fn ticked_words(alloc: Global, task: &[u8], claim: u32) -> Result<Vec<u8>, AllocError> {
    let mut page = Writer::new(alloc);
    page.bytes(task)?;
    page.words(" (claim ")?;
    page.number(u64::from(claim))?;
    page.words(") is undone outside")?;
    Ok(page.text)
}
