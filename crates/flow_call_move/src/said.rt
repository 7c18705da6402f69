//! What is said of a move.

use flow_call::{NO_MEMORY, REFUSED, write_out};
use flow_case_talk::Book;
use flow_core::Core;
use flow_facts::Name;
use flow_model::{Entry, Step};
use flow_move::{Cause, NewNames};
use flow_reason::{Reason, why_leaf};
use flow_record::print_label;
use flow_workflow::push_leaf_label;
use flow_writer::Writer;
use std::alloc::{AllocError, Global};

/// The leaf that was taken by the claim.
fn leaf_taken(history: &[Entry], sought: u32) -> Option<u32> {
    for entry in history {
        match entry.step {
            Step::Took { claim, leaf } if claim == sought => return Some(leaf),
            _ => {}
        }
    }
    None
}

/// The leaf that the step is about.
fn leaf_of(core: &Core, step: Step) -> Option<u32> {
    match step {
        Step::Took { leaf, claim: _ } | Step::Did { leaf } => Some(leaf),
        Step::Done { claim } | Step::Late { claim } | Step::Failed { claim, effect: _ } => {
            leaf_taken(core.history(), claim)
        }
        Step::Rewound { index: _ } | Step::Committed => None,
    }
}

/// The word of a step.
fn word_of(step: Step) -> &'static str {
    match step {
        Step::Took { .. } => "take",
        Step::Done { .. } => "done",
        Step::Failed { .. } => "fail",
        Step::Late { .. } => "late",
        Step::Did { .. } => "do",
        Step::Rewound { .. } => "rewind",
        Step::Committed => "commit",
    }
}

/// Adds the label of the step's leaf.
fn push_label(page: &mut Writer, core: &Core, step: Step) -> Result<(), AllocError> {
    match leaf_of(core, step) {
        Some(leaf) => push_leaf_label(&mut page.text, core.workflow(), leaf),
        None => Ok(()),
    }
}

/// Adds the step of an entry and who made it.
fn push_entry<B: Book>(page: &mut Writer, book: &B, entry: Entry) -> Result<(), AllocError> {
    page.words(word_of(entry.step))?;
    if leaf_of(book.core(), entry.step).is_some() {
        page.words(" ")?;
        push_label(page, book.core(), entry.step)?;
    }
    page.words(", by ")?;
    page.words(book.user_name(entry.by))
}

/// The word of a cause.
fn cause_word(cause: Cause) -> &'static str {
    match cause {
        Cause::NoUser => "user",
        Cause::NoName => "name",
        Cause::NotNow => "not_now",
        Cause::Forbidden => "forbidden",
    }
}

/// The new case, as far as its entries are made.
#[derive(Clone, Copy)]
pub(crate) struct There<'a> {
    pub(crate) alloc: Global,
    pub(crate) core: &'a Core,
    pub(crate) names: &'a NewNames,
}

/// The least leaf of the new text that has the label.
fn leaf_labelled(there: There<'_>, label: &Name) -> Result<Option<u32>, AllocError> {
    let workflow = there.core.workflow();
    for leaf in 0..workflow.tree().leaves() {
        let text = print_label(there.alloc, workflow, leaf)?;
        if text.as_slice() == label.bytes() {
            return Ok(Some(leaf));
        }
    }
    Ok(None)
}

/// The leaf of the new text that the step of the old one is on.
fn leaf_there(there: There<'_>, step: Step) -> Result<Option<u32>, AllocError> {
    match step {
        Step::Took { leaf, claim: _ } | Step::Did { leaf } => {
            match there.names.labels.get(leaf as usize) {
                Some(label) => leaf_labelled(there, label),
                None => Ok(None),
            }
        }
        _ => Ok(None),
    }
}

/// Adds why the step may not come next in the new case.
fn push_reason(page: &mut Writer, there: There<'_>, step: Step) -> Result<(), AllocError> {
    let Some(leaf) = leaf_there(there, step)? else {
        return page.words("it may not come next there");
    };
    match why_leaf(there.alloc, there.core, leaf)? {
        Reason::Done { .. } => page.words("it is done there already"),
        Reason::Out { .. } => page.words("it is out there already"),
        reason => reason.print(&mut page.text, there.core.workflow(), leaf),
    }
}

/// Adds why the entry has no place.
fn push_cause<B: Book>(
    page: &mut Writer,
    book: &B,
    there: There<'_>,
    entry: Entry,
    cause: Cause,
) -> Result<(), AllocError> {
    match cause {
        Cause::NoUser => {
            page.words("the policy has no user ")?;
            page.words(book.user_name(entry.by))
        }
        Cause::NoName => {
            page.words("the text has no ")?;
            push_label(page, book.core(), entry.step)?;
            page.words(": --rename OLD=NEW tells its new name")
        }
        Cause::NotNow => push_reason(page, there, entry.step),
        Cause::Forbidden => {
            page.words("the policy forbids it to ")?;
            page.words(book.user_name(entry.by))
        }
    }
}

/// Why the case is not moved, in words.
fn unmoved_words<B: Book>(
    book: &B,
    there: There<'_>,
    place: usize,
    cause: Cause,
) -> Result<Vec<u8>, AllocError> {
    let mut page = Writer::new(there.alloc);
    page.words("refused: entry ")?;
    page.ordinal(place)?;
    if let Some(entry) = book.core().history().get(place) {
        page.words(" (")?;
        push_entry(&mut page, book, *entry)?;
        page.words(") is not legal under the new texts: ")?;
        push_cause(&mut page, book, there, *entry, cause)?;
    }
    page.words(". Nothing is changed\n")?;
    Ok(page.text)
}

/// An object that tells a refusal.
fn refused_object(
    alloc: Global,
    word: &str,
    place: Option<usize>,
    reply: &[u8],
) -> Result<Vec<u8>, AllocError> {
    let mut page = Writer::new(alloc);
    page.words("{\"ok\":false")?;
    page.key("refused")?;
    page.quoted_text(word.as_bytes())?;
    if let Some(place) = place {
        page.number_member("entry", (place as u64).saturating_add(1))?;
    }
    page.key("reply")?;
    page.quoted_text(reply)?;
    page.words("}\n")?;
    Ok(page.text)
}

/// Writes a refusal, and gives the status.
fn write_refusal(rt: &(impl Print + Eprint), text: Result<Vec<u8>, AllocError>) -> u8 {
    match text {
        Ok(text) => match write_out(rt, &text) {
            0 => REFUSED,
            fault => fault,
        },
        Err(AllocError) => NO_MEMORY,
    }
}

/// Says that the entry at the place has no place under the new texts, and gives the status.
pub(crate) fn say_unmoved<B: Book>(
    rt: &(impl AllocGlobal + Print + Eprint),
    book: &B,
    there: There<'_>,
    place: usize,
    cause: Cause,
    json: bool,
) -> u8 {
    match unmoved_words(book, there, place, cause) {
        Ok(words) if json => {
            write_refusal(
                rt,
                refused_object(rt.alloc(), cause_word(cause), Some(place), &words),
            )
        }
        other => write_refusal(rt, other),
    }
}

/// Says that the texts are the same, and gives the status.
pub(crate) fn say_same(rt: &(impl AllocGlobal + Print + Eprint), json: bool) -> u8 {
    let words =
        "refused: the case has the same workflow and policy. Nothing is changed\n".as_bytes();
    if json {
        return write_refusal(rt, refused_object(rt.alloc(), "same", None, words));
    }
    match write_out(rt, words) {
        0 => REFUSED,
        fault => fault,
    }
}

/// Says that the case is moved with so many entries, and gives the status.
pub(crate) fn say_moved(
    rt: &(impl AllocGlobal + Print + Eprint),
    case: &str,
    entries: usize,
    json: bool,
) -> u8 {
    let text = if json {
        moved_object(rt.alloc(), case, entries)
    } else {
        moved_words(rt.alloc(), case, entries)
    };
    match text {
        Ok(text) => write_out(rt, &text),
        Err(AllocError) => NO_MEMORY,
    }
}

fn moved_words(alloc: Global, case: &str, entries: usize) -> Result<Vec<u8>, AllocError> {
    let mut page = Writer::new(alloc);
    page.words(case)?;
    page.words(" is moved: entries ")?;
    page.number(entries as u64)?;
    page.words("\n")?;
    Ok(page.text)
}

fn moved_object(alloc: Global, case: &str, entries: usize) -> Result<Vec<u8>, AllocError> {
    let mut page = Writer::new(alloc);
    page.words("{\"ok\":true")?;
    page.key("moved")?;
    page.quoted_text(case.as_bytes())?;
    page.number_member("entries", entries as u64)?;
    page.words("}\n")?;
    Ok(page.text)
}
