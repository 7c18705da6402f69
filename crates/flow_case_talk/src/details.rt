//! What the words of a refusal leave out.

use crate::asked::Asked;
use crate::book::Book;
use flow_ask::{Ask, Refusal};
use flow_case_why::{constraint_words, push_reason_members};
use flow_policy::Tie;
use flow_reason::{Reason, why_leaf};
use flow_standing::doings;
use flow_workflow::push_leaf_label;
use flow_writer::Writer;
use std::alloc::{AllocError, Global};

/// Adds, behind the words of a refusal: the other task of a duty and who took it, who did a final task, or why a task cannot be taken
/// or done now.
pub(crate) fn push_details<B: Book>(
    alloc: Global,
    page: &mut Writer,
    book: &B,
    asked: &Asked,
) -> Result<(), AllocError> {
    let Some(leaf) = asked.leaf else {
        return Ok(());
    };
    match (asked.answer, asked.ask) {
        (Err(Refusal::Separate(index)), _) => push_tie(page, book, leaf, index, Kind::Separate),
        (Err(Refusal::Bind(index)), _) => push_tie(page, book, leaf, index, Kind::Bind),
        (Err(Refusal::Final { .. }), _) => push_doing(alloc, page, book, leaf),
        (Err(Refusal::NotEnabled | Refusal::TestFalse), Ask::Take(_) | Ask::Do(_)) => {
            page.words(": ")?;
            push_reason(alloc, page, book, leaf)
        }
        _ => Ok(()),
    }
}

/// The kind of a duty.
#[derive(Clone, Copy)]
enum Kind {
    Separate,
    Bind,
}

/// Adds the other task of the duty, and who took it.
fn push_tie<B: Book>(
    page: &mut Writer,
    book: &B,
    leaf: u32,
    index: u32,
    kind: Kind,
) -> Result<(), AllocError> {
    let (Some(policy), Some(event)) = (book.policy(), book.core().workflow().tree().event(leaf))
    else {
        return Ok(());
    };
    let ties = match kind {
        Kind::Separate => policy.separations(event),
        Kind::Bind => policy.bindings(event),
    };
    match ties.iter().find(|tie| tie.index == index) {
        Some(tie) => push_other(page, book, *tie),
        None => Ok(()),
    }
}

/// Adds the other task of the tie, and who took it.
fn push_other<B: Book>(page: &mut Writer, book: &B, tie: Tie) -> Result<(), AllocError> {
    page.words(" (")?;
    page.bytes(book.core().workflow().event_name(tie.other))?;
    if let Some(taker) = book.core().taker_of_event(tie.other) {
        page.words(", which ")?;
        page.words(book.user_name(taker))?;
        page.words(" took")?;
    }
    page.words(")")
}

/// Adds the entry by which the leaf was done, and by whom.
fn push_doing<B: Book>(
    alloc: Global,
    page: &mut Writer,
    book: &B,
    leaf: u32,
) -> Result<(), AllocError> {
    for doing in doings(alloc, book.core())?.iter() {
        if doing.leaf == leaf {
            page.words(": entry ")?;
            page.ordinal(doing.place)?;
            page.words(", by ")?;
            return page.words(book.user_name(doing.by));
        }
    }
    Ok(())
}

/// Adds why the leaf is not taken or done now. Entries are counted from 1, as the history shows them.
pub(crate) fn push_reason<B: Book>(
    alloc: Global,
    page: &mut Writer,
    book: &B,
    leaf: u32,
) -> Result<(), AllocError> {
    let reason = why_leaf(alloc, book.core(), leaf)?;
    push_reason_words(alloc, page, book, leaf, &reason)
}

fn push_reason_words<B: Book>(
    alloc: Global,
    page: &mut Writer,
    book: &B,
    leaf: u32,
    reason: &Reason,
) -> Result<(), AllocError> {
    let mut words = Vec::new(alloc);
    let (state, entry, user) = match reason {
        Reason::Done { entry } => (" is done: entry ", *entry, user_of(book, *entry)),
        Reason::Out { entry, user, .. } => (" is out: entry ", *entry, *user),
        _ => {
            reason.print(&mut words, book.core().workflow(), leaf)?;
            page.bytes(&words)?;
            return push_constraints(alloc, page, book, reason);
        }
    };
    push_leaf_label(&mut words, book.core().workflow(), leaf)?;
    page.bytes(&words)?;
    page.words(state)?;
    page.ordinal(entry)?;
    page.words(", by ")?;
    page.words(book.user_name(user))
}

/// Adds the words of the constraints that the reason names.
fn push_constraints<B: Book>(
    alloc: Global,
    page: &mut Writer,
    book: &B,
    reason: &Reason,
) -> Result<(), AllocError> {
    let Reason::WaitsByConstraints { constraints, .. } = reason else {
        return Ok(());
    };
    page.words(" (")?;
    for (index, number) in constraints.iter().enumerate() {
        page.between(index, "; ")?;
        page.number(u64::from(*number))?;
        page.words(": ")?;
        page.bytes(&constraint_words(alloc, book.workflow_text(), *number)?)?;
    }
    page.words(")")
}

/// Adds the member `why`: the reason why the leaf is not taken or done now.
pub(crate) fn push_why<B: Book>(
    alloc: Global,
    page: &mut Writer,
    book: &B,
    leaf: u32,
) -> Result<(), AllocError> {
    let reason = why_leaf(alloc, book.core(), leaf)?;
    let mut label = Vec::new(alloc);
    push_leaf_label(&mut label, book.core().workflow(), leaf)?;
    page.key("why")?;
    page.words("[{\"leaf\":")?;
    page.number(u64::from(leaf))?;
    page.key("task")?;
    page.quoted_text(&label)?;
    let mut members = Vec::new(alloc);
    push_reason_members(&mut members, &reason)?;
    page.bytes(&members)?;
    page.words("}]")
}

/// The user who made the entry at the place.
fn user_of<B: Book>(book: &B, place: usize) -> u32 {
    match book.core().history().get(place) {
        Some(entry) => entry.by,
        None => 0,
    }
}
