//! Who may take a task, in words.

use crate::begun::is_left_to_nobody;
use crate::book::Book;
use flow_policy::Policy;
use flow_staff::roles_allowed;
use flow_writer::Writer;
use std::alloc::{AllocError, Global};

/// Who may take the leaf's task, in a case with a policy: the roles that are allowed it, and whom duties leave it to now.
pub(crate) fn who_may<B: Book>(alloc: Global, book: &B, leaf: u32) -> Result<Vec<u8>, AllocError> {
    let mut page = Writer::new(alloc);
    push_who(alloc, &mut page, book, leaf)?;
    Ok(page.text)
}

fn push_who<B: Book>(
    alloc: Global,
    page: &mut Writer,
    book: &B,
    leaf: u32,
) -> Result<(), AllocError> {
    let event = book.core().workflow().tree().event(leaf);
    let (Some(policy), Some(text), Some(event)) = (book.policy(), book.policy_text(), event) else {
        return Ok(());
    };
    push_roles(alloc, page, text, book.core().workflow().event_name(event))?;
    match bound_to(book, policy, event) {
        Some((other, taker)) => push_bound(page, book, other, taker)?,
        None => push_separate(page, book, policy, event)?,
    }
    if is_left_to_nobody(book, leaf) {
        page.words("; nobody now")?;
    }
    Ok(())
}

/// Adds the roles that are allowed the event.
fn push_roles(
    alloc: Global,
    page: &mut Writer,
    policy: &[u8],
    event: &[u8],
) -> Result<(), AllocError> {
    let roles = roles_allowed(alloc, policy, event)?;
    if roles.is_empty() {
        return page.words("no role");
    }
    for (index, role) in roles.iter().enumerate() {
        page.between(index, ", ")?;
        page.bytes(role.bytes())?;
    }
    Ok(())
}

/// The first event that somebody has and to which this one is bound, and who has it.
fn bound_to<B: Book>(book: &B, policy: &Policy, event: u32) -> Option<(u32, u32)> {
    for tie in policy.bindings(event) {
        if let Some(taker) = book.core().taker_of_event(tie.other) {
            return Some((tie.other, taker));
        }
    }
    None
}

/// Adds who has the other event, to which this one is bound.
fn push_bound<B: Book>(
    page: &mut Writer,
    book: &B,
    other: u32,
    taker: u32,
) -> Result<(), AllocError> {
    page.words("; ")?;
    page.words(book.user_name(taker))?;
    page.words(" alone, bound to ")?;
    page.bytes(book.core().workflow().event_name(other))
}

/// Adds who has a role for the event, and is kept from it by another event.
fn push_separate<B: Book>(
    page: &mut Writer,
    book: &B,
    policy: &Policy,
    event: u32,
) -> Result<(), AllocError> {
    for tie in policy.separations(event) {
        if let Some(taker) = book.core().taker_of_event(tie.other) {
            if policy.has_role(taker, event) {
                page.words("; not ")?;
                page.words(book.user_name(taker))?;
                page.words(", separate from ")?;
                page.bytes(book.core().workflow().event_name(tie.other))?;
            }
        }
    }
    Ok(())
}
