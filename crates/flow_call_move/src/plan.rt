//! What numbers of the old case are called in the new one.

use flow_case::Users;
use flow_case_talk::Book;
use flow_facts::Name;
use flow_model::Entry;
use flow_move::{NewNames, Rename, new_labels};
use std::alloc::{AllocError, Global};

/// The renames of the words, or the first word that is none.
#[derive(Drop)]
pub(crate) enum Renames<'a> {
    Read(Vec<Rename>),
    Bad(&'a str),
}

/// What a word renames.
fn rename_in(alloc: Global, word: &str) -> Result<Option<Rename>, AllocError> {
    match word.split_once('=') {
        Some((from, to)) if from != "" && to != "" => Ok(Some(Rename {
            from: Name::new(alloc, from.as_bytes())?,
            to: Name::new(alloc, to.as_bytes())?,
        })),
        _ => Ok(None),
    }
}

/// The renames of the words.
pub(crate) fn renames_in<'a>(alloc: Global, words: &[&'a str]) -> Result<Renames<'a>, AllocError> {
    let mut renames = Vec::new(alloc);
    for word in words {
        match rename_in(alloc, *word)? {
            Some(rename) => renames.push(rename)?,
            None => return Ok(Renames::Bad(*word)),
        }
    }
    Ok(Renames::Read(renames))
}

/// The numbers of the users by the policy of the new case. The first place is of no user.
fn numbers_by<B: Book>(
    alloc: Global,
    book: &B,
    users: &Users,
) -> Result<Vec<Option<u32>>, AllocError> {
    let mut numbers = Vec::new(alloc);
    numbers.push(None)?;
    for old in 0..book.users() {
        let name = book.user_name(old.saturating_add(1));
        let number = users.number_of(&Name::new(alloc, name.as_bytes())?);
        numbers.push(number)?;
    }
    Ok(numbers)
}

/// Notes the user's number where it has none: the next one.
fn number_next(numbers: &mut [Option<u32>], by: u32, next: &mut u32) {
    if let Some(number) = numbers.get_mut(by as usize) {
        if number.is_none() {
            *number = Some(*next);
            *next = next.saturating_add(1);
        }
    }
}

/// The numbers of the users in a case without a policy: in the order in which they first made an entry.
fn numbers_in_turn<B: Book>(
    alloc: Global,
    book: &B,
    history: &[Entry],
) -> Result<Vec<Option<u32>>, AllocError> {
    let mut numbers = Vec::new(alloc);
    numbers.push(None)?;
    for _ in 0..book.users() {
        numbers.push(None)?;
    }
    let mut next = 1;
    for entry in history {
        number_next(&mut numbers, entry.by, &mut next);
    }
    Ok(numbers)
}

/// What leaves and users of the old case are called in the new one.
pub(crate) fn new_names<B: Book>(
    alloc: Global,
    book: &B,
    users: Option<&Users>,
    renames: &[Rename],
) -> Result<NewNames, AllocError> {
    let callers = match users {
        Some(users) => numbers_by(alloc, book, users)?,
        None => numbers_in_turn(alloc, book, book.core().history())?,
    };
    match new_labels(alloc, book.core().workflow(), renames) {
        Ok(labels) => Ok(NewNames { labels, callers }),
        Err(error) => {
            drop(callers);
            Err(error)
        }
    }
}
