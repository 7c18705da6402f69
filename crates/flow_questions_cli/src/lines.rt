//! The entries of a run that shows an answer.

use crate::asked::entries;
use crate::subject::Subject;
use flow_model::{Entry, Step};
use flow_record::print_label;
use std::alloc::{AllocError, Global};

/// What an entry does, in a word, and the leaf of which it speaks.
pub(crate) fn deed_of(subject: &Subject, place: usize, entry: &Entry) -> (&'static str, u32) {
    match entry.step {
        Step::Took { leaf, .. } => ("took", leaf),
        Step::Done { .. } => ("done", leaf_before(subject, place)),
        Step::Did { leaf } => ("did", leaf),
        _ => ("", 0),
    }
}

/// The leaf that was taken by the entry before that one: each task is done at once.
fn leaf_before(subject: &Subject, place: usize) -> u32 {
    match entries(&subject.run).get(place.wrapping_sub(1)) {
        Some(
            Entry {
                step: Step::Took { leaf, .. },
                ..
            },
        ) => *leaf,
        _ => 0,
    }
}

/// The name of the user, or none.
pub(crate) fn user_name(subject: &Subject, user: u32) -> &[u8] {
    match subject.users.name_of(user) {
        Some(name) => name.bytes(),
        None => &[],
    }
}

/// What stands at the leaf.
pub(crate) fn label(alloc: Global, subject: &Subject, leaf: u32) -> Result<Vec<u8>, AllocError> {
    print_label(alloc, subject.run.core().workflow(), leaf)
}
