//! How a statement of a case's policy is written.

use flow_fault::{Met, met_at};

/// The word with which the statement begins that stands at the end of the text.
fn statement_word(text: &[u8]) -> &[u8] {
    let mut start = 0;
    for (place, byte) in text.iter().enumerate() {
        if *byte == b';' {
            start = place + 1;
        }
    }
    let Some(statement) = text.get(start..) else {
        return &[];
    };
    let Some(first) = statement.iter().position(|byte| *byte > b' ') else {
        return &[];
    };
    match met_at(&statement[first..], 0) {
        Met::Name(word) => word,
        _ => &[],
    }
}

/// How the statement is written that begins in the text and does not go on behind it.
pub(crate) fn statement_form(text: &[u8]) -> &'static str {
    let word = statement_word(text);
    if word == b"role".as_slice() {
        "a line of roles is role ROLE = USER, USER;"
    } else if word == b"allow".as_slice() {
        "a line of what a role may take is allow ROLE EVENT, EVENT;"
    } else if word == b"separate".as_slice() {
        "a line of events that one user may not both have is separate EVENT EVENT;"
    } else if word == b"bind".as_slice() {
        "a line of events that one user has both is bind EVENT EVENT;"
    } else if word == b"final".as_slice() {
        "a line of events that no step back goes over is final EVENT, EVENT;"
    } else if word == b"back".as_slice() {
        "a line of roles that may step back is back ROLE, ROLE;"
    } else if word == b"close".as_slice() {
        "a line of roles that may commit is close ROLE, ROLE;"
    } else {
        "a statement begins with role, allow, separate, bind, final, back or close, and ends with ;"
    }
}
