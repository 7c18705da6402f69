//! The reply to what was asked.
ghost use Rattle.std.specs.Prelude.{◌≡◌};

use crate::asked::{Asked, push_entries, push_made};
use crate::book::Book;
use crate::details::push_why;
use crate::form::Form;
use crate::todo::begin_line;
use flow_ask::{Ask, Refusal};
use flow_case_words::refusal_word;
use flow_writer::Writer;
use std::alloc::{AllocError, Global};

/// The text of the reply where all that was asked is made, of which these are the words.
pub(crate) fn made_text<B: Book>(
    alloc: Global,
    book: &mut B,
    last: &Option<Asked>,
    words: Writer,
    from: usize,
    form: Form,
) -> Result<Vec<u8>, AllocError>
    ensures { B.kept_case book.new ≡ B.kept_case book.old }
{
    let mut words = words;
    if last.is_none() {
        words.words("nothing is to be tidied\n")?;
    }
    match form {
        Form::Words => {
            words.bytes(&begin_line(alloc, book)?)?;
            Ok(words.text)
        }
        Form::Json => made_object(alloc, book, last, &words.text, from),
    }
}

fn made_object<B: Book>(
    alloc: Global,
    book: &B,
    last: &Option<Asked>,
    words: &[u8],
    from: usize,
) -> Result<Vec<u8>, AllocError> {
    let mut page = Writer::new(alloc);
    page.words("{\"ok\":true")?;
    page.key("entries")?;
    push_entries(alloc, &mut page, book, from)?;
    if let Some(asked) = last {
        push_made(alloc, &mut page, book, asked)?;
    }
    push_reply(&mut page, words)?;
    Ok(page.text)
}

/// The text of the reply where the last that was asked was refused.
pub(crate) fn refused_ask_text<B: Book>(
    alloc: Global,
    book: &B,
    last: &Option<Asked>,
    words: Writer,
    from: usize,
    form: Form,
) -> Result<Vec<u8>, AllocError> {
    match last {
        Some(
            Asked {
                answer: Err(refusal),
                ..
            },
        ) if form == Form::Json => refused_object(alloc, book, last, *refusal, &words.text, from),
        _ => Ok(words.text),
    }
}

fn refused_object<B: Book>(
    alloc: Global,
    book: &B,
    last: &Option<Asked>,
    refusal: Refusal,
    words: &[u8],
    from: usize,
) -> Result<Vec<u8>, AllocError> {
    let mut page = Writer::new(alloc);
    page.words("{\"ok\":false")?;
    page.key("refused")?;
    page.quoted_text(refusal_word(refusal).as_bytes())?;
    page.key("entries")?;
    push_entries(alloc, &mut page, book, from)?;
    if let Some(leaf) = leaf_that_waits(last) {
        push_why(alloc, &mut page, book, leaf)?;
    }
    push_reply(&mut page, words)?;
    Ok(page.text)
}

/// The leaf that was not taken or done because it waits.
fn leaf_that_waits(last: &Option<Asked>) -> Option<u32> {
    match last {
        Some(
            Asked {
                ask: Ask::Take(leaf) | Ask::Do(leaf),
                answer: Err(Refusal::NotEnabled | Refusal::TestFalse),
                ..
            },
        ) => Some(*leaf),
        _ => None,
    }
}

/// Adds the words of a reply, and ends the object.
pub(crate) fn push_reply(page: &mut Writer, words: &[u8]) -> Result<(), AllocError> {
    page.key("reply")?;
    page.quoted_text(words)?;
    page.words("}\n")
}
