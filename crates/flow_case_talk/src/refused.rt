use crate::book::Book;
use crate::form::Form;
use crate::todo::label_of;
use flow_names::{CommandRefusal, NameRefusal, Verb};
use flow_writer::Writer;
use std::alloc::{AllocError, Global};

/// Adds the front of an object that tells a refusal.
fn push_refused(page: &mut Writer, word: &str) -> Result<(), AllocError> {
    page.words("{\"ok\":false,\"refused\":")?;
    page.quoted_text(word.as_bytes())
}

/// Ends a reply that is a refusal in these words.
pub(crate) fn refused_text(
    alloc: Global,
    form: Form,
    word: &str,
    words: &[u8],
) -> Result<Vec<u8>, AllocError> {
    let mut page = Writer::new(alloc);
    match form {
        Form::Words => page.bytes(words)?,
        Form::Json => {
            push_refused(&mut page, word)?;
            page.key("reply")?;
            page.quoted_text(words)?;
            page.words("}")?;
        }
    }
    page.words("\n")?;
    Ok(page.text)
}

/// Why a line is no command.
pub(crate) fn unread_words(
    alloc: Global,
    line: &[u8],
    refusal: CommandRefusal,
) -> Result<Vec<u8>, AllocError> {
    let mut page = Writer::new(alloc);
    page.words("refused: ")?;
    match refusal {
        CommandRefusal::Blank => page.words("the line is empty")?,
        CommandRefusal::Unknown { near: Some(verb) } => {
            page.words("no command begins so: did you mean ")?;
            page.words(verb.word())?;
            page.words("?")?;
        }
        CommandRefusal::Unknown { near: None } => page.words(
            "there are take, done, fail, do, rewind, commit, tidy, todo, why, history, undone, facts, report",
        )?,
        CommandRefusal::Missing { verb: Verb::Undone } => page.words(
            "undone TASK --ok tells that it is undone: --ok is missing",
        )?,
        CommandRefusal::Missing { verb } => {
            page.words(verb.word())?;
            page.words(" of what? a word is missing")?;
        }
        CommandRefusal::Behind { .. } => {
            page.words("there is a word too many: ")?;
            page.bytes(line)?;
        }
        CommandRefusal::Leaf => page.words("behind @ stands the number of a leaf")?,
        CommandRefusal::NoMemory => return Err(AllocError),
    }
    Ok(page.text)
}

/// Why a command means nothing now.
pub(crate) fn unmeant_words<B: Book>(
    alloc: Global,
    book: &B,
    refusal: NameRefusal,
) -> Result<Vec<u8>, AllocError> {
    let mut page = Writer::new(alloc);
    page.words("refused: ")?;
    match refusal {
        NameRefusal::Unknown { near: Some(event) } => {
            page.words("there is no such task: did you mean ")?;
            page.bytes(book.core().workflow().event_name(event))?;
            page.words("?")?;
        }
        NameRefusal::Unknown { near: None } => page.words("there is no such task")?,
        NameRefusal::OtherLeaf { leaf } => {
            page.words("leaf ")?;
            page.number(u64::from(leaf))?;
            page.words(" is another one")?;
        }
        NameRefusal::NoLeaf => page.words("no place of the workflow is so")?,
        NameRefusal::Several(leaves) => push_several(alloc, &mut page, book, &leaves)?,
        NameRefusal::NotOut { event } => {
            page.bytes(book.core().workflow().event_name(event))?;
            page.words(" is not out: nobody has taken it; `flowdesk why ")?;
            page.words(book.path())?;
            page.words(" ")?;
            page.bytes(book.core().workflow().event_name(event))?;
            page.words("` tells more")?;
        }
        NameRefusal::NoMemory => return Err(AllocError),
    }
    Ok(page.text)
}

fn push_several<B: Book>(
    alloc: Global,
    page: &mut Writer,
    book: &B,
    leaves: &[u32],
) -> Result<(), AllocError> {
    page.words("several may be meant: ")?;
    for (index, leaf) in leaves.iter().enumerate() {
        page.between(index, ", ")?;
        page.bytes(&label_of(alloc, book, *leaf)?)?;
        page.words("@")?;
        page.number(u64::from(*leaf))?;
    }
    Ok(())
}
