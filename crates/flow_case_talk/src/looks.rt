ghost use Rattle.std.specs.Prelude.{◌≡◌};

use crate::book::{Book, Told};
use crate::details::{push_reason, push_why};
use crate::form::Form;
use crate::ticks::undone_text;
use crate::todo::{label_of, todo_text};
use flow_ask::Look;
use flow_model::{Entry, Step};
use flow_names::Command;
use flow_record::print_history;
use flow_reply::{print_look, print_report, verdict_of};
use flow_writer::Writer;
use itoa::Buffer;
use std::alloc::{AllocError, Global};

/// What a command shows that asks nothing of the run.
pub(crate) fn look_text<B: Book>(
    alloc: Global,
    book: &mut B,
    command: &Command,
    form: Form,
) -> Result<Vec<u8>, AllocError>
    ensures { B.kept_case book.new ≡ B.kept_case book.old }
{
    match command {
        Command::Todo => todo_text(alloc, book, form),
        Command::History => history_text(alloc, book, form),
        Command::Undone => undone_text(alloc, book, form),
        Command::Facts => shown(
            alloc,
            form,
            &print_look(alloc, book.core(), Look::Facts)?,
            "\n",
        ),
        _ => {
            let report = print_report(alloc, book.core(), &verdict_of(book.core()))?;
            shown(alloc, form, &report, "")
        }
    }
}

/// Words that are shown, with what ends them; or the same as an object.
pub(crate) fn shown(
    alloc: Global,
    form: Form,
    words: &[u8],
    end: &str,
) -> Result<Vec<u8>, AllocError> {
    let mut page = Writer::new(alloc);
    match form {
        Form::Words => {
            page.bytes(words)?;
            page.words(end)?;
        }
        Form::Json => {
            page.words("{\"ok\":true,\"reply\":")?;
            page.quoted_text(words)?;
            page.words("}\n")?;
        }
    }
    Ok(page.text)
}

/// Why the leaf is not taken or done now.
pub(crate) fn why_text<B: Book>(
    alloc: Global,
    book: &mut B,
    leaf: u32,
    form: Form,
) -> Result<Vec<u8>, AllocError>
    ensures { B.kept_case book.new ≡ B.kept_case book.old }
{
    book.look_ahead();
    let mut words = Writer::new(alloc);
    push_reason(alloc, &mut words, book, leaf)?;
    let words = words.text;
    let mut page = Writer::new(alloc);
    match form {
        Form::Words => {
            page.bytes(&words)?;
            page.words("\n")?;
        }
        Form::Json => {
            page.words("{\"ok\":true")?;
            push_why(alloc, &mut page, book, leaf)?;
            page.key("reply")?;
            page.quoted_text(&words)?;
            page.words("}\n")?;
        }
    }
    Ok(page.text)
}

/// The leaves on which claims were given, by the numbers of these, which begin at 1.
fn leaves_taken<B: Book>(alloc: Global, book: &B) -> Result<Vec<u32>, AllocError> {
    let mut leaves = Vec::new(alloc);
    for entry in book.core().history() {
        if let Step::Took { leaf, .. } = entry.step {
            leaves.push(leaf)?;
        }
    }
    Ok(leaves)
}

/// The leaf that an entry is about, if it is about one.
fn leaf_of_entry(taken: &[u32], entry: Entry) -> Option<u32> {
    match entry.step {
        Step::Took { leaf, .. } | Step::Did { leaf } => Some(leaf),
        Step::Done { claim } | Step::Failed { claim, .. } | Step::Late { claim } => {
            match taken.get((claim as usize).wrapping_sub(1)) {
                Some(leaf) => Some(*leaf),
                None => None,
            }
        }
        Step::Rewound { .. } | Step::Committed => None,
    }
}

/// What an entry did.
fn step_word(step: Step) -> &'static str {
    match step {
        Step::Took { .. } => "took",
        Step::Done { .. } => "done",
        Step::Failed { .. } => "failed",
        Step::Late { .. } => "late",
        Step::Did { .. } => "did",
        Step::Rewound { .. } => "stepped back",
        Step::Committed => "committed",
    }
}

/// The history, a line an entry: its number, when, who, what, the note.
fn history_text<B: Book>(alloc: Global, book: &B, form: Form) -> Result<Vec<u8>, AllocError> {
    let taken = leaves_taken(alloc, book)?;
    let mut page = Writer::new(alloc);
    if form == Form::Words {
        page.words("   n  when                  who       what\n")?;
    }
    for (place, entry) in book.core().history().iter().enumerate() {
        match form {
            Form::Words => push_entry(alloc, &mut page, book, &taken, place, *entry)?,
            Form::Json => push_entry_object(alloc, &mut page, book, &taken, place, *entry)?,
        }
        page.words("\n")?;
    }
    Ok(page.text)
}

/// Adds the number of an entry, to the right of its column.
fn push_place(page: &mut Writer, place: usize) -> Result<(), AllocError> {
    let mut digits = Buffer::new();
    let number = digits.format((place as u64).saturating_add(1));
    page.blanks(4usize.saturating_sub(number.len()))?;
    page.words(number)?;
    page.words("  ")
}

fn push_entry<B: Book>(
    alloc: Global,
    page: &mut Writer,
    book: &B,
    taken: &[u32],
    place: usize,
    entry: Entry,
) -> Result<(), AllocError> {
    push_place(page, place)?;
    let told = book.told(place);
    if let Some(told) = told {
        page.column(told.at.as_bytes(), 20)?;
        page.column(told.by.as_bytes(), 8)?;
    }
    let mut what = Writer::new(alloc);
    what.words(step_word(entry.step))?;
    if let Some(leaf) = leaf_of_entry(taken, entry) {
        what.words(" ")?;
        what.bytes(&label_of(alloc, book, leaf)?)?;
    }
    match told {
        Some(told) if told.note != "" => {
            page.column(&what.text, 24)?;
            page.words(told.note)
        }
        _ => page.bytes(&what.text),
    }
}

fn push_entry_object<B: Book>(
    alloc: Global,
    page: &mut Writer,
    book: &B,
    taken: &[u32],
    place: usize,
    entry: Entry,
) -> Result<(), AllocError> {
    page.words("{\"n\":")?;
    page.ordinal(place)?;
    if let Some(told) = book.told(place) {
        page.key("at")?;
        page.quoted_text(told.at.as_bytes())?;
        page.key("by")?;
        page.quoted_text(told.by.as_bytes())?;
    }
    page.key("did")?;
    page.quoted_text(step_word(entry.step).as_bytes())?;
    if let Some(leaf) = leaf_of_entry(taken, entry) {
        page.key("task")?;
        page.quoted_text(&label_of(alloc, book, leaf)?)?;
    }
    if let Some(Told { note, .. }) = book.told(place) {
        if note != "" {
            page.key("note")?;
            page.quoted_text(note.as_bytes())?;
        }
    }
    page.words("}")
}
