//! A case as a page.

use crate::begun::begun_section;
use crate::constraints::constraints_section;
use crate::history::history_rows;
use crate::out::out_section;
use crate::tasks::tasks_section;
use crate::undone::undone_section;
use flow_case_talk::{Book, Told};
use flow_facts::Name;
use flow_names::{State, todo_of};
use flow_page::{Page, Part, Section, paragraph, tabled, told};
use std::alloc::{AllocError, Global};

/// What is shown of a case besides what the case itself tells.
#[derive(Drop)]
pub struct CaseShown<'a> {
    /// The text of its workflow.
    pub workflow: &'a [u8],
    /// The picture of its workflow, as SVG.
    pub picture: Vec<u8>,
    /// The last seal of its trail.
    pub seal: &'a str,
    /// When this is shown.
    pub at: &'a str,
}

/// The page of a case.
pub fn case_page<B: Book>(
    alloc: Global,
    book: &mut B,
    shown: CaseShown<'_>,
) -> Result<Page, AllocError> {
    let CaseShown {
        workflow,
        picture,
        seal,
        at,
    } = shown;
    book.look_ahead();
    let todo = todo_of(alloc, book.core())?;
    let mut sections = Vec::new(alloc);
    sections.push(stand_section(alloc, todo.state, at, seal)?)?;
    sections.push(begun_section(alloc, book, &todo)?)?;
    let tellings = tellings_of(alloc, book)?;
    sections.push(out_section(alloc, book, &tellings)?)?;
    sections.push(picture_section(alloc, picture)?)?;
    sections.push(tasks_section(alloc, book, &tellings)?)?;
    sections.push(history_section(alloc, book, &tellings)?)?;
    sections.push(undone_section(alloc, book, &tellings)?)?;
    sections.push(constraints_section(alloc, workflow)?)?;
    Ok(Page {
        title: Name::new(alloc, book.path().as_bytes())?,
        sections,
    })
}

/// Who made each entry, and when.
pub(crate) fn tellings_of<'a, B: Book>(
    alloc: Global,
    book: &'a B,
) -> Result<Vec<Told<'a>>, AllocError> {
    let mut tellings = Vec::new(alloc);
    for place in 0..book.core().history().len() {
        let told = match book.told(place) {
            Some(told) => told,
            None => Told {
                at: "",
                by: "",
                note: "",
            },
        };
        tellings.push(told)?;
    }
    Ok(tellings)
}

/// How a case stands, in words.
fn state_words(state: State) -> &'static [u8] {
    match state {
        State::Open => b"open",
        State::Waiting => b"waiting for what is out",
        State::Finished => b"finished: nothing is left but to commit",
        State::Stuck => b"stuck: only tests are left that do not hold",
        State::Committed => b"committed",
    }
}

/// The section of how the case stands, at what time, with the last seal.
fn stand_section(alloc: Global, state: State, at: &str, seal: &str) -> Result<Section, AllocError> {
    let mut words = Vec::from_slice(alloc, b"At ")?;
    words.extend_from_slice(at.as_bytes())?;
    words.extend_from_slice(b" the case is ")?;
    words.extend_from_slice(state_words(state))?;
    words.extend_from_slice(b".")?;
    let mut sealed = Vec::from_slice(alloc, b"The last seal is ")?;
    sealed.extend_from_slice(seal.as_bytes())?;
    sealed.extend_from_slice(b".")?;
    let mut section = told(alloc, b"How the case stands", &words)?;
    section.parts.push(paragraph(alloc, &sealed)?)?;
    Ok(section)
}

/// The section of the picture.
fn picture_section(alloc: Global, picture: Vec<u8>) -> Result<Section, AllocError> {
    let mut parts = Vec::new(alloc);
    parts.push(Part::Picture(picture))?;
    parts.push(paragraph(alloc, b"The next table says the same in words.")?)?;
    Ok(Section {
        heading: Name::new(alloc, b"The workflow, and where its run stands")?,
        parts,
    })
}

/// The section of the history.
fn history_section<B: Book>(
    alloc: Global,
    book: &B,
    tellings: &[Told<'_>],
) -> Result<Section, AllocError> {
    let rows = history_rows(alloc, book.core(), tellings)?;
    tabled(
        alloc,
        b"History",
        &["n", "when", "who", "what", "note"],
        rows,
        b"Nothing was done.",
    )
}
