ghost use Rattle.std.specs.Prelude.{◌≡◌, IfOk, OnErr};
ghost use Rattle.flow_case_talk.specs.Means.{IsAnswered};
ghost use Rattle.flow_case_talk.specs.Plans.{WasAsked};

use crate::book::{Book, Speaker};
use crate::details::push_details;
use crate::todo::{key_of, label_of};
use flow_ask::{Answer, Ask, Made, Refusal};
use flow_case_words::print_reply;
use flow_model::Step;
use flow_record::print_history;
use flow_standing::{TakenBack, taken_back};
use flow_writer::Writer;
use std::alloc::{AllocError, Global};

/// What came of one ask.
#[derive(Drop)]
pub(crate) struct Asked {
    pub(crate) ask: Ask,
    /// The leaf that it was about, or that its refusal names.
    pub(crate) leaf: Option<u32>,
    /// The task or step that it was about.
    pub(crate) task: Vec<u8>,
    pub(crate) answer: Answer,
    /// What a step back took, if it was one.
    pub(crate) taken: Vec<TakenBack>,
}

/// The leaf that the ask is about, or that its refusal names.
fn leaf_of<B: Book>(book: &B, ask: Ask, answer: &Answer) -> Option<u32> {
    match answer {
        Err(Refusal::Final { leaf }) => return Some(*leaf),
        Err(Refusal::ClaimsOut { claim }) => return leaf_of_claim(book, *claim),
        _ => {}
    }
    match ask {
        Ask::Take(leaf) | Ask::Do(leaf) => Some(leaf),
        Ask::Done(claim) | Ask::Fail(claim) => leaf_of_claim(book, claim),
        Ask::Rewind | Ask::Commit => None,
    }
}

/// The leaf on which the claim was given.
fn leaf_of_claim<B: Book>(book: &B, claim: u32) -> Option<u32> {
    for entry in book.core().history() {
        match entry.step {
            Step::Took { claim: given, leaf } if given == claim => return Some(leaf),
            _ => {}
        }
    }
    None
}

/// The name of the leaf that the ask is about, and the number where it has none.
fn task_of<B: Book>(
    alloc: Global,
    book: &B,
    ask: Ask,
    leaf: Option<u32>,
) -> Result<Vec<u8>, AllocError> {
    match leaf {
        Some(leaf) if leaf < book.core().workflow().tree().leaves() => label_of(alloc, book, leaf),
        _ => numbered(alloc, ask),
    }
}

/// The number of the leaf or the claim that the ask is about, if it is about one.
fn numbered(alloc: Global, ask: Ask) -> Result<Vec<u8>, AllocError> {
    let mut page = Writer::new(alloc);
    match ask {
        Ask::Take(number) | Ask::Do(number) | Ask::Done(number) | Ask::Fail(number) => page.number(
            u64::from(number),
        )?,
        Ask::Rewind | Ask::Commit => {}
    }
    Ok(page.text)
}

/// Asks one thing, and notes what came of it.
#[tactic(auto, using(crate::proofs::MeansLemmas::noted, crate::proofs::MeansLemmas::unnoted))]
pub(crate) fn ask_one<B: Book>(
    alloc: Global,
    book: &mut B,
    ask: Ask,
    speaker: Speaker<'_>,
) -> Result<Asked, AllocError>
    ensures asked { IfOk result (λ asked. IsAnswered (B.kept_case book.old) ask speaker.entry.number asked.answer (B.kept_case book.new)) }
    ensures unnoted { OnErr result (WasAsked (B.kept_case book.old) ask speaker.entry.number (B.kept_case book.new)) }
{
    let before = book.core().history().len();
    let answer = book.ask(ask, speaker);
    noted(alloc, book, ask, answer, before)
}

/// What came of an ask of a run with so many entries.
fn noted<B: Book>(
    alloc: Global,
    book: &B,
    ask: Ask,
    answer: Answer,
    before: usize,
) -> Result<Asked, AllocError>
    ensures { IfOk result (λ asked. asked.answer ≡ answer) }
{
    let leaf = leaf_of(book, ask, &answer);
    Ok(Asked {
        ask,
        leaf,
        task: task_of(alloc, book, ask, leaf)?,
        answer,
        taken: taken_by(alloc, book, &answer, before)?,
    })
}

/// What a step back took, if it was one, of a run with so many entries.
fn taken_by<B: Book>(
    alloc: Global,
    book: &B,
    answer: &Answer,
    before: usize,
) -> Result<Vec<TakenBack>, AllocError> {
    let mut taken = Vec::new(alloc);
    if let Ok(Made::Rewound(_)) = answer {
        for one in taken_back(alloc, book.core())?.iter() {
            if one.rewound == before {
                taken.push(*one)?;
            }
        }
    }
    Ok(taken)
}

/// What came of it in words.
pub(crate) fn asked_words<B: Book>(
    alloc: Global,
    book: &B,
    speaker: Speaker<'_>,
    asked: &Asked,
) -> Result<Vec<u8>, AllocError> {
    let mut page = Writer::new(alloc);
    page.bytes(&print_reply(alloc, speaker.name.as_bytes(), &asked.task, &asked.answer)?)?;
    push_details(alloc, &mut page, book, asked)?;
    if is_final_done(book, asked) {
        page.words(", for good: no step back goes over it")?;
    }
    page.words("\n")?;
    for taken in asked.taken.iter() {
        page.words("taken back, to be undone outside: ")?;
        push_taken(alloc, &mut page, book, taken)?;
        page.words("\n")?;
    }
    Ok(page.text)
}

/// Whether a final event was done.
fn is_final_done<B: Book>(book: &B, asked: &Asked) -> bool {
    let (Some(leaf), Ok(Made::Done)) = (asked.leaf, asked.answer) else {
        return false;
    };
    match book.core().workflow().tree().event(leaf) {
        Some(event) => book.is_final(event),
        None => false,
    }
}

/// Adds a task that a step back took.
pub(crate) fn push_taken<B: Book>(
    alloc: Global,
    page: &mut Writer,
    book: &B,
    taken: &TakenBack,
) -> Result<(), AllocError> {
    page.bytes(&label_of(alloc, book, taken.leaf)?)?;
    page.words(" (claim ")?;
    page.number(u64::from(taken.claim))?;
    page.words(", done by ")?;
    page.words(book.user_name(taken.by))?;
    page.words(")")
}

/// Adds the members of an object that tell what was made, behind others.
pub(crate) fn push_made<B: Book>(
    alloc: Global,
    page: &mut Writer,
    book: &B,
    asked: &Asked,
) -> Result<(), AllocError> {
    if let Ok(Made::Claim(call)) = asked.answer {
        page.key("task")?;
        page.quoted_text(&asked.task)?;
        page.key("claim")?;
        page.number(u64::from(call.claim))?;
        page.key("attempt")?;
        page.number(u64::from(call.attempt))?;
        page.key("key")?;
        page.quoted_text(&key_of(alloc, book, call.leaf)?)?;
    }
    if asked.taken.is_empty() {
        return Ok(());
    }
    page.key("taken_back")?;
    page.words("[")?;
    for (index, taken) in asked.taken.iter().enumerate() {
        page.between(index, ",")?;
        page.quoted_text(&label_of(alloc, book, taken.leaf)?)?;
    }
    page.words("]")
}

/// Adds the entries of the history from that place on, as `flowkeep` prints them.
pub(crate) fn push_entries<B: Book>(
    alloc: Global,
    page: &mut Writer,
    book: &B,
    from: usize,
) -> Result<(), AllocError> {
    page.words("[")?;
    let history = book.core().history();
    for (index, entry) in history.iter().skip(from).enumerate() {
        page.between(index, ",")?;
        let line = print_history(alloc, &[*entry])?;
        page.quoted_text(trimmed(&line))?;
    }
    page.words("]")
}

/// The line without its line feed.
fn trimmed(line: &[u8]) -> &[u8] {
    match line.split_last() {
        Some((b'\n', rest)) => rest,
        _ => line,
    }
}
