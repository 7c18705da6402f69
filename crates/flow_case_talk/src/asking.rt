//! What is asked for a command, one thing after another.
ghost use Rattle.std.specs.Prelude.{◌≡◌, true, IfOk, OnErr};
ghost use Rattle.flow_case_talk.specs.Means.{AskedInTurn, IsTidied, AskedThrough, AsksSome};
ghost use Rattle.flow_case_talk.specs.Plans.{came_last, made_last};

use crate::asked::{Asked, ask_one, asked_words};
use crate::book::{Book, Speaker};
use crate::form::Form;
use crate::made::{made_text, refused_ask_text};
use crate::plan::asks_of;
use crate::reply::{Outcome, Reply};
use flow_ask::Ask;
use flow_writer::Writer;
use std::alloc::{AllocError, Global};

/// Asks one thing after another, and what follows these, and replies.
#[tactic(auto, using(crate::proofs::MeansLemmas::told_through, crate::proofs::MeansLemmas::untold_through, crate::proofs::MeansLemmas::none_asked))]
pub(crate) fn ask_all<B: Book>(
    alloc: Global,
    book: &mut B,
    speaker: Speaker<'_>,
    asks: &[Ask],
    is_tidied: bool,
    form: Form,
) -> Result<Reply, AllocError>
    ensures means { IfOk result (λ reply. AskedThrough is_tidied speaker.entry.number (B.kept_case book.old) asks.now reply.outcome (B.kept_case book.new)) }
    ensures begins { OnErr result (AsksSome speaker.entry.number (B.kept_case book.old) (B.kept_case book.new)) }
{
    let from = book.core().history().len();
    let mut words = Writer::new(alloc);
    let last = ask_through(alloc, book, speaker, asks, is_tidied, &mut words)?;
    reply_to_last(alloc, book, &last, words, from, form)
}

/// The reply to what was asked, by what came of the last.
#[tactic(auto, using(crate::proofs::MeansLemmas::came_made, crate::proofs::MeansLemmas::came_refused))]
fn reply_to_last<B: Book>(
    alloc: Global,
    book: &mut B,
    last: &Option<Asked>,
    words: Writer,
    from: usize,
    form: Form,
) -> Result<Reply, AllocError>
    ensures case { B.kept_case book.new ≡ B.kept_case book.old }
    ensures outcome { IfOk result (λ reply. reply.outcome ≡ came_last last.now) }
{
    if is_made(last) {
        Ok(Reply {
            text: made_text(alloc, book, last, words, from, form)?,
            outcome: Outcome::Made,
        })
    } else {
        Ok(Reply {
            text: refused_ask_text(alloc, book, last, words, from, form)?,
            outcome: Outcome::Refused,
        })
    }
}

/// Whether the last that was asked is made, if anything was.
fn is_made(last: &Option<Asked>) -> bool
    ensures { result ≡ made_last last.now }
{
    match last {
        Some(asked) => asked.answer.is_ok(),
        None => true,
    }
}

/// Asks one thing after another; in a case that is tidied, updates follow what is done. It gives the last that was asked.
#[tactic(auto, using(crate::proofs::MeansLemmas::through, crate::proofs::MeansLemmas::refused_through, crate::proofs::MeansLemmas::tidied_through, crate::proofs::MeansLemmas::tidied_some))]
fn ask_through<B: Book>(
    alloc: Global,
    book: &mut B,
    speaker: Speaker<'_>,
    asks: &[Ask],
    is_tidied: bool,
    words: &mut Writer,
) -> Result<Option<Asked>, AllocError>
    ensures means { IfOk result (λ last. AskedThrough is_tidied speaker.entry.number (B.kept_case book.old) asks.now (came_last last) (B.kept_case book.new)) }
    ensures begins { OnErr result (AsksSome speaker.entry.number (B.kept_case book.old) (B.kept_case book.new)) }
{
    let last = ask_each(alloc, book, speaker, asks, words)?;
    if !is_tidied {
        return Ok(last);
    }
    if !is_made(&last) {
        return Ok(last);
    }
    tidy(alloc, book, speaker, last, words)
}

/// Asks for the updates that close off no choice. It gives the last of them, or the one before them.
#[tactic(auto, using(crate::proofs::MeansLemmas::updates_asked, crate::proofs::MeansLemmas::came_made, crate::proofs::MeansLemmas::none_asked, crate::proofs::MeansLemmas::some_stay))]
fn tidy<B: Book>(
    alloc: Global,
    book: &mut B,
    speaker: Speaker<'_>,
    before: Option<Asked>,
    words: &mut Writer,
) -> Result<Option<Asked>, AllocError>
    requires { made_last before ≡ true }
    ensures means { IfOk result (λ last. IsTidied speaker.entry.number (B.kept_case book.old) (came_last last) (B.kept_case book.new)) }
    ensures begins { OnErr result (AsksSome speaker.entry.number (B.kept_case book.old) (B.kept_case book.new)) }
{
    let steps = book.tidy_steps(alloc, speaker.number)?;
    let asks = asks_of(alloc, &steps)?;
    match ask_each(alloc, book, speaker, &asks, words)? {
        Some(last) => Ok(Some(last)),
        None => Ok(before),
    }
}

/// Asks one thing after another, up to the first that is refused. It gives the last that was asked.
#[tactic(auto, using(crate::proofs::MeansLemmas::next_made, crate::proofs::MeansLemmas::next_refused, crate::proofs::MeansLemmas::next_asked, crate::proofs::MeansLemmas::next_unnoted, crate::proofs::MeansLemmas::all_in_turn, crate::proofs::MeansLemmas::last_made))]
fn ask_each<B: Book>(
    alloc: Global,
    book: &mut B,
    speaker: Speaker<'_>,
    asks: &[Ask],
    words: &mut Writer,
) -> Result<Option<Asked>, AllocError>
    ensures means { IfOk result (λ last. AskedInTurn speaker.entry.number (B.kept_case book.old) asks.now (came_last last) (B.kept_case book.new)) }
    ensures begins { OnErr result (AsksSome speaker.entry.number (B.kept_case book.old) (B.kept_case book.new)) }
{
    let mut last = None;
    for ask in asks {
        let asked = ask_one(alloc, book, *ask, speaker)?;
        words.bytes(&asked_words(alloc, book, speaker, &asked)?)?;
        let is_refused = asked.answer.is_err();
        last = Some(asked);
        if is_refused {
            return Ok(last);
        }
    }
    Ok(last)
}
