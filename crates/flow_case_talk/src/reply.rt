ghost use Rattle.std.specs.Prelude.{◌≡◌, ◌↔◌, IsTrue, IfOk, OnErr};
ghost use Rattle.flow_record.specs.Words.{words_of};
ghost use Rattle.flow_names.specs.Grammar.{said_by};
ghost use Rattle.flow_case_talk.specs.declared.reply.Outcome.TheVariants.{Shown, Refused};
ghost use Rattle.flow_case_talk.specs.Lines.{AreLines};
ghost use Rattle.flow_case_talk.specs.Means.{IsWant, CommandMeans, CommandBegins, LineMeans, LineBegins};
ghost use Rattle.flow_case_talk.specs.Plans.{PlanMeans, PlanBegins, IsUnreadWant};

use crate::asking::ask_all;
use crate::book::{Book, Speaker};
use crate::form::Form;
use crate::lines::whole_lines;
use crate::looks::{look_text, why_text};
use crate::plan::{Plan, plan_of};
use crate::refused::{refused_text, unmeant_words, unread_words};
use crate::ticks::{tick_off, ticked_text};
use flow_ask::Refusal;
use flow_case_words::{print_refusal, refusal_word};
use flow_names::{Command, CommandRefusal, NameRefusal, read_command};
use flow_standing::TakenBack;
use std::alloc::{AllocError, Global};

/// What came of a line.
#[derive(Clone, Copy, Debug, PartialEq, Eq)]
pub enum Outcome {
    /// Something was shown.
    Shown,
    /// What was asked is made, and kept.
    Made,
    Refused,
}

/// What a case replies to a line.
#[derive(Drop)]
pub struct Reply {
    /// Whole lines.
    pub text: Vec<u8>,
    pub outcome: Outcome,
}

/// Replies to a line. What it asks of the run is kept before the reply is given.
pub fn respond<B: Book>(
    alloc: Global,
    book: &mut B,
    speaker: Speaker<'_>,
    line: &[u8],
    form: Form,
) -> Result<Reply, AllocError>
    ensures lines { IfOk result (λ reply. AreLines reply.text.items) }
    ensures means { IfOk result (λ reply.
        LineMeans (B.tidied book.old) speaker.entry.number (B.kept_case book.old) (said_by (words_of line.now)) reply.outcome (B.kept_case book.new)) }
    // where memory is wanting
    ensures begins { OnErr result (LineBegins speaker.entry.number (B.kept_case book.old) (said_by (words_of line.now)) (B.kept_case book.new)) }
{
    let Reply { text, outcome } = reply_to(alloc, book, speaker, line, form)?;
    Ok(Reply {
        text: whole_lines(text)?,
        outcome,
    })
}

/// The reply to a line.
#[tactic(auto, using(crate::proofs::PlanLemmas::unread_by, crate::proofs::PlanLemmas::line_stays_by))]
fn reply_to<B: Book>(
    alloc: Global,
    book: &mut B,
    speaker: Speaker<'_>,
    line: &[u8],
    form: Form,
) -> Result<Reply, AllocError>
    ensures means { IfOk result (λ reply.
        LineMeans (B.tidied book.old) speaker.entry.number (B.kept_case book.old) (said_by (words_of line.now)) reply.outcome (B.kept_case book.new)) }
    ensures begins { OnErr result (LineBegins speaker.entry.number (B.kept_case book.old) (said_by (words_of line.now)) (B.kept_case book.new)) }
{
    match read_command(alloc, line) {
        Ok(command) => answer(alloc, book, speaker, &command, form),
        Err(refusal) => refuse_unread(alloc, line, refusal, form),
    }
}

/// The reply to a command.
#[tactic(auto, using(crate::proofs::PlanLemmas::answered_by, crate::proofs::PlanLemmas::begun_by, crate::proofs::PlanLemmas::unmeant_by, crate::proofs::PlanLemmas::stays_by))]
fn answer<B: Book>(
    alloc: Global,
    book: &mut B,
    speaker: Speaker<'_>,
    command: &Command,
    form: Form,
) -> Result<Reply, AllocError>
    ensures means { IfOk result (λ reply.
        CommandMeans (B.tidied book.old) speaker.entry.number (B.kept_case book.old) command.now reply.outcome (B.kept_case book.new)) }
    ensures begins { OnErr result (CommandBegins speaker.entry.number (B.kept_case book.old) command.now (B.kept_case book.new)) }
{
    match plan_of(alloc, book, speaker, command) {
        Ok(plan) => carry_out(alloc, book, speaker, command, &plan, form),
        Err(refusal) => refuse_unmeant(alloc, book, refusal, form),
    }
}

/// Does what is to be done for a command, and replies.
fn carry_out<B: Book>(
    alloc: Global,
    book: &mut B,
    speaker: Speaker<'_>,
    command: &Command,
    plan: &Plan,
    form: Form,
) -> Result<Reply, AllocError>
    ensures means { IfOk result (λ reply. PlanMeans speaker.entry.number (B.kept_case book.old) plan.now reply.outcome (B.kept_case book.new)) }
    ensures begins { OnErr result (PlanBegins speaker.entry.number (B.kept_case book.old) plan.now (B.kept_case book.new)) }
{
    match plan {
        Plan::Show => show(look_text(alloc, book, command, form)),
        Plan::Why(leaf) => show(why_text(alloc, book, *leaf, form)),
        Plan::Ask(asks) => ask_all(alloc, book, speaker, asks, false, form),
        Plan::AskAndTidy(asks) => ask_all(alloc, book, speaker, asks, true, form),
        Plan::Refuse(refusal) => refuse_for(alloc, speaker, *refusal, form),
        Plan::TickOff(Some(taken)) => tick(alloc, book, speaker, taken, form),
        Plan::TickOff(None) => {
            let words = b"refused: no step back took that, or it is undone already";
            refuse(alloc, form, "name", words)
        }
    }
}

/// The reply that shows the text.
fn show(text: Result<Vec<u8>, AllocError>) -> Result<Reply, AllocError>
    ensures { IfOk result (λ reply. reply.outcome ≡ Shown) }
{
    Ok(Reply {
        text: text?,
        outcome: Outcome::Shown,
    })
}

fn refuse(alloc: Global, form: Form, word: &str, words: &[u8]) -> Result<Reply, AllocError>
    ensures { IfOk result (λ reply. reply.outcome ≡ Refused) }
{
    Ok(Reply {
        text: refused_text(alloc, form, word, words)?,
        outcome: Outcome::Refused,
    })
}

/// Refuses, for this, what the run is not asked.
fn refuse_for(
    alloc: Global,
    speaker: Speaker<'_>,
    refusal: Refusal,
    form: Form,
) -> Result<Reply, AllocError>
    ensures { IfOk result (λ reply. reply.outcome ≡ Refused) }
{
    let words = print_refusal(alloc, speaker.name.as_bytes(), &[], refusal)?;
    refuse(alloc, form, refusal_word(refusal), &words)
}

/// Whether memory was wanting.
fn is_want(refusal: &NameRefusal) -> bool
    ensures { IsTrue result ↔ IsWant refusal.now }
{
    match refusal {
        NameRefusal::NoMemory => true,
        _ => false,
    }
}

/// Whether memory was wanting to read a line.
fn is_unread_want(refusal: CommandRefusal) -> bool
    ensures { IsTrue result ↔ IsUnreadWant refusal }
{
    match refusal {
        CommandRefusal::NoMemory => true,
        _ => false,
    }
}

/// Refuses a line that is no command.
fn refuse_unread(
    alloc: Global,
    line: &[u8],
    refusal: CommandRefusal,
    form: Form,
) -> Result<Reply, AllocError>
    ensures refused { IfOk result (λ reply. reply.outcome ≡ Refused) }
    ensures no_want { IfOk result (λ reply. ¬ (IsUnreadWant refusal)) }
{
    if is_unread_want(refusal) {
        return Err(AllocError);
    }
    let words = unread_words(alloc, line, refusal)?;
    refuse(alloc, form, "words", &words)
}

/// Refuses a command that means nothing now.
fn refuse_unmeant<B: Book>(
    alloc: Global,
    book: &B,
    refusal: NameRefusal,
    form: Form,
) -> Result<Reply, AllocError>
    ensures refused { IfOk result (λ reply. reply.outcome ≡ Refused) }
    ensures no_want { IfOk result (λ reply. ¬ (IsWant refusal)) }
{
    if is_want(&refusal) {
        return Err(AllocError);
    }
    let words = unmeant_words(alloc, book, refusal)?;
    refuse(alloc, form, "name", &words)
}

/// Ticks off what was taken back, and replies.
fn tick<B: Book>(
    alloc: Global,
    book: &mut B,
    speaker: Speaker<'_>,
    taken: &TakenBack,
    form: Form,
) -> Result<Reply, AllocError>
    ensures { (B.kept_case book.new).run ≡ (B.kept_case book.old).run }
{
    let (kept, words) = tick_off(alloc, book, speaker, taken)?;
    match kept {
        Err(refusal) => refuse(alloc, form, refusal_word(refusal), &words),
        Ok(()) => Ok(Reply {
            text: ticked_text(alloc, book, taken, &words, form)?,
            outcome: Outcome::Made,
        }),
    }
}
