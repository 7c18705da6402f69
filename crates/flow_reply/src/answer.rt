ghost use Rattle.std.specs.Prelude.{◌≡◌, ◌++◌, codes, IfOk};
ghost use Rattle.std.specs.String.{string_bytes};
ghost use Rattle.flow_core.specs.Run.{now};
ghost use Rattle.flow_reply.specs.Answer.{given_text, call_text, failed_text, late_text, made_text, refusal_text, answer_text};

use crate::words::{print_number, print_word, with_bytes};
use flow_ask::{Answer, Ask, Made, Refusal};
use flow_core::Core;
use flow_model::{Call, FailEffect};
use std::alloc::{AllocError, Global};

/// Prints the answer to an ask. The core is as the ask left it; events go by their names.
pub fn print_answer(
    alloc: Global,
    core: &Core,
    ask: Ask,
    answer: &Answer,
) -> Result<Vec<u8>, AllocError>
    ensures { IfOk result (λ text. text.items ≡ answer_text core.now ask answer.now) }
{
    match *answer {
        Ok(Made::Claim(call)) => print_call(alloc, core, &call),
        Ok(made) => Ok(print_made(alloc, ask.number(), made)?.into_bytes()),
        Err(refusal) => Ok(print_refusal(alloc, ask.number(), refusal)?.into_bytes()),
    }
}

/// Prints the line of the answer to an ask.
pub fn answer_line(
    alloc: Global,
    core: &Core,
    ask: Ask,
    answer: &Answer,
) -> Result<Vec<u8>, AllocError>
    ensures { IfOk result (λ line. line.items ≡ answer_text core.now ask answer.now ++ codes "\n") }
{
    with_bytes(print_answer(alloc, core, ask, answer)?, b"\n")
}

/// Prints a call that is given, and the name of its event.
fn print_call(alloc: Global, core: &Core, call: &Call) -> Result<Vec<u8>, AllocError>
    ensures { IfOk result (λ text. text.items ≡ call_text core.now call.now) }
{
    let given = print_given(alloc, core.epoch(), call)?;
    with_bytes(given.into_bytes(), core.workflow().event_name(call.event))
}

/// Prints a call that is given, up to its event's name.
fn print_given(alloc: Global, epoch: u32, call: &Call) -> Result<String, AllocError>
    ensures { IfOk result (λ text. string_bytes text ≡ given_text epoch call.now) }
{
    let claim = call.claim;
    let attempt = call.attempt;
    format!(in alloc; "claim {claim} epoch {epoch} attempt {attempt} ")
}

/// Prints what was made of an ask of that number, and is no claim.
fn print_made(alloc: Global, number: u32, made: Made) -> Result<String, AllocError>
    ensures { IfOk result (λ text. string_bytes text ≡ made_text number made) }
{
    match made {
        Made::Claim(_) => print_word(alloc, ""),
        Made::Did => print_number(alloc, "did ", number),
        Made::Done => print_number(alloc, "done ", number),
        Made::Failed(FailEffect::Switched) => format!(in alloc; "failed {number} switched"),
        Made::Failed(FailEffect::Kept) => format!(in alloc; "failed {number} kept"),
        Made::Rewound(index) => print_number(alloc, "rewound ", index),
        Made::Committed => print_word(alloc, "committed"),
    }
}

/// Prints why nothing came of an ask of that number.
fn print_refusal(alloc: Global, number: u32, refusal: Refusal) -> Result<String, AllocError>
    ensures { IfOk result (λ text. string_bytes text ≡ refusal_text number refusal) }
{
    match refusal {
        Refusal::Closed => print_word(alloc, "refused closed"),
        Refusal::NoLeaf => print_number(alloc, "refused leaf ", number),
        Refusal::WrongKind => print_number(alloc, "refused kind ", number),
        Refusal::NotEnabled => print_number(alloc, "refused not-enabled ", number),
        Refusal::TestFalse => print_number(alloc, "refused false ", number),
        Refusal::NoClaim => print_number(alloc, "refused claim ", number),
        Refusal::Answered => print_number(alloc, "refused answered ", number),
        Refusal::Late { of, now } => print_late(alloc, number, of, now),
        Refusal::NoChoice => print_word(alloc, "refused no-choice"),
        Refusal::Unfinished => print_word(alloc, "refused unfinished"),
        Refusal::ClaimsOut { claim } => print_number(alloc, "refused claims-out ", claim),
        Refusal::Spent { limit } => print_number(alloc, "refused spent ", limit),
        Refusal::Role => print_number(alloc, "refused role ", number),
        Refusal::Separate(index) => print_number(alloc, "refused separate ", index),
        Refusal::Bind(index) => print_number(alloc, "refused bind ", index),
        Refusal::Holder => print_number(alloc, "refused holder ", number),
        Refusal::Broken => print_word(alloc, "refused broken"),
        Refusal::Disk => print_word(alloc, "refused: disk"),
        Refusal::Final { leaf } => print_number(alloc, "refused final ", leaf),
        Refusal::Back => print_word(alloc, "refused back"),
        Refusal::Close => print_word(alloc, "refused close"),
    }
}

/// Prints that a result came too late.
fn print_late(alloc: Global, claim: u32, of: u32, now: u32) -> Result<String, AllocError>
    ensures { IfOk result (λ text. string_bytes text ≡ late_text claim of now) }
{
    format!(in alloc; "late {claim} {of} {now}")
}
