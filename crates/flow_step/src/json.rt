//! What comes of a step, as an object of JSON.
ghost use Rattle.std.specs.Prelude.{◌≡◌, IfOk};
ghost use Rattle.flow_step.specs.Json.{record_text, entry_text, refusal_word, made_object, refused_object, unread_object, illegal_object, step_text, step_code};

use crate::quote::{print_listed, print_quoted, without_end};
use crate::record::record_of;
use crate::stepped::Stepped;
use flow_ask::Refusal;
use flow_model::Entry;
use flow_record::print_pieces;
use itoa::Buffer;
use std::alloc::{AllocError, Global};

impl Stepped {
    /// Prints it as an object of JSON on one line, without a line feed.
    pub fn print(&self, alloc: Global) -> Result<Vec<u8>, AllocError>
        ensures { IfOk result (λ text. text.items ≡ step_text self.now) }
    {
        match self {
            Stepped::Made { entry, reply, next } => print_made(alloc, *entry, reply, next),
            Stepped::Refused {
                refusal,
                entry,
                reply,
            } => print_refused(alloc, *refusal, *entry, reply),
            Stepped::Unread(text) => print_unread(alloc, text),
            Stepped::Illegal(number) => print_illegal(alloc, *number),
        }
    }

    /// The status of a call that writes it: 0 made or shown, 1 refused, 3 a text or the line says nothing, 10 the history is not legal.
    pub fn code(&self) -> u8
        ensures { result ≡ step_code self.now }
    {
        match self {
            Stepped::Made { .. } => 0,
            Stepped::Refused { .. } => 1,
            Stepped::Unread(_) => 3,
            Stepped::Illegal(_) => 10,
        }
    }
}

/// Prints what was made, or shown.
fn print_made(
    alloc: Global,
    entry: Option<Entry>,
    reply: &[u8],
    next: &[u32],
) -> Result<Vec<u8>, AllocError>
    ensures { IfOk result (λ text. text.items ≡ made_object entry reply.now next.now) }
{
    let record = print_entry(alloc, entry)?;
    let reply = print_quoted(alloc, reply)?;
    let next = print_listed(alloc, next)?;
    print_pieces(
        alloc,
        &[
            b"{\"ok\":true,\"entries\":[",
            &record,
            b"],\"reply\":",
            &reply,
            b",\"next\":[",
            &next,
            b"]}",
        ],
    )
}

/// Prints why the run or a duty refuses a line.
fn print_refused(
    alloc: Global,
    refusal: Refusal,
    entry: Option<Entry>,
    reply: &[u8],
) -> Result<Vec<u8>, AllocError>
    ensures { IfOk result (λ text. text.items ≡ refused_object refusal entry reply.now) }
{
    let record = print_entry(alloc, entry)?;
    let reply = print_quoted(alloc, reply)?;
    print_pieces(
        alloc,
        &[
            b"{\"ok\":false,\"refused\":\"",
            word_of(refusal),
            b"\",\"reply\":",
            &reply,
            b",\"entries\":[",
            &record,
            b"]}",
        ],
    )
}

/// Prints that a text says nothing.
fn print_unread(alloc: Global, text: &[u8]) -> Result<Vec<u8>, AllocError>
    ensures { IfOk result (λ printed. printed.items ≡ unread_object text.now) }
{
    let reply = print_quoted(alloc, without_end(text))?;
    print_pieces(
        alloc,
        &[
            b"{\"ok\":false,\"refused\":\"input\",\"reply\":",
            &reply,
            b",\"entries\":[]}",
        ],
    )
}

/// Prints that the history is not legal.
fn print_illegal(alloc: Global, number: usize) -> Result<Vec<u8>, AllocError>
    ensures { IfOk result (λ text. text.items ≡ illegal_object number) }
{
    let mut digits = Buffer::new();
    let number = digits.format(number).as_bytes();
    print_pieces(
        alloc,
        &[
            b"{\"ok\":false,\"refused\":\"history\",\"reply\":\"refused: foreign ",
            number,
            b"\",\"record\":",
            number,
            b",\"entries\":[]}",
        ],
    )
}

/// Prints the record of an entry, where there is one.
fn print_entry(alloc: Global, entry: Option<Entry>) -> Result<Vec<u8>, AllocError>
    ensures { IfOk result (λ text. text.items ≡ entry_text entry) }
{
    match entry {
        None => Ok(Vec::new(alloc)),
        Some(entry) => print_record(alloc, &entry),
    }
}

fn print_record(alloc: Global, entry: &Entry) -> Result<Vec<u8>, AllocError>
    ensures { IfOk result (λ text. text.items ≡ record_text entry.now) }
{
    let digits = hex::encode(alloc, record_of(entry))?;
    print_pieces(alloc, &[b"\"", digits.as_bytes(), b"\""])
}

/// A refusal in a word.
fn word_of(refusal: Refusal) -> &'static [u8]
    ensures { result.now ≡ refusal_word refusal }
{
    match refusal {
        Refusal::Closed => b"closed",
        Refusal::NoLeaf => b"leaf",
        Refusal::WrongKind => b"kind",
        Refusal::NotEnabled => b"not-enabled",
        Refusal::TestFalse => b"false",
        Refusal::NoClaim => b"claim",
        Refusal::Answered => b"answered",
        Refusal::Late { .. } => b"late",
        Refusal::NoChoice => b"no-choice",
        Refusal::Unfinished => b"unfinished",
        Refusal::ClaimsOut { .. } => b"claims-out",
        Refusal::Spent { .. } => b"spent",
        Refusal::Role => b"role",
        Refusal::Separate(_) => b"separate",
        Refusal::Bind(_) => b"bind",
        Refusal::Holder => b"holder",
        Refusal::Broken => b"broken",
        Refusal::Disk => b"disk",
        Refusal::Final { .. } => b"final",
        Refusal::Back => b"back",
        Refusal::Close => b"close",
    }
}
