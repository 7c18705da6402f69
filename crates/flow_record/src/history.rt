ghost use Rattle.std.specs.Prelude.{◌≡◌, ◌++◌, ℕ, ◌≤◌, ◌^◌, length, IfOk, OnOk};
ghost use Rattle.std.specs.Result.{IsErrOf};
ghost use Rattle.std.specs.String.{string_bytes};
ghost use Rattle.flow_record.specs.Lines.{cut_at, pieces_of};
ghost use Rattle.flow_record.specs.History.{IsSmall, entry_line, effect_of, took_of, failed_of, numbered_step, lone_step, step_with, step_of, caller_of, entry_of, history_text, history_of, history, bad_line};

use crate::lines::{cut_at, is_word};
use crate::number::plain_number;
use crate::refusal::RecordRefusal;
use flow_model::{Entry, FailEffect, Step};
use std::alloc::{AllocError, Global};

/// Prints the lines of a history.
pub fn print_history(alloc: Global, entries: &[Entry]) -> Result<Vec<u8>, AllocError>
    ensures text { IfOk result (λ text. text.items ≡ history_text entries.now) }
    // what is printed is read back
    ensures read_back { IfOk result (λ text. history_of text.items ≡ history entries.now) }
{
    let mut text = String::new(alloc);
    for entry in entries {
        push_entry(&mut text, entry)?;
    }
    Ok(text.into_bytes())
}

/// Adds the line of an entry to a text.
fn push_entry(text: &mut String, entry: &Entry) -> Result<(), AllocError>
    ensures text { OnOk result (string_bytes text.new ≡ string_bytes text.old ++ entry_line entry.now) }
    ensures small { IsSmall entry.now }
{
    let by = entry.by;
    match entry.step {
        Step::Took { claim, leaf } => writeln!(text, "{by}: took {claim} {leaf}"),
        Step::Done { claim } => writeln!(text, "{by}: done {claim}"),
        Step::Failed {
            claim,
            effect: FailEffect::Switched,
        } => writeln!(text, "{by}: failed {claim} switched"),
        Step::Failed {
            claim,
            effect: FailEffect::Kept,
        } => writeln!(text, "{by}: failed {claim} kept"),
        Step::Late { claim } => writeln!(text, "{by}: late {claim}"),
        Step::Did { leaf } => writeln!(text, "{by}: did {leaf}"),
        Step::Rewound { index } => writeln!(text, "{by}: rewound {index}"),
        Step::Committed => writeln!(text, "{by}: committed"),
    }
}

/// Reads the entries of a history: just the texts that are printed, each with one spelling.
pub fn read_history(alloc: Global, text: &[u8]) -> Result<Vec<Entry>, RecordRefusal>
    requires { length (pieces_of 10 text.now) ≤ 2 ^ 32 }
    ensures ok { IfOk result (λ read. history_of text.now ≡ history read.items) }
    ensures printed { IfOk result (λ read. text.now ≡ history_text read.items) }
    ensures bad { (line : ℕ) → IsErrOf result (RecordRefusal.BadLine line) → history_of text.now ≡ bad_line line }
    ensures no_label { (line : ℕ) → ¬ (IsErrOf result (RecordRefusal.Label line)) }
{
    let mut read = Vec::new(alloc);
    let mut rest = text;
    let mut number = 0;
    while !rest.is_empty() {
        let Some((line, more)) = cut_at(rest, b'\n') else {
            return Err(RecordRefusal::BadLine { line: number });
        };
        match read_entry(line) {
            Some(entry) => read.push(entry)?,
            None => return Err(RecordRefusal::BadLine { line: number }),
        }
        rest = more;
        number += 1;
    }
    Ok(read)
}

/// The entry of a line, if it is one.
fn read_entry(line: &[u8]) -> Option<Entry>
    ensures { result ≡ entry_of line.now }
{
    match cut_at(line, b' ') {
        Some((caller, words)) => Some(Entry {
            by: read_caller(caller)?,
            step: read_step(words)?,
        }),
        None => None,
    }
}

/// The number of a caller, before a colon and nothing else.
fn read_caller(text: &[u8]) -> Option<u32>
    ensures { result ≡ caller_of text.now }
{
    match cut_at(text, b':') {
        Some((digits, [])) => plain_number(digits),
        _ => None,
    }
}

/// The step that the words say, if they say one.
fn read_step(words: &[u8]) -> Option<Step>
    ensures { result ≡ step_of words.now }
{
    match cut_at(words, b' ') {
        Some((word, rest)) => step_with(word, rest),
        None => lone_step(words),
    }
}

/// The step of one word alone.
fn lone_step(word: &[u8]) -> Option<Step>
    ensures { result ≡ lone_step word.now }
{
    if is_word(word, b"committed") {
        Some(Step::Committed)
    } else {
        None
    }
}

/// The step of a word, and what follows it after a space.
fn step_with(word: &[u8], rest: &[u8]) -> Option<Step>
    ensures { result ≡ step_with word.now rest.now }
{
    if is_word(word, b"took") {
        return read_took(rest);
    }
    if is_word(word, b"failed") {
        return read_failed(rest);
    }
    numbered_step(word, plain_number(rest)?)
}

/// A claim and a leaf.
fn read_took(text: &[u8]) -> Option<Step>
    ensures { result ≡ took_of (cut_at 32 text.now) }
{
    match cut_at(text, b' ') {
        Some((claim, leaf)) => Some(Step::Took {
            claim: plain_number(claim)?,
            leaf: plain_number(leaf)?,
        }),
        None => None,
    }
}

/// A claim and what its failure did.
fn read_failed(text: &[u8]) -> Option<Step>
    ensures { result ≡ failed_of (cut_at 32 text.now) }
{
    match cut_at(text, b' ') {
        Some((claim, effect)) => Some(Step::Failed {
            claim: plain_number(claim)?,
            effect: read_effect(effect)?,
        }),
        None => None,
    }
}

/// What a word says of a failure.
fn read_effect(word: &[u8]) -> Option<FailEffect>
    ensures { result ≡ effect_of word.now }
{
    if is_word(word, b"switched") {
        Some(FailEffect::Switched)
    } else if is_word(word, b"kept") {
        Some(FailEffect::Kept)
    } else {
        None
    }
}

/// The step of a word and one number.
fn numbered_step(word: &[u8], number: u32) -> Option<Step>
    ensures { result ≡ numbered_step word.now number }
{
    if is_word(word, b"done") {
        Some(Step::Done { claim: number })
    } else if is_word(word, b"late") {
        Some(Step::Late { claim: number })
    } else if is_word(word, b"did") {
        Some(Step::Did { leaf: number })
    } else if is_word(word, b"rewound") {
        Some(Step::Rewound { index: number })
    } else {
        None
    }
}
