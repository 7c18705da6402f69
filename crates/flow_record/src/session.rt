ghost use Rattle.std.specs.Prelude.{◌≡◌, ℕ, IfOk};
ghost use Rattle.std.specs.Result.{IsErrOf};
ghost use Rattle.flow_record.specs.Words.{words_of};
ghost use Rattle.flow_record.specs.Session.{bare_command, numbered_command, line_of, session_by, session_of, commands, bad_line};

use crate::command::Command;
use crate::line::{Line, Sentence};
use crate::lines::{is_word, split_line};
use crate::number::read_number;
use crate::refusal::RecordRefusal;
use crate::words::split_word;
use flow_ask::{Ask, Look};
use flow_model::MOST_LINES;
use std::alloc::{AllocError, Global};

/// Reads the commands of a session.
pub fn read_session(alloc: Global, text: &[u8]) -> Result<Vec<Command>, RecordRefusal>
    ensures ok { IfOk result (λ read. session_of text.now ≡ commands read.items) }
    ensures bad { (line : ℕ) → IsErrOf result (RecordRefusal.BadLine line) → session_of text.now ≡ bad_line line }
    ensures no_label { (line : ℕ) → ¬ (IsErrOf result (RecordRefusal.Label line)) }
{
    read_lines(alloc, text)
}

/// Reads what the lines of a text say, by the rules of a session: a line without words says nothing, and the least bad line is told.
pub fn read_lines<C: Sentence>(alloc: Global, text: &[u8]) -> Result<Vec<C>, RecordRefusal>
    ensures ok { IfOk result (λ read. session_by C.said text.now ≡ commands read.items) }
    ensures bad { (line : ℕ) → IsErrOf result (RecordRefusal.BadLine line) → session_by C.said text.now ≡ bad_line line }
    ensures no_label { (line : ℕ) → ¬ (IsErrOf result (RecordRefusal.Label line)) }
{
    let mut read = Vec::new(alloc);
    let mut rest = text;
    let mut number = 0;
    while !rest.is_empty() {
        if number >= MOST_LINES {
            return Err(RecordRefusal::BadLine { line: number });
        }
        let (line, more) = split_line(rest);
        match C::read(alloc, line)? {
            Line::Blank => {}
            Line::Holds(command) => read.push(command)?,
            Line::Bad => return Err(RecordRefusal::BadLine { line: number }),
        }
        rest = more;
        number += 1;
    }
    Ok(read)
}

impl Sentence for Command {
    ghost said = { line_of };

    fn read(_alloc: Global, line: &[u8]) -> Result<Line<Command>, AllocError> {
        Ok(read_line(line))
    }
}

/// What a line is by its words.
fn read_line(line: &[u8]) -> Line<Command>
    ensures { result ≡ line_of (words_of line.now) }
{
    let (first, rest) = split_word(line);
    let (second, rest) = split_word(rest);
    let (third, _) = split_word(rest);
    let command = if first.is_empty() {
        return Line::Blank;
    } else if second.is_empty() {
        bare_command(first)
    } else if third.is_empty() {
        numbered_command(first, second)
    } else {
        None
    };
    match command {
        Some(command) => Line::Holds(command),
        None => Line::Bad,
    }
}

/// The command of one word alone.
fn bare_command(word: &[u8]) -> Option<Command>
    ensures { result ≡ bare_command word.now }
{
    if is_word(word, b"rewind") {
        Some(Command::Ask(Ask::Rewind))
    } else if is_word(word, b"commit") {
        Some(Command::Ask(Ask::Commit))
    } else if is_word(word, b"next") {
        Some(Command::Look(Look::Next))
    } else if is_word(word, b"enabled") {
        Some(Command::Look(Look::Enabled))
    } else if is_word(word, b"journal") {
        Some(Command::Look(Look::Journal))
    } else if is_word(word, b"facts") {
        Some(Command::Look(Look::Facts))
    } else {
        None
    }
}

/// The command of a word and the number that follows it.
fn numbered_command(word: &[u8], number: &[u8]) -> Option<Command>
    ensures { result ≡ numbered_command word.now number.now }
{
    let number = read_number(number)?;
    if is_word(word, b"take") {
        Some(Command::Ask(Ask::Take(number)))
    } else if is_word(word, b"do") {
        Some(Command::Ask(Ask::Do(number)))
    } else if is_word(word, b"done") {
        Some(Command::Ask(Ask::Done(number)))
    } else if is_word(word, b"fail") {
        Some(Command::Ask(Ask::Fail(number)))
    } else {
        None
    }
}
