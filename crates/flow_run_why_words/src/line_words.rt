//! What is wrong with a line of a session or a journal, in words.
ghost use Rattle.std.specs.Prelude.{OnOk};
ghost use Rattle.flow_model.specs.Lists.{Begins};

use crate::lines::{Line, front, line_refused, lines_of};
use flow_fault::is_near;
use flow_record::{RecordRefusal, split_word};
use flow_why_cli::push_hint;
use flow_writer::Writer;
use std::alloc::{AllocError, Global};

/// The words with which commands of a session begin.
const COMMANDS: &str =
    "commands are take LEAF, done CLAIM, fail CLAIM, do LEAF, rewind, commit, next, enabled, journal, facts, and with a policy as NAME; a number stands behind the first four, and nothing else on the line";

/// How a line of a journal is written.
const JOURNAL: &str =
    "a line of a journal is the number of a leaf, one blank and its label, as flow check lists them: 0 request";

/// Whether the line begins as one of a journal does.
fn begins_with_number(line: Line<'_>) -> bool {
    match line.text.first() {
        Some(byte) => byte.is_ascii_digit(),
        None => false,
    }
}

/// Whether the word is how a line of a report, a kept run or a history begins.
fn is_of_report(word: &[u8]) -> bool {
    let words: [&[u8]; 4] = [b"history", b"refused", b"claim", b"verdict"];
    words.iter().any(|known| *known == word)
}

/// Whether the word begins a command of a session, or is one that people try.
fn is_of_session(word: &[u8]) -> bool {
    let words: [&[u8]; 13] = [
        b"take", b"done", b"fail", b"do", b"rewind", b"commit", b"next", b"enabled", b"journal",
        b"facts", b"as", b"undo", b"help",
    ];
    words.iter().any(|known| *known == word || (word.len() > 2 && is_near(known, word)))
}

/// Adds what the line is to be.
fn push_hints(writer: &mut Writer, line: Line<'_>) -> Result<(), AllocError>
    ensures { OnOk result (Begins writer.new.text.items writer.old.text.items) }
{
    let (first, _) = split_word(line.text);
    if begins_with_number(line) {
        return push_hint(writer, JOURNAL);
    }
    if is_of_report(first) {
        return push_hint(
            writer,
            "this is a line of a report: of a journal stand here the lines behind journal N",
        );
    }
    push_hint(writer, COMMANDS)?;
    if is_of_session(first) {
        Ok(())
    } else {
        push_hint(writer, JOURNAL)
    }
}

/// Adds the number of a line, and the line in quotes, so that blanks at its ends are seen.
fn push_quoted(writer: &mut Writer, line: Line<'_>) -> Result<(), AllocError> {
    writer.words("line ")?;
    writer.number(line.number as u64)?;
    writer.words(": ")?;
    writer.quoted(front(line.text))?;
    writer.words("\n")
}

/// Adds which line is not as it must be, and what a line is.
pub(crate) fn push_line_refusal(
    writer: &mut Writer,
    alloc: Global,
    text: &[u8],
    refusal: RecordRefusal,
) -> Result<(), AllocError> {
    let lines = lines_of(alloc, text)?;
    let Some(line) = line_refused(&lines, refusal) else {
        return push_hint(writer, "a session or a journal has at most 16384 lines");
    };
    push_quoted(writer, line)?;
    match refusal {
        RecordRefusal::Label { .. } => push_hint(
            writer,
            "the number of a leaf, one blank, and just its label stand on a line: flow check lists both",
        ),
        _ => push_hints(writer, line),
    }
}
