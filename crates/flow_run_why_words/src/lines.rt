//! The lines of a session, a journal, a policy or a query.
ghost use Rattle.std.specs.Prelude.{◌≡◌, ◌++◌, OnOk, map, slice_get, unwrap_or};
ghost use Rattle.std.specs.Option.{option_map};
ghost use Rattle.flow_run_why_words.specs.Lines.{is_blank, line_members, line_refused, lines_before, no_line, shape_of};
ghost use Rattle.flow_run_why_words.specs.Parts.{part_of};

use flow_record::RecordRefusal;
use flow_writer::Writer;
use std::alloc::{AllocError, Global};

/// How many bytes of a line are shown.
pub(crate) const MOST_SHOWN: usize = 100;

/// A line of a text.
#[derive(Clone, Copy)]
pub struct Line<'a> {
    /// Counted from 1.
    pub number: usize,
    /// Without its line feed, and without a carriage return before that.
    pub text: &'a [u8],
}

/// The text without a carriage return at its end.
fn without_return(text: &[u8]) -> &[u8] {
    match text {
        [front @ .., b'\r'] => front,
        _ => text,
    }
}

/// The text behind its first line, where that is `%%`: so a part stands behind a workflow.
pub fn without_divider(text: &[u8]) -> &[u8]
    ensures { result.now ≡ part_of text.now }
{
    match text.strip_prefix(b"%%\n") {
        Some(rest) => rest,
        None => match text.strip_prefix(b"%%\r\n") {
            Some(rest) => rest,
            None => text,
        },
    }
}

/// How many lines stand before the part that is read: one where the text begins with a line `%%`.
pub(crate) fn lines_before(text: &[u8]) -> usize
    ensures { result ≡ lines_before text.now }
{
    if without_divider(text).len() < text.len() {
        1
    } else {
        0
    }
}

/// The lines of a text, those without a byte too. A first line `%%` is counted, and left out.
pub(crate) fn lines_of(alloc: Global, text: &[u8]) -> Result<Vec<Line<'_>>, AllocError> {
    let part = without_divider(text);
    let mut number = lines_before(text);
    let mut lines = Vec::new(alloc);
    let mut start = 0;
    for (place, byte) in part.iter().enumerate() {
        if *byte == b'\n' && start <= place {
            number = number.saturating_add(1);
            let text = without_return(&part[start..place]);
            lines.push(Line { number, text })?;
            start = place + 1;
        }
    }
    if start < part.len() {
        number = number.saturating_add(1);
        let text = without_return(&part[start..]);
        lines.push(Line { number, text })?;
    }
    Ok(lines)
}

/// The lines of a text that say something.
pub fn lines_said(alloc: Global, text: &[u8]) -> Result<Vec<Line<'_>>, AllocError> {
    let mut said = Vec::new(alloc);
    for line in &lines_of(alloc, text)? {
        if !is_blank(line.text) {
            said.push(*line)?;
        }
    }
    Ok(said)
}

/// The line at that place. Where there is none, it has the number 0, and no bytes.
pub fn line_at<'a>(lines: &[Line<'a>], place: usize) -> Line<'a>
    ensures { shape_of result ≡ unwrap_or (option_map shape_of (slice_get lines.now place)) no_line }
{
    match lines.get(place) {
        Some(line) => *line,
        None => Line {
            number: 0,
            text: &[],
        },
    }
}

/// Whether the line has nothing but blanks and tabs.
fn is_blank(line: &[u8]) -> bool
    ensures { result ≡ is_blank line.now }
{
    line.iter().all(|byte| *byte == b' ' || *byte == b'\t')
}

/// Adds the number of a line, and the line.
pub(crate) fn push_line(writer: &mut Writer, line: Line<'_>) -> Result<(), AllocError> {
    writer.words("line ")?;
    writer.number(line.number as u64)?;
    writer.words(": ")?;
    writer.shown(front(line.text))?;
    writer.words("\n")
}

/// Adds a line as members of an object, if there is one.
pub(crate) fn push_line_members(
    writer: &mut Writer,
    line: Option<Line<'_>>,
) -> Result<(), AllocError>
    ensures { OnOk result (writer.new.text.items ≡ writer.old.text.items ++ line_members (option_map shape_of line.entry)) }
{
    match line {
        Some(line) => {
            writer.number_member("line", line.number as u64)?;
            writer.text_member("text", line.text)
        }
        None => Ok(()),
    }
}

/// The front of a line that is shown.
pub(crate) fn front(line: &[u8]) -> &[u8] {
    &line[..MOST_SHOWN.min(line.len())]
}

/// The line that is refused. Refusals count lines from 0, without a first line `%%`.
pub(crate) fn line_refused<'a>(lines: &[Line<'a>], refusal: RecordRefusal) -> Option<Line<'a>>
    ensures { option_map shape_of result ≡ line_refused (map shape_of lines.now) refusal }
{
    match refusal {
        RecordRefusal::BadLine { line } | RecordRefusal::Label { line } => match lines.get(
            line as usize,
        ) {
            Some(line) => Some(*line),
            None => None,
        },
        RecordRefusal::NoMemory => None,
    }
}
