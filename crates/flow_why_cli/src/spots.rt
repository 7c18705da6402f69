//! A place in words: its line, with a mark under it, and what stands there.
ghost use Rattle.std.specs.Prelude.{◌≡◌, ◌++◌, OnOk, take, drop};
ghost use Rattle.flow_why_cli.specs.Words.{marked_text, met_text, place_text, spot_text, word_text};

use flow_fault::{Met, Spot};
use flow_writer::Writer;
use std::alloc::AllocError;

/// How many columns of a line are shown before a place.
const BEFORE: usize = 60;

/// How many columns of a line are shown in all.
const SHOWN: usize = 100;

/// The front of the bytes, so many at most.
fn front(bytes: &[u8], most: usize) -> &[u8]
    ensures { result.now ≡ take most bytes.now }
{
    &bytes[..most.min(bytes.len())]
}

/// What stands behind so many bytes.
fn behind(bytes: &[u8], count: usize) -> &[u8]
    ensures { result.now ≡ drop count bytes.now }
{
    &bytes[count.min(bytes.len())..]
}

/// Adds line and column of a spot.
pub(crate) fn push_spot(writer: &mut Writer, spot: Spot<'_>) -> Result<(), AllocError>
    ensures { OnOk result (writer.new.text.items ≡ writer.old.text.items ++ spot_text spot.entry) }
{
    writer.words("line ")?;
    writer.number(spot.line as u64)?;
    writer.words(", column ")?;
    writer.number(spot.column as u64)
}

/// Adds the line of a spot, with a mark under the place. Of a long line a part is shown.
pub(crate) fn push_marked(writer: &mut Writer, spot: Spot<'_>) -> Result<(), AllocError>
    ensures { OnOk result (writer.new.text.items ≡ writer.old.text.items ++ marked_text spot.entry) }
{
    let place = spot.column.saturating_sub(1);
    let skipped = place.saturating_sub(BEFORE);
    writer.words("    ")?;
    writer.shown(front(behind(spot.text, skipped), SHOWN))?;
    writer.words("\n    ")?;
    writer.blanks(place - skipped)?;
    writer.words("^\n")
}

/// Adds line and column of a spot in a text that stands so many lines behind others, and the line with a mark.
pub fn push_place(writer: &mut Writer, spot: Spot<'_>, before: usize) -> Result<(), AllocError>
    ensures { OnOk result (writer.new.text.items ≡ writer.old.text.items ++ place_text spot.entry before) }
{
    let line = spot.line.saturating_add(before);
    push_spot(writer, Spot { line, ..spot })?;
    writer.words(":\n")?;
    push_marked(writer, spot)
}

/// Adds what stands at a place.
pub fn push_met(writer: &mut Writer, met: Met<'_>) -> Result<(), AllocError>
    ensures { OnOk result (writer.new.text.items ≡ writer.old.text.items ++ met_text met.entry) }
{
    match met {
        Met::End => writer.words("the end of the text"),
        Met::Reserved(word) => push_word(writer, "the reserved word ", word),
        Met::Name(word) => push_word(writer, "the name ", word),
        Met::Number(digits) => push_word(writer, "the number ", digits),
        Met::Mark(byte) => push_word(writer, "the mark ", &[byte]),
        Met::Byte(byte) => {
            writer.words("the byte ")?;
            writer.number(u64::from(byte))
        }
    }
}

/// Adds what a word is and its first bytes.
fn push_word(writer: &mut Writer, what: &str, word: &[u8]) -> Result<(), AllocError>
    ensures { OnOk result (writer.new.text.items ≡ writer.old.text.items ++ word_text what.now word.now) }
{
    writer.words(what)?;
    writer.shown(front(word, SHOWN))
}
