ghost use Rattle.std.specs.Prelude.{◌≡◌, ◌≤◌, ◌<◌, ◌^◌, ◌==◌, ℕ, length, IfOk, IfErr, IfSome, IsTrue, Some, None, MatchOption, codes, ◌+◌};
ghost use Rattle.std.specs.List.{position};
ghost use Rattle.std.specs.Str.{bytes_eq};
ghost use Rattle.flow_record.specs.Lines.{cut_at, pieces_of};
ghost use Rattle.flow_record.specs.History.{history_of, history};
ghost use Rattle.flow_desk.specs.Report.{begins_line, has_line, HasNoLine, IsLastLine, IsLineEnd, line_and_rest, IsBlock, head_line, TellsHistory};
ghost use Rattle.flow_desk.specs.Untold.{IsBadBlock, HasBadBlock};

use crate::place::feeds;
use flow_model::Entry;
use flow_record::{RecordRefusal, print_pieces, read_history};
use itoa::Buffer;
use std::alloc::{AllocError, Global};

/// The part of a report that tells a history.
#[derive(Clone, Copy)]
pub(crate) struct Block<'a> {
    /// The line of the first entry, from 0.
    pub(crate) line: usize,
    /// The line above it.
    pub(crate) head: &'a [u8],
    pub(crate) entries: &'a [u8],
}

/// Whether a line begins at the place.
fn begins_line(text: &[u8], place: usize) -> bool
    requires { place ≤ length text.now }
    ensures { result ≡ begins_line text.now place }
{
    place == 0 || text[place - 1] == b'\n'
}

/// Whether a line that begins with the word begins at the place.
fn has_line(text: &[u8], word: &[u8], place: usize) -> bool
    requires { place ≤ length text.now }
    ensures { result ≡ has_line text.now word.now place }
{
    begins_line(text, place) && text[place..].starts_with(word)
}

/// Where the last line that begins with the word begins.
fn last_line(text: &[u8], word: &[u8]) -> Option<usize>
    ensures { MatchOption result (HasNoLine text.now word.now) (IsLastLine text.now word.now) }
{
    let mut place = text.len();
    while place > 0 {
        place -= 1;
        if has_line(text, word, place) {
            return Some(place);
        }
    }
    None
}

/// Where the first line that begins with the word begins, or the text ends.
fn line_end(text: &[u8], word: &[u8]) -> usize
    ensures end { IsLineEnd text.now word.now result }
    ensures within { result ≤ length text.now }
{
    for place in 0..text.len() {
        if has_line(text, word, place) {
            return place;
        }
    }
    text.len()
}

/// The place of the first line feed.
fn feed_place(text: &[u8]) -> Option<usize>
    ensures { result ≡ position (λ byte. byte == 10) text.now }
{
    text.iter().position(|byte| *byte == b'\n')
}

/// The first line, and what follows its line feed, if it has one.
pub(crate) fn cut_line(text: &[u8]) -> Option<(&[u8], &[u8])>
    ensures cut { MatchOption result (cut_at 10 text.entry.now ≡ None) (λ parts. cut_at 10 text.entry.now ≡ Some (parts.0.now, parts.1.now)) }
    ensures shorter { IfSome result (λ parts. length parts.1.now < length text.entry.now) }
{
    match feed_place(text) {
        Some(end) => Some((&text[..end], &text[end + 1..])),
        None => None,
    }
}

/// The first line, and what follows it.
fn line_and_rest(text: &[u8]) -> (&[u8], &[u8])
    ensures parts { (result.0.now, result.1.now) ≡ line_and_rest text.entry.now (cut_at 10 text.entry.now) }
    ensures within { length result.1.now ≤ length text.entry.now }
{
    match cut_line(text) {
        Some(parts) => parts,
        None => (text, &[]),
    }
}

/// The last part of a report that tells a history.
fn last_block(text: &[u8]) -> Option<Block<'_>>
    ensures block { MatchOption result (HasNoLine text.entry.now (codes "history ")) (λ block. IsBlock text.entry.now block.line block.head.now block.entries.now) }
    ensures short { IfSome result (λ block. (length block.entries.now ≤ length text.entry.now) × (1 ≤ block.line) × (block.line ≤ length text.entry.now + 1)) }
{
    let place = last_line(text, b"history ")?;
    let (head, rest) = line_and_rest(&text[place..]);
    let end = line_end(rest, b"journal ");
    Some(Block {
        line: feeds(&text[..place]) + 1,
        head,
        entries: &rest[..end],
    })
}

/// Why the file of a run tells no history. Lines are counted from 0.
#[derive(Clone, Copy)]
pub(crate) enum Untold {
    /// The first line that is not as it must be.
    Line(usize),
    /// All lines of a journal are as they must be: the first whose label is not that of its leaf.
    Label(usize),
    NoMemory,
}

impl From<AllocError> for Untold {
    ghost use Rattle.flow_desk.specs.declared.report.Untold.TheVariants.{NoMemory};

    ghost from_gives = { λ _ e. e ≡ NoMemory };

    fn from(_error: AllocError) -> Untold {
        Untold::NoMemory
    }
}

/// Whether the line is the one above so many entries.
fn is_head(alloc: Global, line: &[u8], count: usize) -> Result<bool, AllocError>
    ensures { IfOk result (λ is. is ≡ bytes_eq line.now (head_line count)) }
{
    let mut digits = Buffer::new();
    let head = print_pieces(alloc, &[b"history ", digits.format(count).as_bytes()])?;
    Ok(is_word(line, &head))
}

/// Whether the word is that other one.
fn is_word(word: &[u8], other: &[u8]) -> bool
    ensures { result ≡ bytes_eq word.now other.now }
{
    word == other
}

/// Reads the entries of a part of a report.
fn read_block(alloc: Global, block: Block<'_>) -> Result<Vec<Entry>, Untold>
    requires pieces { length (pieces_of 10 block.entries.now) ≤ 2 ^ 32 }
    requires begun { 1 ≤ block.line }
    requires below { block.line < 2 ^ 32 }
    ensures ok { IfOk result (λ entries. (history_of block.entry.entries.now ≡ history entries.items) × IsTrue (bytes_eq block.entry.head.now (head_line (length entries.items)))) }
    ensures bad { IfErr result (IsBadBlock block.entry.line block.entry.head.now block.entry.entries.now) }
{
    let entries = match read_history(alloc, block.entries) {
        Ok(entries) => entries,
        Err(RecordRefusal::BadLine { line }) => return Err(Untold::Line(
            block.line + line as usize,
        )),
        Err(RecordRefusal::Label { .. } | RecordRefusal::NoMemory) => return Err(Untold::NoMemory),
    };
    if is_head(alloc, block.head, entries.len())? {
        Ok(entries)
    } else {
        Err(Untold::Line(block.line - 1))
    }
}

/// The history that the last part of a report tells, and the line of its first entry; none where no part tells one.
pub(crate) fn read_report(alloc: Global, text: &[u8]) -> Result<Option<(usize, Vec<Entry>)>, Untold>
    requires { length text.now < 2 ^ 31 }
    ensures ok { IfOk result (λ found. MatchOption found (HasNoLine text.now (codes "history ")) (λ told. TellsHistory text.now told.0 told.1.items)) }
    ensures bad { IfErr result (HasBadBlock text.now) }
{
    let Some(block) = last_block(text) else {
        return Ok(None);
    };
    let entries = read_block(alloc, block)?;
    Ok(Some((block.line, entries)))
}
