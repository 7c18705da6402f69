//! The pieces of a text between its quotes.
ghost use Rattle.std.specs.Prelude.{◌≡◌, ◌==◌, ◌<◌, [], Some, None, map, length, get_or, MatchOption, IfOk};
ghost use Rattle.std.specs.List.{position};
ghost use Rattle.flow_record.specs.Lines.{cut_at, pieces_of};

use memchr::memchr;
use std::alloc::{AllocError, Global};

/// What stands before the first such byte of a text, and what after it.
pub(crate) fn cut_at(text: &[u8], byte: u8) -> Option<(&[u8], &[u8])>
    ensures { MatchOption result (cut_at byte text.now ≡ None)
        (λ parts. cut_at byte text.now ≡ Some (parts.0.now, parts.1.now)) }
{
    match place_of(text, byte) {
        Some(end) => Some((&text[..end], &text[end + 1..])),
        None => None,
    }
}

/// The place of the first such byte.
fn place_of(text: &[u8], byte: u8) -> Option<usize>
    ensures { result ≡ position (λ b. b == byte) text.now }
{
    memchr(byte, text)
}

/// The pieces between the quotes, one more than there are of these.
pub(crate) fn pieces_of(alloc: Global, text: &[u8]) -> Result<Vec<&[u8]>, AllocError>
    ensures { IfOk result (λ pieces. map (λ piece. piece.now) pieces.items ≡ pieces_of 34 text.now) }
{
    let mut pieces = Vec::new(alloc);
    let mut rest = text;
    while let Some((piece, more)) = cut_at(rest, b'"') {
        pieces.push(piece)?;
        rest = more;
    }
    pieces.push(rest)?;
    Ok(pieces)
}

/// The piece of that number, from 0.
pub(crate) fn piece_at<'a>(pieces: &[&'a [u8]], number: usize) -> &'a [u8]
    requires { number < length pieces.now }
    ensures { result.now ≡ get_or (map (λ piece. piece.now) pieces.now) number [] }
{
    pieces[number]
}
