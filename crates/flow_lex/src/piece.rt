ghost use Rattle.std.specs.Prelude.{◌≡◌, ◌+◌, ◌<◌, length, drop, IfSome, slice_index};
ghost use Rattle.flow_lex.specs.Tokens;
ghost use Rattle.flow_lex.specs.Tokens.{piece_at, number_piece};

use crate::bytes::{
    is_digit, is_letter, is_mark, is_space, line_length, number_length, word_length,
};
use crate::digits::number;
use crate::token::TokenKind;

/// What begins at a place of the text: a token or a gap, and how many bytes it takes behind its
/// first.
#[derive(Clone, Copy)]
pub(crate) struct Piece {
    pub(crate) kind: Option<TokenKind>,
    pub(crate) more: usize,
}

/// What follows the first byte and so many behind it.
pub(crate) fn behind(text: &[u8], more: usize) -> &[u8]
    requires { more < length text.now }
    ensures { result.now ≡ drop (more + 1) text.now }
{
    &text[more + 1..]
}

/// White space or a comment.
fn gap(more: usize) -> Piece
    ensures { result ≡ Tokens.gap more }
{
    Piece { kind: None, more }
}

fn token(kind: TokenKind, more: usize) -> Piece
    ensures { result ≡ Tokens.token kind more }
{
    Piece {
        kind: Some(kind),
        more,
    }
}

/// The number at the front of the text. `None` where it is too great.
fn number_at(text: &[u8]) -> Option<Piece>
    requires { 0 < length text.now }
    ensures value { result ≡ number_piece (slice_index text.now 0) (drop 1 text.now) }
    ensures inside { IfSome result (λ p. p.more < length text.now) }
{
    let more = number_length(behind(text, 0));
    number(&text[..more + 1])?;
    Some(token(TokenKind::Number, more))
}

/// What begins at the front of the text. `None` where nothing can.
pub(crate) fn piece_at(text: &[u8]) -> Option<Piece>
    requires { 0 < length text.now }
    ensures value { result ≡ piece_at (slice_index text.now 0) (drop 1 text.now) }
    ensures inside { IfSome result (λ p. p.more < length text.now) }
{
    let first = text[0];
    let rest = behind(text, 0);
    if is_space(first) {
        Some(gap(0))
    } else if first == b'#' {
        Some(gap(line_length(rest)))
    } else if is_letter(first) {
        Some(token(TokenKind::Word, word_length(rest)))
    } else if is_digit(first) {
        number_at(text)
    } else if is_mark(first) {
        Some(token(TokenKind::Mark, 0))
    } else {
        None
    }
}
