ghost use Rattle.std.specs.Prelude.{◌≡◌, ◌+◌, ◌<◌, ◌^◌, ◌++◌, length, OnOk, IfOk, IfErr, IfSome, IfNone, None};
ghost use Rattle.flow_model.specs.Lists.{Each};
ghost use Rattle.flow_lex.specs.Tokens;
ghost use Rattle.flow_lex.specs.Tokens.{lexed, IsAscii, AreSpans, IsSmall};
ghost use Rattle.flow_lex.specs.Refusals.{IsRefused};

use crate::piece::{Piece, behind, piece_at};
use crate::token::Token;
use flow_form::TextRefusal;
use std::alloc::{AllocError, Global};

/// Adds the token of a piece at that place, if it has one.
fn add(tokens: &mut Vec<Token>, place: usize, piece: Piece) -> Result<(), AllocError>
    requires { place + piece.more + 1 < 2 ^ 64 }
    ensures { OnOk result (tokens.new.items ≡ tokens.old.items ++ Tokens.token_of place piece) }
{
    if let Some(kind) = piece.kind {
        tokens.push(Token {
            kind,
            start: place,
            end: place + piece.more + 1,
        })?;
    }
    Ok(())
}

/// The place of the first byte over 127.
fn first_not_ascii(text: &[u8]) -> Option<usize>
    ensures none { IfNone result (IsAscii text.now) }
    ensures some { IfSome result (λ place. Tokens.IsFirstNotAscii text.now place) }
{
    text.iter().position(|byte| *byte > 127)
}

/// Cuts a text into its tokens.
pub fn lex(alloc: Global, text: &[u8]) -> Result<Vec<Token>, TextRefusal>
    ensures ascii { IfOk result (λ tokens. IsAscii text.now) }
    ensures tokens { IfOk result (λ tokens. lexed text.now ≡ record { tokens = tokens.items; bad = None }) }
    ensures spans { IfOk result (λ tokens. AreSpans 0 (length text.now) tokens.items) }
    ensures small { IfOk result (λ tokens. Each (IsSmall text.now) tokens.items) }
    ensures refused { IfErr result (λ refusal. IsRefused text.now refusal) }
{
    if let Some(place) = first_not_ascii(text) {
        return Err(TextRefusal::NotAscii { place });
    }
    let mut tokens = Vec::with_capacity(alloc, text.len())?;
    let mut place = 0;
    let mut rest = text;
    while !rest.is_empty() {
        let Some(piece) = piece_at(rest) else {
            return Err(TextRefusal::BadToken { place });
        };
        add(&mut tokens, place, piece)?;
        place += piece.more + 1;
        rest = behind(rest, piece.more);
    }
    Ok(tokens)
}
