//! A constraint in the words with which the text says it.

use flow_lex::{Token, TokenKind, lex};
use flow_reader::{Symbol, symbol_of};
use std::alloc::{AllocError, Global};

/// The word or mark that a token is; none of a number.
fn symbol_at(text: &[u8], token: Token) -> Option<Symbol<'_>> {
    if token.start >= token.end || token.end > text.len() {
        return None;
    }
    match token.kind {
        TokenKind::Word | TokenKind::Mark => Some(symbol_of(text, token)),
        TokenKind::Number => None,
    }
}

/// The tokens behind the word `constraint` that has that number, from 0.
fn behind_word<'a>(text: &[u8], tokens: &'a [Token], number: u32) -> &'a [Token] {
    let mut left = number;
    for (place, token) in tokens.iter().enumerate() {
        if let Some(Symbol::Constraint) = symbol_at(text, *token) {
            if left == 0 {
                return tokens.get(place.saturating_add(1)..).unwrap_or(&[]);
            }
            left -= 1;
        }
    }
    &[]
}

/// Adds a token behind what is written, with a blank between two words.
fn push_token(words: &mut Vec<u8>, token: &[u8]) -> Result<(), AllocError> {
    let is_joined = match words.last() {
        Some(last) => *last == b'(' || token == b")".as_slice(),
        None => true,
    };
    if !is_joined {
        words.push(b' ')?;
    }
    words.extend_from_slice(token)
}

/// The words of the constraint with that number, from 0, with a blank between two. A text that has no such constraint gives none.
pub fn constraint_words(alloc: Global, text: &[u8], number: u32) -> Result<Vec<u8>, AllocError> {
    let mut words = Vec::new(alloc);
    let Ok(tokens) = lex(alloc, text) else {
        return Ok(words);
    };
    for token in behind_word(text, &tokens, number) {
        if let Some(Symbol::Semicolon) = symbol_at(text, *token) {
            return Ok(words);
        }
        if token.start <= token.end && token.end <= text.len() {
            push_token(&mut words, &text[token.start..token.end])?;
        }
    }
    Ok(words)
}
