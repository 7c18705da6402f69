ghost use Rattle.std.specs.Prelude.{◌≡◌, ◌<◌, ◌≤◌, ◌-◌, ◌^◌, min, Bool, length};
ghost use Rattle.flow_reader.specs.Symbols;
ghost use Rattle.flow_reader.specs.Symbols.{meant};
ghost use Rattle.flow_lex.specs.Bytes.{number_value};
ghost use Rattle.flow_grammar.specs.Symbol.{a_number};
ghost use Rattle.flow_lex.specs.Tokens.{IsSmall};

use crate::reserved_words::{mark_symbol, word_symbol};
use crate::symbol::Symbol;
use flow_lex::{Token, TokenKind, number};

/// A token of the text as its symbol.
pub fn symbol_of(text: &[u8], token: Token) -> Symbol<'_>
    requires rising { token.start < token.end }
    requires within { token.end ≤ length text.now }
    requires small { IsSmall text.now token }
    ensures { meant result ≡ Symbols.symbol_of text.now token }
{
    let bytes = &text[token.start..token.end];
    match token.kind {
        TokenKind::Word => word_symbol(bytes),
        TokenKind::Number => number_symbol(bytes),
        TokenKind::Mark => mark_symbol(text[token.start]),
    }
}

/// Digits as their symbol.
fn number_symbol(digits: &[u8]) -> Symbol<'static>
    requires { number_value digits.now < 2 ^ 32 }
    ensures { meant result ≡ a_number (number_value digits.now) }
{
    match number(digits) {
        Some(number) => Symbol::Number(number),
        None => unreachable!(),
    }
}
