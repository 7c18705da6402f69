ghost use Rattle.std.specs.Prelude.{◌≡◌, ◌<◌, length, IfSome};
ghost use Rattle.std.specs.Option.{option_map};
ghost use Rattle.flow_lex.specs.Tokens.{bytes_of};
ghost use Rattle.flow_reader.specs.Symbols.{meant};
ghost use Rattle.flow_why_cli.specs.Rules.{symbol_at};

use flow_lex::{Token, TokenKind};
use flow_reader::{Symbol, symbol_of};

/// The word or mark that a token is; none of a number, and none where the token is not in the text.
pub fn symbol_at(text: &[u8], token: Token) -> Option<Symbol<'_>>
    ensures symbol { option_map meant result ≡ symbol_at text.now token }
    ensures within { IfSome result (λ symbol. token.start < length text.now) }
{
    if token.start >= token.end || token.end > text.len() {
        return None;
    }
    match token.kind {
        TokenKind::Word | TokenKind::Mark => Some(symbol_of(text, token)),
        TokenKind::Number => None,
    }
}

/// The bytes of a token, as far as the text goes.
pub(crate) fn bytes_of(text: &[u8], token: Token) -> &[u8]
    ensures { result.now ≡ bytes_of text.now token }
{
    match text.get(token.start..token.end.min(text.len())) {
        Some(bytes) => bytes,
        None => &[],
    }
}
