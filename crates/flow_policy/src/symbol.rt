ghost use Rattle.std.specs.Prelude.{◌≡◌, ◌<◌, ◌≤◌, length};
ghost use Rattle.flow_lex.specs.Tokens.{IsSmall};
ghost use Rattle.flow_reader.specs.Symbols.{meant, symbol_of};
ghost use Rattle.flow_policy.specs.Names.{begins_reserved};

use flow_lex::{Token, TokenKind};
use flow_reader::{Symbol, symbol_of};

/// Whether a reserved word of workflow texts begins with the byte.
fn begins_reserved(byte: u8) -> bool
    ensures { result ≡ begins_reserved byte }
{
    byte == b'a' || (b'c' <= byte && byte <= b'i') || (b'm' <= byte && byte <= b'p') || byte == b'r'
}

/// The token as its symbol. Most names begin as no reserved word does, and are compared with none.
pub(crate) fn symbol_at(text: &[u8], token: Token) -> Symbol<'_>
    requires rising { token.start < token.end }
    requires within { token.end ≤ length text.now }
    requires small { IsSmall text.now token }
    ensures { meant result ≡ symbol_of text.now token }
{
    if let TokenKind::Word = token.kind {
        let word = &text[token.start..token.end];
        if !begins_reserved(word[0]) {
            return Symbol::Name(word);
        }
    }
    symbol_of(text, token)
}
