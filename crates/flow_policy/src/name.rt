ghost use Rattle.std.specs.Prelude.{◌≡◌, ◌<◌, length, not, is_some};
ghost use Rattle.std.specs.List.{list_all};
ghost use Rattle.flow_lex.specs.Bytes.{is_letter, is_in_word};
ghost use Rattle.flow_reader.specs.Symbols.{reserved};
ghost use Rattle.flow_policy.specs.Names as names;

use flow_lex::{Token, TokenKind};
use flow_reader::{Symbol, symbol_of};

fn is_letter(byte: u8) -> bool
    ensures { result ≡ is_letter byte }
{
    (b'a' <= byte && byte <= b'z') || (b'A' <= byte && byte <= b'Z')
}

fn is_in_word(byte: u8) -> bool
    ensures { result ≡ is_in_word byte }
{
    is_letter(byte) || (b'0' <= byte && byte <= b'9') || byte == b'_'
}

/// Whether the word, which is not empty, is not reserved in workflow texts.
fn is_free(word: &[u8]) -> bool
    requires { 0 < length word.now }
    ensures { result ≡ not (is_some (reserved word.now)) }
{
    let token = Token {
        kind: TokenKind::Word,
        start: 0,
        end: word.len(),
    };
    matches!(symbol_of(word, token), Symbol::Name(_))
}

fn are_in_word(bytes: &[u8]) -> bool
    ensures { result ≡ list_all is_in_word bytes.now }
{
    bytes.iter().all(|byte| is_in_word(*byte))
}

/// Whether the word can be the name of a user: a letter, then letters, digits and `_`, and not reserved in workflow texts.
pub fn is_name(word: &[u8]) -> bool
    ensures { result ≡ names.is_name word.now }
{
    match word.split_first() {
        Some((first, more)) => is_letter(*first) && are_in_word(more) && is_free(word),
        None => false,
    }
}
