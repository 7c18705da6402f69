ghost use Rattle.std.specs.Prelude.{◌≡◌, ◌≤◌, length, drop};
ghost use Rattle.std.specs.List.{prefix_len};
ghost use Rattle.flow_lex.specs.Bytes.{is_letter, is_digit, is_in_word, is_mark};
ghost use Rattle.flow_fault.specs.Met.{names, IsWord, IsMet};

use flow_lex::{Token, TokenKind};
use flow_reader::{Symbol, symbol_of};

/// What stands at a place of a text.
#[derive(Clone, Copy)]
pub enum Met<'a> {
    /// The text ends there.
    End,
    Reserved(&'a [u8]),
    /// A word that is not reserved.
    Name(&'a [u8]),
    Number(&'a [u8]),
    Mark(u8),
    /// A byte with which no word, number or mark begins.
    Byte(u8),
}

fn is_letter(byte: u8) -> bool
    ensures { result ≡ is_letter byte }
{
    (b'a' <= byte && byte <= b'z') || (b'A' <= byte && byte <= b'Z')
}

fn is_digit(byte: u8) -> bool
    ensures { result ≡ is_digit byte }
{
    b'0' <= byte && byte <= b'9'
}

fn is_in_word(byte: u8) -> bool
    ensures { result ≡ is_in_word byte }
{
    is_letter(byte) || is_digit(byte) || byte == b'_'
}

fn is_mark(byte: u8) -> bool
    ensures { result ≡ is_mark byte }
{
    byte == b'('
        || byte == b')'
        || byte == b','
        || byte == b';'
        || byte == b'*'
        || byte == b'|'
        || byte == b'+'
        || byte == b'='
        || byte == b'?'
        || byte == b'!'
}

/// How many bytes of a word begin the text.
fn word_length(text: &[u8]) -> usize
    ensures value { result ≡ prefix_len is_in_word text.now }
    ensures within { result ≤ length text.now }
{
    text.iter().take_while(|byte| is_in_word(**byte)).count()
}

/// How many digits begin the text.
fn digits_length(text: &[u8]) -> usize
    ensures value { result ≡ prefix_len is_digit text.now }
    ensures within { result ≤ length text.now }
{
    text.iter().take_while(|byte| is_digit(**byte)).count()
}

/// Whether the word is a name, and not a reserved word.
fn names(word: &[u8]) -> bool
    ensures { result ≡ names word.now }
{
    if word.is_empty() {
        return true;
    }
    let token = Token {
        kind: TokenKind::Word,
        start: 0,
        end: word.len(),
    };
    matches!(symbol_of(word, token), Symbol::Name(_))
}

/// The word, by whether it is reserved.
fn word_met(word: &[u8]) -> Met<'_>
    ensures { IsWord word.entry.now result }
{
    if names(word) {
        Met::Name(word)
    } else {
        Met::Reserved(word)
    }
}

/// What stands at a place of a text.
pub fn met_at(text: &[u8], place: usize) -> Met<'_>
    requires { place ≤ length text.now }
    ensures { IsMet (drop place text.entry.now) result }
{
    first_of(&text[place..])
}

/// What stands at the front of a text.
fn first_of(text: &[u8]) -> Met<'_>
    ensures { IsMet text.entry.now result }
{
    if text.is_empty() {
        return Met::End;
    }
    let byte = text[0];
    if is_letter(byte) {
        word_met(&text[..word_length(text)])
    } else if is_digit(byte) {
        Met::Number(&text[..digits_length(text)])
    } else if is_mark(byte) {
        Met::Mark(byte)
    } else {
        Met::Byte(byte)
    }
}
