ghost use Rattle.std.specs.Prelude.{◌≡◌, ◌∷◌, ◌<◌, ◌==◌, length, Some, None, MatchOption};
ghost use Rattle.std.specs.List.{position};
ghost use Rattle.flow_record.specs.Lines.{without_returns, lines_of, stripped, cut_at};
ghost use Rattle.std.specs.Str.{bytes_eq};

use memchr::memchr;

/// The first line of a text that is not empty, and the text after its line feed.
pub(crate) fn split_line(text: &[u8]) -> (&[u8], &[u8])
    requires { 0 < length text.now }
    ensures lines { lines_of (without_returns text.now) ≡ result.0.now ∷ lines_of (without_returns result.1.now) }
    ensures shorter { length result.1.now < length text.now }
{
    match cut_at(text, b'\n') {
        Some((line, more)) => (without_return(line), more),
        None => (text, &[]),
    }
}

/// The place of the first such byte.
fn place_of(text: &[u8], byte: u8) -> Option<usize>
    ensures { result ≡ position (λ b. b == byte) text.now }
{
    memchr(byte, text)
}

/// A line without the carriage return at its end, if it has one.
fn without_return(line: &[u8]) -> &[u8]
    ensures { result.now ≡ stripped line.now }
{
    match line.split_last() {
        None => line,
        Some((last, front)) => if *last == b'\r' { front } else { line },
    }
}

/// What stands before the first such byte of a text, and what after it.
pub(crate) fn cut_at(text: &[u8], byte: u8) -> Option<(&[u8], &[u8])>
    ensures { MatchOption result (cut_at byte text.now ≡ None)
        (λ parts. cut_at byte text.now ≡ Some (parts.0.now, parts.1.now)) }
{
    match place_of(text, byte) {
        Some(end) => Some((&text[..end], &text[end + 1..])),
        None => None,
    }
}

/// Whether the word is that other one.
pub(crate) fn is_word(word: &[u8], other: &[u8]) -> bool
    ensures { result ≡ bytes_eq word.now other.now }
{
    word == other
}
