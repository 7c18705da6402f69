ghost use Rattle.std.specs.Prelude.{◌≡◌, ◌≤◌, length};
ghost use Rattle.flow_record.specs.Cut.{is_divider, cut_of};

use crate::lines::{cut_at, is_word};

/// Cuts a source at its first line `%%`: where the first part ends, and where the second begins.
/// Without such a line the first part is the whole source.
pub fn cut(source: &[u8]) -> (usize, usize)
    ensures parts { result ≡ cut_of source.now }
    ensures within { (result.0 ≤ length source.now) × (result.1 ≤ length source.now) }
{
    let mut place = 0;
    let mut rest = source;
    while let Some((line, more)) = cut_at(rest, b'\n') {
        let next = place + line.len() + 1;
        if is_divider(line) {
            return (place, next);
        }
        place = next;
        rest = more;
    }
    if is_divider(rest) {
        (place, source.len())
    } else {
        (source.len(), source.len())
    }
}

/// Whether the line is `%%`, with or without a carriage return.
fn is_divider(line: &[u8]) -> bool
    ensures { result ≡ is_divider line.now }
{
    is_word(line, b"%%") || is_word(line, b"%%\r")
}
