ghost use Rattle.std.specs.Prelude.{◌≡◌, ◌≢◌, ◌≤◌, length, take, drop};
ghost use Rattle.std.specs.List.{prefix_len};
ghost use Rattle.flow_model.specs.Lists.{Each};
ghost use Rattle.flow_lex.specs.Bytes.{is_in_line};
ghost use Rattle.flow_fault.specs.Lines.{feeds, EndsLine};
ghost use Rattle.flow_fault.specs.Spot.{IsSpot};

/// A place in a text, as a person finds it. Line and column are counted from 1.
#[derive(Clone, Copy)]
pub struct Spot<'a> {
    pub line: usize,
    pub column: usize,
    /// The line itself, without its line feed.
    pub text: &'a [u8],
}

/// The spot of a byte of the text, or of its end.
pub fn spot_of(text: &[u8], place: usize) -> Spot<'_>
    requires { place ≤ length text.now }
    ensures { IsSpot text.entry.now place result }
{
    let start = line_start(&text[..place]);
    let rest = &text[start..];
    let length = line_length(rest);
    Spot {
        line: feeds(&text[..start]) + 1,
        column: place - start + 1,
        text: &rest[..length],
    }
}

/// Where the line begins in which the text ends.
fn line_start(text: &[u8]) -> usize
    ensures within { result ≤ length text.now }
    ensures begins { EndsLine (take result text.now) }
    ensures no_feed { Each (λ b. b ≢ 10) (drop result text.now) }
{
    let mut start = text.len();
    while start > 0 {
        if text[start - 1] == b'\n' {
            return start;
        }
        start -= 1;
    }
    0
}

/// How many bytes the first line has, without its line feed.
fn line_length(text: &[u8]) -> usize
    ensures length { result ≡ prefix_len is_in_line text.now }
    ensures within { result ≤ length text.now }
{
    text.iter().take_while(|byte| **byte != b'\n').count()
}

/// How many line feeds the text has.
fn feeds(text: &[u8]) -> usize
    ensures count { result ≡ feeds text.now }
    ensures within { result ≤ length text.now }
{
    text.iter().filter(|byte| **byte == b'\n').count()
}
