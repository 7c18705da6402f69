ghost use Rattle.std.specs.Prelude.{◌≡◌, ◌≤◌, length, take};
ghost use Rattle.flow_desk.specs.Place.{feeds, line_of, IsColumn};

/// Where a byte stands in a text: its line and its column, both counted from 1.
#[derive(Clone, Copy)]
pub struct Position {
    pub line: usize,
    pub column: usize,
}

/// The line and the column of a byte. A place past the end is the end.
pub fn position_of(text: &[u8], place: usize) -> Position
    ensures line { result.line ≡ line_of text.now place }
    ensures column { IsColumn (take place text.now) result.column }
{
    let before = &text[..place.min(text.len())];
    Position {
        line: feeds(before) + 1,
        column: column_behind(before),
    }
}

/// How many line feeds the text has.
pub(crate) fn feeds(text: &[u8]) -> usize
    ensures count { result ≡ feeds text.now }
    ensures within { result ≤ length text.now }
{
    text.iter().filter(|byte| **byte == b'\n').count()
}

/// The column of what comes behind the text.
fn column_behind(text: &[u8]) -> usize
    ensures { IsColumn text.now result }
{
    let mut column = 1;
    for byte in text {
        if *byte == b'\n' {
            column = 1;
        } else {
            column += 1;
        }
    }
    column
}
