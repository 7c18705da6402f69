ghost use Rattle.std.specs.Prelude.{◌≡◌, ◌+◌, ◌*◌, ◌<◌, ◌≤◌, ◌++◌, length, IfOk, OnOk, [], ◌≢◌};
ghost use Rattle.flow_svg.specs.Lines.{blank_end, line_end, line_text, lines_text, wrapped};

use crate::element::{Words, push_words};
use flow_draw::below;
use std::alloc::AllocError;

/// The most bytes of a line.
pub(crate) const LINE: usize = 120;

/// The place behind the last blank among the first bytes of a text, so many. Where none of them is a blank, it is behind them all.
fn blank_end(text: &[u8], full: usize) -> usize
    requires within { full ≤ length text.now }
    requires some { 0 < full }
    ensures end { result ≡ blank_end text.now full full }
    ensures within { result ≤ full }
    ensures some { 0 < result }
{
    let mut end = full;
    'blank: while end > 0 {
        if text[end - 1] == b' ' {
            return end;
        }
        end -= 1;
    }
    full
}

/// Where the first line of a text ends.
fn line_end(text: &[u8]) -> usize
    requires { 0 < length text.now }
    ensures end { result ≡ line_end text.now }
    ensures within { result ≤ length text.now }
    ensures some { 0 < result }
{
    if text.len() <= LINE {
        text.len()
    } else {
        blank_end(text, LINE)
    }
}

/// Adds a line of words at a height.
#[tactic(auto, unfolding(crate::specs::Lines::line_text))]
fn push_line(text: &mut Vec<u8>, y: u64, words: &[u8]) -> Result<(), AllocError>
    ensures { OnOk result (text.new.items ≡ text.old.items ++ line_text y words.now) }
{
    push_words(
        text,
        &Words {
            class: b"note",
            x: 40,
            y,
            down: 0,
            words,
        },
    )?;
    text.extend_from_slice(b"\n")
}

/// Adds words in lines from a height on, and gives the height behind them.
pub(crate) fn push_lines(text: &mut Vec<u8>, top: u64, words: &[u8]) -> Result<u64, AllocError>
    ensures lines { OnOk result (text.new.items ≡ text.old.items ++ lines_text top (wrapped words.now)) }
    ensures bottom { IfOk result (λ y. y ≡ top + 20 * length (wrapped words.now)) }
{
    let mut rest = words;
    let mut y = top;
    'lines: while !rest.is_empty() {
        let (line, more) = rest.split_at(line_end(rest));
        push_line(text, y, line)?;
        y = below(y, 20)?;
        rest = more;
    }
    Ok(y)
}
