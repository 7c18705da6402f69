//! A trail read from its bytes, in one pass.
ghost use Rattle.std.specs.Prelude.{◌≡◌, ◌↔◌, ◌++◌, ◌∷◌, ℕ, true, false, map, length, Some, MatchOption, IsTrue, IfOk};
ghost use Rattle.std.specs.Result.{IsErrOf};
ghost use Rattle.flow_record.proofs.LineLemmas.{lacks};
ghost use Rattle.flow_trail.specs.Whole.{is_open};
ghost use Rattle.flow_trail.specs.Lines.{said_of, trail_text, end_of, Says};
ghost use Rattle.flow_trail.specs.Read.{IsGuess, IsRead, IsBadLine};
ghost use Rattle.flow_record.specs.Lines.{pieces_of};

use crate::guess::guess;
use crate::line::{TrailEnd, TrailLine};
use crate::pieces::cut_at;
use crate::print::print_line;
use crate::refusal::ReadRefusal;
use std::alloc::{AllocError, Global};

/// The whole lines of a trail.
#[derive(Drop)]
pub struct ReadTrail {
    pub lines: Vec<TrailLine>,
    /// Where the trail ends behind them.
    pub end: TrailEnd,
    /// How many bytes the whole lines take. Those behind them mean nothing.
    pub place: usize,
}

/// Reads the whole lines of a trail: those in front of the first place where none begins.
pub fn read_trail(alloc: Global, start: TrailEnd, bytes: &[u8]) -> Result<ReadTrail, ReadRefusal>
    ensures says { IfOk result (λ read. Says start (map said_of read.lines.items) bytes.now) }
    ensures end { IfOk result (λ read. read.end ≡ end_of start (map said_of read.lines.items)) }
    ensures place { IfOk result (λ read. read.place ≡ length (trail_text start (map said_of read.lines.items))) }
    ensures bad { (line : ℕ) → IsErrOf result (ReadRefusal.BadLine line) → IsBadLine start bytes.now line }
{
    let mut lines = Vec::new(alloc);
    let mut end = start;
    let mut rest = bytes;
    while let Some((text, more)) = first_line(rest) {
        match read_line(alloc, end, text)? {
            Some((line, next)) => {
                lines.push(line)?;
                end = next;
                rest = more;
            }
            None => {
                return Err(ReadRefusal::BadLine {
                    line: lines.as_slice().len() + 1,
                });
            }
        }
    }
    Ok(ReadTrail {
        lines,
        end,
        place: bytes.len() - rest.len(),
    })
}

/// The line that begins there, without its newline, and what stands behind it.
fn first_line(bytes: &[u8]) -> Option<(&[u8], &[u8])>
    ensures { MatchOption result (is_open bytes.now ≡ false)
        (λ parts. (is_open bytes.now ≡ true) × (bytes.now ≡ parts.0.now ++ 10 ∷ parts.1.now) × (lacks 10 parts.0.now ≡ true)) }
{
    if bytes.is_empty() || bytes[0] != b'{' {
        return None;
    }
    cut_at(bytes, b'\n')
}

/// The line that a text is behind that end, and where the trail ends behind it; none where the text is no line there.
fn read_line(
    alloc: Global,
    end: TrailEnd,
    text: &[u8],
) -> Result<Option<(TrailLine, TrailEnd)>, AllocError>
    ensures { IfOk result (IsRead end text.now) }
{
    match guess(alloc, text)? {
        Some(line) => confirm(alloc, end, text, line),
        None => Ok(None),
    }
}

/// The line, if the text is this line behind that end.
fn confirm(
    alloc: Global,
    end: TrailEnd,
    text: &[u8],
    line: TrailLine,
) -> Result<Option<(TrailLine, TrailEnd)>, AllocError>
    requires { IsGuess (pieces_of 34 text.now) (Some line) }
    ensures { IfOk result (IsRead end text.now) }
{
    if !end.allows(&line) {
        return Ok(None);
    }
    let (printed, next) = print_line(alloc, &end, &line)?;
    if is_same(&printed, text) {
        return Ok(Some((line, next)));
    }
    Ok(None)
}

fn is_same(one: &[u8], other: &[u8]) -> bool
    ensures { IsTrue result ↔ (one.now ≡ other.now) }
{
    one == other
}
