//! The entries that lines tell, beside those of a history.
ghost use Rattle.std.specs.Prelude.{◌≡◌, ◌↔◌, ◌∷◌, ◌<◌, ◌≤◌, ℕ, map, length, drop, IsTrue, OnOk};
ghost use Rattle.std.specs.Result.{IsErrOf};
ghost use Rattle.std.specs.String.{string_bytes};
ghost use Rattle.flow_trail.specs.declared.line.TrailEnd.{TrailEnd};
ghost use Rattle.flow_trail.specs.Lines.{said_of};
ghost use Rattle.flow_trail.specs.Due.{entered_of, begins_void, Tells, IsOther, IsMissing, IsTale};

use crate::due::{Due, Tale};
use crate::line::{Telling, TrailLine};
use crate::refusal::VerifyRefusal;

/// Whether the lines tell just the entries that are due, in order, or these and one more in the last line.
pub(crate) fn compare(lines: &[TrailLine], due: &[Due]) -> Result<(), VerifyRefusal>
    ensures ok { OnOk result ((e : TrailEnd) → Tells e (map said_of lines.now) (map entered_of due.now)) }
    ensures bad { (line : ℕ) → ¬ (IsErrOf result (VerifyRefusal.BadLine line)) }
    ensures no_memory { ¬ (IsErrOf result VerifyRefusal.NoMemory) }
    ensures other { (line : ℕ) → IsErrOf result (VerifyRefusal.Other line) → IsOther (map said_of lines.now) (map entered_of due.now) line }
    ensures missing { (entry : ℕ) → IsErrOf result (VerifyRefusal.Missing entry) → IsMissing (map said_of lines.now) (map entered_of due.now) entry }
{
    let mut count = 0;
    for index in 0..lines.len() {
        match tale(lines, index, due, count) {
            Tale::Nothing => {}
            Tale::Expected => count += 1,
            Tale::Next => return Ok(()),
            Tale::Other => return Err(VerifyRefusal::Other { line: index + 1 }),
        }
    }
    if count < due.len() {
        return Err(VerifyRefusal::Missing { entry: count + 1 });
    }
    Ok(())
}

/// What the line at a place tells, where so many entries are told before it.
fn tale(lines: &[TrailLine], index: usize, due: &[Due], count: usize) -> Tale
    requires place { index < length lines.now }
    requires few { count ≤ length due.now }
    ensures { IsTale (drop index (map said_of lines.now)) (drop count (map entered_of due.now)) result }
{
    match &lines[index] {
        TrailLine::Told(telling) => told_tale(telling, &lines[index + 1..], &due[count..]),
        TrailLine::Void { .. } => Tale::Nothing,
        TrailLine::Remark(_remark) => Tale::Nothing,
    }
}

/// What a line tells that tells an entry, in front of others, where these are due.
fn told_tale(telling: &Telling, behind: &[TrailLine], due: &[Due]) -> Tale
    ensures { IsTale (said_of (TrailLine.Told telling.now) ∷ map said_of behind.now) (map entered_of due.now) result }
{
    if is_voided(behind) {
        return Tale::Nothing;
    }
    if due.is_empty() {
        return if behind.is_empty() {
            Tale::Next
        } else {
            Tale::Other
        };
    }
    if is_told_by(&due[0], telling) {
        Tale::Expected
    } else {
        Tale::Other
    }
}

/// Whether the line in front of those has no entry.
fn is_voided(behind: &[TrailLine]) -> bool
    ensures { result ≡ begins_void (map said_of behind.now) }
{
    match behind {
        [TrailLine::Void { .. }, ..] => true,
        _ => false,
    }
}

fn is_told_by(due: &Due, telling: &Telling) -> bool
    ensures { IsTrue result ↔ (entered_of due.now ≡ record { by = string_bytes telling.now.by; entry = string_bytes telling.now.entry; task = string_bytes telling.now.task }) }
{
    is_text(&due.by, &telling.by)
        && is_text(&due.entry, &telling.entry)
        && is_text(&due.task, &telling.task)
}

fn is_text(one: &String, other: &String) -> bool
    ensures { IsTrue result ↔ (string_bytes one.now ≡ string_bytes other.now) }
{
    one.as_bytes() == other.as_bytes()
}
