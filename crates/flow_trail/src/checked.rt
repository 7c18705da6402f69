//! Whether a trail is whole, and tells just the entries of a history.
ghost use Rattle.std.specs.Prelude.{◌≡◌, ◌+◌, ℕ, List, map, length, IfOk, OnOk};
ghost use Rattle.std.specs.Result.{IsErrOf};
ghost use Rattle.flow_trail.specs.Lines.{Said, end_of, trail_text, Says};
ghost use Rattle.flow_trail.specs.Read.{IsBadLine};
ghost use Rattle.flow_trail.specs.Due.{entered_of, Tells, IsOther, IsMissing, first_end};

use crate::compare::compare;
use crate::due::Due;
use crate::line::TrailEnd;
use crate::read::read_trail;
use crate::refusal::VerifyRefusal;
use crate::seal::first_seal;
use crate::trail::Trail;
use flow_disk::Disk;
use std::alloc::Global;

/// A trail that is whole.
#[derive(Clone, Copy)]
pub struct Verified {
    /// Where it ends: the last seal, and how many entries are told. Where it tells one more than there are, that one has not come.
    pub end: TrailEnd,
    /// How many bytes stand behind its lines. They mean nothing.
    pub behind: usize,
}

/// Whether each line is spelt as it is printed and has its seal, from the workflow and the policy on, and the lines tell just the entries that
/// are due, in order, or these and one that has not come, in the last line.
pub fn verify(
    alloc: Global,
    workflow: &[u8],
    policy: &[u8],
    trail: &[u8],
    due: &[Due],
) -> Result<Verified, VerifyRefusal>
    ensures whole { IfOk result (λ verified. (saying : List Said) × Says (first_end workflow.now policy.now) saying trail.now
        × Tells (first_end workflow.now policy.now) saying (map entered_of due.now)
        × (verified.end ≡ end_of (first_end workflow.now policy.now) saying)
        × (length (trail_text (first_end workflow.now policy.now) saying) + verified.behind ≡ length trail.now)) }
    ensures bad_line { (line : ℕ) → IsErrOf result (VerifyRefusal.BadLine line) → IsBadLine (first_end workflow.now policy.now) trail.now line }
    ensures other { (line : ℕ) → IsErrOf result (VerifyRefusal.Other line) → (saying : List Said)
        × Says (first_end workflow.now policy.now) saying trail.now × IsOther saying (map entered_of due.now) line }
    ensures missing { (entry : ℕ) → IsErrOf result (VerifyRefusal.Missing entry) → (saying : List Said)
        × Says (first_end workflow.now policy.now) saying trail.now × IsMissing saying (map entered_of due.now) entry }
{
    let start = TrailEnd::start(first_seal(workflow, policy));
    let read = match read_trail(alloc, start, trail) {
        Ok(read) => read,
        Err(refusal) => return Err(refusal.into()),
    };
    match compare(&read.lines, due) {
        Ok(()) => Ok(Verified {
            end: read.end,
            behind: trail.len() - read.place,
        }),
        Err(refusal) => Err(refusal),
    }
}

impl<D: Disk> Trail<D> {
    ghost use Rattle.flow_trail.specs.Held.{start_of, said_in};

    /// Whether the lines tell just the entries that are due, in order, or these and one that has not come, in the last line.
    pub fn check(&self, due: &[Due]) -> Result<(), VerifyRefusal>
        ensures whole { OnOk result (Tells (start_of self.now) (said_in self.now) (map entered_of due.now)) }
        ensures no_bad_line { (line : ℕ) → ¬ (IsErrOf result (VerifyRefusal.BadLine line)) }
        ensures no_memory { ¬ (IsErrOf result VerifyRefusal.NoMemory) }
        ensures other { (line : ℕ) → IsErrOf result (VerifyRefusal.Other line) → IsOther (said_in self.now) (map entered_of due.now) line }
        ensures missing { (entry : ℕ) → IsErrOf result (VerifyRefusal.Missing entry) → IsMissing (said_in self.now) (map entered_of due.now) entry }
    {
        compare(&self.lines, due)
    }
}
