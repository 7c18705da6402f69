ghost use Rattle.std.specs.Prelude.{◌≡◌, length, count_by};
ghost use Rattle.flow_conformance.specs.Judged.{standing_of, stands, same_standing};
ghost use Rattle.flow_conformance.specs.Sums.{AreSums};

use crate::cause::Finding;
use crate::findings::Findings;
use crate::judge::Verdict;
use flow_event_log::EventLog;

/// How many there are of all, and how many cases of each verdict.
#[derive(Clone, Copy, PartialEq, Eq, Debug)]
pub struct Sums {
    pub cases: u64,
    pub events: u64,
    pub sequences: u64,
    pub execution: u64,
    pub front: u64,
    pub deviates: u64,
    pub unknown: u64,
    pub undecided: u64,
}

/// Whether a sequence has that standing.
fn stands_so(findings: &[Finding], wanted: Standing, sequence: u32) -> bool
    ensures { result ≡ stands findings.now wanted sequence }
{
    match findings.get(sequence as usize) {
        Some(finding) => Standing::of(finding.verdict).is(wanted),
        None => false,
    }
}

/// How many of the cases have that standing.
fn count_of(of_cases: &[u32], findings: &[Finding], wanted: Standing) -> u64
    ensures { result ≡ count_by (stands findings.now wanted) of_cases.now }
{
    of_cases
        .iter()
        .filter(|sequence| stands_so(findings, wanted, **sequence))
        .count() as u64
}

/// A verdict without its place.
#[derive(Clone, Copy, PartialEq, Eq, Debug)]
pub enum Standing {
    Execution,
    Front,
    Deviates,
    Unknown,
    Undecided,
}

impl Standing {
    /// The standing of a verdict.
    pub fn of(verdict: Verdict) -> Standing
        ensures { result ≡ standing_of verdict }
    {
        match verdict {
            Verdict::Execution => Standing::Execution,
            Verdict::Front => Standing::Front,
            Verdict::Deviates { .. } => Standing::Deviates,
            Verdict::Unknown { .. } => Standing::Unknown,
            Verdict::Undecided => Standing::Undecided,
        }
    }

    /// Whether it is the other one.
    fn is(self, other: Standing) -> bool
        ensures { result ≡ same_standing self other }
    {
        match (self, other) {
            (Standing::Execution, Standing::Execution)
            | (Standing::Front, Standing::Front)
            | (Standing::Deviates, Standing::Deviates)
            | (Standing::Unknown, Standing::Unknown)
            | (Standing::Undecided, Standing::Undecided) => true,
            _ => false,
        }
    }
}

/// The sums of a log.
pub fn sums_of(log: &EventLog, found: &Findings) -> Sums
    ensures { AreSums found.now result }
{
    let of_cases = found.cases.of_cases.as_slice();
    let findings = found.of_sequences.as_slice();
    Sums {
        cases: of_cases.len() as u64,
        events: log.len() as u64,
        sequences: findings.len() as u64,
        execution: count_of(of_cases, findings, Standing::Execution),
        front: count_of(of_cases, findings, Standing::Front),
        deviates: count_of(of_cases, findings, Standing::Deviates),
        unknown: count_of(of_cases, findings, Standing::Unknown),
        undecided: count_of(of_cases, findings, Standing::Undecided),
    }
}
