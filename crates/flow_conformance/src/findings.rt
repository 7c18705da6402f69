ghost use Rattle.std.specs.Prelude.{◌≡◌, option_map, IfOk};
ghost use Rattle.flow_conformance.specs.Deviating.{deviating_event, event_in, events_of, finding_of, found_place, place_in};

use crate::cause::Finding;
use crate::judge::Verdict;
use crate::lines::lines_of;
use flow_event_log::{Cases, EventLog};
use std::alloc::{AllocError, Global};

/// What is found of a log: of each case its sequence, what is found of that, and the line where it deviates.
#[derive(Drop)]
pub struct Findings {
    /// The cases, by the numbers of their sequences.
    pub cases: Cases,
    /// What is found of each sequence.
    pub of_sequences: Vec<Finding>,
    /// The line where each case deviates; 0 where it does not.
    pub lines: Vec<u32>,
}

/// The place at which a sequence deviates.
pub(crate) fn place_of(finding: &Finding) -> Option<u32>
    ensures { result ≡ place_in finding.now.verdict }
{
    match finding.verdict {
        Verdict::Execution | Verdict::Front | Verdict::Undecided => None,
        Verdict::Deviates { at } => Some(at),
        Verdict::Unknown { at } => Some(at),
    }
}

/// The place at which a case deviates of which that is found.
fn found_place(finding: Option<Finding>) -> Option<u32>
    ensures { result ≡ found_place finding }
{
    match finding {
        Some(finding) => place_of(&finding),
        None => None,
    }
}

/// The event at a place, if there are events and a place.
fn event_in(place: Option<u32>, events: Option<&Vec<u32>>) -> Option<u32>
    ensures { result ≡ event_in place (option_map (λ events. events.now) events.entry) }
{
    match place {
        Some(place) => match events {
            Some(events) => events.get(place as usize).copied(),
            None => None,
        },
        None => None,
    }
}

impl Findings {
    /// What is found of a log whose cases have these sequences, with these findings.
    pub fn new(
        alloc: Global,
        log: &EventLog,
        cases: Cases,
        of_sequences: Vec<Finding>,
    ) -> Result<Findings, AllocError>
        ensures cases { IfOk result (λ found. found.cases ≡ cases) }
        ensures findings { IfOk result (λ found. found.of_sequences ≡ of_sequences) }
    {
        let lines = lines_of(alloc, log, &cases, &of_sequences)?;
        Ok(Findings {
            cases,
            of_sequences,
            lines,
        })
    }

    /// What is found of a case, by its number.
    pub fn of_case(&self, case: usize) -> Option<Finding>
        ensures { result ≡ finding_of self.now case }
    {
        match self.cases.of_cases.get(case) {
            Some(sequence) => self.of_sequences.get(*sequence as usize).copied(),
            None => None,
        }
    }

    /// The event at which a case deviates.
    pub fn event_of(&self, case: usize) -> Option<u32>
        ensures { result ≡ deviating_event self.now case }
    {
        event_in(found_place(self.of_case(case)), self.events_of(case))
    }

    /// The events of a case.
    fn events_of(&self, case: usize) -> Option<&Vec<u32>>
        ensures { option_map (λ events. events.now) result ≡ events_of self.now case }
    {
        match self.cases.of_cases.get(case) {
            Some(sequence) => self.cases.sequences.get(*sequence as usize),
            None => None,
        }
    }
}
