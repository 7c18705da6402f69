use crate::cause::Finding;
use crate::findings::place_of;
use flow_event_log::{Cases, EventLog};
use std::alloc::{AllocError, Global};

/// The line of the event at which each case deviates, from 1; 0 where it does not.
pub(crate) fn lines_of(
    alloc: Global,
    log: &EventLog,
    cases: &Cases,
    findings: &[Finding],
) -> Result<Vec<u32>, AllocError> {
    let mut seen = Vec::from_elem(alloc, 0u32, cases.of_cases.len())?;
    let mut lines = Vec::from_elem(alloc, 0u32, cases.of_cases.len())?;
    for event in log.events() {
        let case = event.case as usize;
        let (Some(count), Some(sequence)) = (seen.get_mut(case), cases.of_cases.get(case)) else {
            continue;
        };
        let here = *count;
        *count = here.wrapping_add(1);
        let at = match findings.get(*sequence as usize) {
            Some(finding) => place_of(finding),
            None => None,
        };
        if at == Some(here) {
            if let Some(line) = lines.get_mut(case) {
                *line = event.line;
            }
        }
    }
    Ok(lines)
}
