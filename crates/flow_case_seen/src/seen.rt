//! A case that is looked at, from the bytes of its files.
ghost use Rattle.std.specs.Prelude.{◌≡◌, ◌≤◌, List, IfOk, OnOk, map, length};
ghost use Rattle.flow_case.specs.CaseRun.{run_of};
ghost use Rattle.flow_case_seen.specs.Seen.{IsSeen};

use crate::kept::kept_case;
use crate::tellers::tellers_in;
use crate::texts::SharedTexts;
use flow_case::CaseRun;
use flow_case_begin::CaseStop;
use flow_export::Teller;
use flow_trail::OpenRefusal;
use std::alloc::Global;

/// A case that is looked at.
#[derive(Drop)]
pub struct SeenCase {
    pub run: CaseRun,
    /// Who made the entries of its history, in order. More may be told than there are entries.
    pub tellers: Vec<Teller>,
}

/// Whether so many are told as the case has entries. A case with more entries than are told is damaged.
fn check_told(run: &CaseRun, tellers: &[Teller]) -> Result<(), CaseStop>
    ensures { OnOk result (length (run_of run.now).history ≤ length tellers.now) }
{
    if tellers.len() < run.core().history().len() {
        let told = u32::try_from(tellers.len()).unwrap_or(u32::MAX);
        return Err(CaseStop::from(OpenRefusal::Count { told }));
    }
    Ok(())
}

/// The case of these texts, from the bytes of its entries and of its trail, whose seals are looked at too; or why the files are no case's.
pub fn seen_case(
    alloc: Global,
    texts: &SharedTexts,
    entries: Vec<u8>,
    trail: &[u8],
) -> Result<SeenCase, CaseStop>
    ensures { IfOk result (IsSeen texts.now entries.items trail.now) }
{
    let tellers = tellers_in(alloc, texts.start(), trail)?;
    let run = match kept_case(alloc, texts, entries) {
        Ok(run) => run,
        Err(stop) => {
            drop(tellers);
            return Err(stop);
        }
    };
    match check_told(&run, &tellers) {
        Ok(()) => Ok(SeenCase { run, tellers }),
        Err(stop) => {
            drop(run);
            drop(tellers);
            Err(stop)
        }
    }
}
