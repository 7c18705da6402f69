//! The line of a case, from the bytes of its files.
ghost use Rattle.std.specs.Prelude.{◌≡◌, IfOk};
ghost use Rattle.flow_list.specs.Files.{IsLineOfFiles};

use crate::line::{CaseLine, case_line};
use flow_case_begin::CaseStop;
use flow_case_seen::{SeenCase, SharedTexts, seen_case};
use std::alloc::Global;

/// The line of a case of these texts, from the bytes of its entries and of its trail, whose seals are looked at too; or why the files are
/// no case's.
pub fn line_of_files(
    alloc: Global,
    texts: &SharedTexts,
    entries: Vec<u8>,
    trail: &[u8],
) -> Result<CaseLine, CaseStop>
    ensures { IfOk result (IsLineOfFiles texts.now entries.items trail.now) }
{
    let SeenCase { run, tellers } = seen_case(alloc, texts, entries, trail)?;
    let mut run = run;
    let line = case_line(alloc, &mut run, texts.count(), &tellers);
    drop(run);
    drop(tellers);
    Ok(line?)
}
