//! Who made each entry of a case, and when, from the lines of its trail.
ghost use Rattle.std.specs.Prelude.{◌≡◌, ◌++◌, ◌∷◌, [], false, map, List, IfOk, OnOk};
ghost use Rattle.flow_trail.specs.Lines.{Said, said_of, Says};
ghost use Rattle.flow_trail.specs.Due.{begins_void};
ghost use Rattle.flow_case_seen.specs.Tellers.{tale_in, made_by, makers};

use flow_case_begin::CaseStop;
use flow_export::Teller;
use flow_trail::{OpenRefusal, Telling, TrailEnd, TrailLine, read_trail};
use std::alloc::{AllocError, Global};

/// Whether the line in front of those has no entry.
fn is_voided(behind: &[TrailLine]) -> bool
    ensures { result ≡ begins_void (map said_of behind.now) }
{
    match behind {
        [TrailLine::Void { .. }, ..] => true,
        _ => false,
    }
}

/// Who made the entry that a line tells.
fn teller_of(alloc: Global, telling: &Telling) -> Result<Teller, AllocError>
    ensures { IfOk result (λ teller. made_by (said_of (TrailLine.Told telling.now)) false [] ≡ tale_in teller ∷ []) }
{
    let at = String::from_str(alloc, telling.at.as_str())?;
    let by = String::from_str(alloc, telling.by.as_str())?;
    let note = String::from_str(alloc, telling.note.as_str())?;
    Ok(Teller { at, by, note })
}

/// Adds who made the entry that the line tells, if it tells one in front of those behind it.
fn add(
    alloc: Global,
    found: &mut Vec<Teller>,
    line: &TrailLine,
    behind: &[TrailLine],
) -> Result<(), AllocError>
    ensures { OnOk result (map tale_in found.new.items ≡ map tale_in found.old.items ++ made_by (said_of line.now) (begins_void (map said_of behind.now)) []) }
{
    if let TrailLine::Told(telling) = line {
        if !is_voided(behind) {
            found.push(teller_of(alloc, telling)?)?;
        }
    }
    Ok(())
}

/// Who made the entries that the lines tell, in order. A line in front of a void one tells none.
#[tactic(auto, using(crate::proofs::TellerLemmas::next_line, crate::proofs::TellerLemmas::no_line))]
fn tellers_of(alloc: Global, lines: &[TrailLine]) -> Result<Vec<Teller>, AllocError>
    ensures { IfOk result (λ found. map tale_in found.items ≡ makers (map said_of lines.now)) }
{
    let mut found = Vec::new(alloc);
    let mut rest = lines;
    while let Some((line, behind)) = rest.split_first() {
        add(alloc, &mut found, line, behind)?;
        rest = behind;
    }
    Ok(found)
}

/// Who made the entries that the bytes of a trail tell, in order. Its first line that is none is told.
pub(crate) fn tellers_in(
    alloc: Global,
    start: TrailEnd,
    trail: &[u8],
) -> Result<Vec<Teller>, CaseStop>
    ensures { IfOk result (λ found. (saying : List Said) × Says start saying trail.now × (map tale_in found.items ≡ makers saying)) }
{
    match read_trail(alloc, start, trail) {
        Ok(read) => Ok(tellers_of(alloc, &read.lines)?),
        Err(why) => Err(CaseStop::from(OpenRefusal::from(why))),
    }
}
