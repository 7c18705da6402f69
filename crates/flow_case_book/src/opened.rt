//! A case opened from its two disks.
ghost use Rattle.std.specs.Prelude.{◌≡◌, ◌⊎◌, ◌-◌, ◌^◌, ◌<◌, ◌++◌, ◌∷◌, [], List, IfOk, IfErr, false, length};
ghost use Rattle.std.specs.Option.{option_map, unwrap_or};
ghost use Rattle.std.specs.String.{string_bytes};
ghost use Rattle.flow_model.specs.Lists.{AreDistinct};
ghost use Rattle.flow_form.specs.Script.{said};
ghost use Rattle.flow_form.specs.Names.{IsClosed, declared_names};
ghost use Rattle.flow_text.specs.Parser.{bytes_now};
ghost use Rattle.flow_expand.specs.Workflows.{IsExpanded};
ghost use Rattle.flow_case.specs.declared.case_run.CaseRun.{CaseRun as Run};
ghost use Rattle.flow_case.specs.CaseRun.{run_of, case_with};
ghost use Rattle.flow_keep.specs.Holding as kept;
ghost use Rattle.flow_keep.specs.Records.{Keeps};
ghost use Rattle.flow_trail.specs.Held as held;
ghost use Rattle.flow_trail.specs.Lines.{Said, void, end_of, Says};
ghost use Rattle.flow_trail.specs.Due.{first_end};
ghost use Rattle.flow_case_cli.specs.Held as cli;
ghost use Rattle.flow_case_begin.specs.declared.texts.TheConstants.{MOST_STEPS};
ghost use Rattle.flow_case_begin.specs.declared.stop.CaseStop.TheVariants.{NoMemory};
ghost use Rattle.flow_case_begin.specs.Begun.{IsBegunRun, IsCaseOf};
ghost use Rattle.flow_case_begin.specs.Stops.{IsNoCaseIn};
ghost use Rattle.flow_case_book.specs.Unopened.{IsUnkept, IsUntold, IsUnmade, IsNotTakenUp};
ghost use Rattle.flow_case_book.specs.Texts.{policy_in};
ghost use Rattle.flow_case_book.specs.Held.{case_of, said_in, is_broken};
ghost use Rattle.flow_case_book.specs.Held as book;

use crate::book::CaseBook;
use crate::names::Names;
use flow_case::{CaseRun, Users};
use flow_case_begin::{Begun, CaseStop, CaseTexts, MOST_STEPS, begin, prepared};
use flow_case_cli::{Case, Unresumed};
use flow_disk::Disk;
use flow_form::Script;
use flow_front::Prepared;
use flow_keep::{Keep, Unopened};
use flow_trail::{Trail, TrailEnd, TrailLine, UnopenedTrail, first_seal};
use std::alloc::{AllocError, Global};

/// The two files of a case.
#[derive(Drop)]
pub(crate) struct CaseFiles<D: Disk, T: Disk> {
    pub(crate) entries: D,
    pub(crate) trail: T,
    /// When a line is told whose entry did not come.
    pub(crate) at: String,
}

/// The run that the entries keep, of the script's workflow.
fn open_keep<D: Disk + Drop>(
    alloc: Global,
    script: &Script,
    entries: D,
) -> Result<Keep<D>, CaseStop>
    requires closed { IsClosed (said script.now) }
    requires faults { D.faults entries < 2 ^ 64 - 1 }
    ensures workflow { IfOk result (λ keep. IsExpanded (said script.now) (kept.run_of keep).definition) }
    ensures limit { IfOk result (λ keep. (kept.run_of keep).limit ≡ MOST_STEPS) }
    ensures whole { IfOk result (λ keep. kept.is_broken keep ≡ false) }
    ensures faults { IfOk result (λ keep. D.faults (kept.disk_of keep) ≡ D.faults entries) }
    ensures history { D.tells → IfOk result (λ keep. Keeps (kept.run_of keep).history (D.seen entries)) }
    ensures refused { D.tells → IfErr result (IsUnkept (said script.now) (D.seen entries)) }
{
    let Prepared { workflow, compiled } = match prepared(alloc, script) {
        Ok(prepared) => prepared,
        Err(stop) => {
            drop(entries);
            return Err(stop);
        }
    };
    match Keep::open(alloc, workflow, compiled, MOST_STEPS, entries) {
        Ok(keep) => Ok(keep),
        Err(Unopened { disk, why }) => {
            drop(disk);
            Err(CaseStop::from(why))
        }
    }
}

/// The trail of a case of so many entries.
fn open_trail<T: Disk + Drop>(
    alloc: Global,
    start: TrailEnd,
    count: u32,
    trail: T,
    at: String,
) -> Result<Trail<T>, CaseStop>
    requires { T.faults trail < 2 ^ 64 - 1 }
    ensures start { IfOk result (λ t. held.start_of t ≡ start) }
    ensures whole { IfOk result (λ t. held.is_broken t ≡ false) }
    ensures count { IfOk result (λ t. (end_of start (held.said_in t)).count ≡ count) }
    ensures faults { IfOk result (λ t. T.faults (held.disk_of t) ≡ T.faults trail) }
    ensures said { T.tells → IfOk result (λ t. (saying : List Said) × Says start saying (T.seen trail)
        × ((held.said_in t ≡ saying) ⊎ (held.said_in t ≡ saying ++ void (string_bytes at) ∷ []))) }
    ensures refused { T.tells → IfErr result (IsUntold start count (T.seen trail)) }
{
    match Trail::open(alloc, trail, start, count, at) {
        Ok(trail) => Ok(trail),
        Err(UnopenedTrail { disk, why }) => {
            drop(disk);
            Err(CaseStop::from(why))
        }
    }
}

/// The case that makes the entries which are kept; the run is given as it begins.
fn follow<D: Disk + Drop, T: Disk + Drop>(
    run: CaseRun,
    keep: Keep<D>,
    trail: Trail<T>,
) -> Result<Case<D, T>, CaseStop>
    requires begins { run_of run ≡ record (kept.run_of keep) { history = [] } }
    requires kept { kept.is_broken keep ≡ false }
    requires told { held.is_broken trail ≡ false }
    requires counted { (end_of (held.start_of trail) (held.said_in trail)).count ≡ length (kept.run_of keep).history }
    ensures case { IfOk result (λ c. cli.case_of c ≡ case_with run (kept.run_of keep).history) }
    ensures whole { IfOk result (λ c. cli.is_broken c ≡ false) }
    ensures keep { IfOk result (λ c. cli.keep_disk c ≡ kept.disk_of keep) }
    ensures trail { IfOk result (λ c. cli.trail_disk c ≡ held.disk_of trail) }
    ensures start { IfOk result (λ c. cli.start_of c ≡ held.start_of trail) }
    ensures said { IfOk result (λ c. cli.said_in c ≡ held.said_in trail) }
    ensures refused { IfErr result (IsUnmade run (kept.run_of keep).history) }
{
    match Case::resume(run, keep, trail) {
        Ok(case) => Ok(case),
        Err(Unresumed { keep, trail, index }) => {
            drop(keep);
            drop(trail);
            Err(CaseStop::Foreign(index))
        }
    }
}

/// The case that the files keep, of what the script says. Its run is given as it begins.
#[tactic(auto, using(crate::proofs::BookLemmas::not_told))]
fn take_up<D: Disk + Drop, T: Disk + Drop>(
    alloc: Global,
    script: &Script,
    run: CaseRun,
    start: TrailEnd,
    files: CaseFiles<D, T>,
) -> Result<Case<D, T>, CaseStop>
    requires closed { IsClosed (said script.now) }
    requires once { AreDistinct (declared_names (said script.now).decls) }
    requires begun { IsBegunRun (said script.now) (run_of run) }
    requires entry_faults { D.faults files.entries < 2 ^ 64 - 1 }
    requires line_faults { T.faults files.trail < 2 ^ 64 - 1 }
    ensures case { IfOk result (λ c. cli.case_of c ≡ case_with run (run_of (cli.case_of c)).history) }
    ensures whole { IfOk result (λ c. cli.is_broken c ≡ false) }
    ensures history { D.tells → IfOk result (λ c. Keeps (run_of (cli.case_of c)).history (D.seen files.entries)) }
    ensures start { IfOk result (λ c. cli.start_of c ≡ start) }
    ensures said { T.tells → IfOk result (λ c. (saying : List Said) × Says start saying (T.seen files.trail)
        × ((cli.said_in c ≡ saying) ⊎ (cli.said_in c ≡ saying ++ void (string_bytes files.at) ∷ []))) }
    ensures entry_faults { IfOk result (λ c. D.faults (cli.keep_disk c) ≡ D.faults files.entries) }
    ensures line_faults { IfOk result (λ c. T.faults (cli.trail_disk c) ≡ T.faults files.trail) }
    ensures refused { D.tells → T.tells → IfErr result (IsNotTakenUp (said script.now) run start (D.seen files.entries) (T.seen files.trail)) }
{
    let CaseFiles { entries, trail, at } = files;
    let keep = match open_keep(alloc, script, entries) {
        Ok(keep) => keep,
        Err(stop) => {
            drop(run);
            drop(trail);
            drop(at);
            return Err(stop);
        }
    };
    // it is no longer than its limit
    let _limit = keep.core().limit();
    let count = keep.core().history().len() as u32;
    match open_trail(alloc, start, count, trail, at) {
        Ok(trail) => follow(run, keep, trail),
        Err(stop) => {
            drop(run);
            drop(keep);
            Err(stop)
        }
    }
}

/// Where the trail of a case of these texts begins.
fn start_of(texts: CaseTexts<'_>) -> TrailEnd
    ensures { result ≡ first_end texts.entry.workflow.now (unwrap_or (option_map bytes_now texts.entry.policy) []) }
{
    match texts.policy {
        Some(policy) => TrailEnd::start(first_seal(texts.workflow, policy)),
        None => TrailEnd::start(first_seal(texts.workflow, &[])),
    }
}

/// The texts of a case that is kept.
#[derive(Drop)]
pub struct KeptTexts {
    /// Where the case is.
    pub path: String,
    pub workflow: Vec<u8>,
    /// None where the case has no duties.
    pub policy: Option<Vec<u8>>,
    /// Whether each `done` is followed by the updates that close off no choice.
    pub tidied: bool,
}

impl KeptTexts {
    ghost use Rattle.flow_case_book.specs.Texts.{policy_in};

    pub(crate) fn lent(&self) -> CaseTexts<'_>
        ensures workflow { result.workflow.now ≡ self.now.workflow.items }
        ensures policy { option_map bytes_now result.policy ≡ policy_in self.now }
    {
        CaseTexts {
            workflow: &self.workflow,
            policy: match &self.policy {
                Some(policy) => Some(policy.as_slice()),
                None => None,
            },
        }
    }
}

/// For each entry of a history, the line of a trail that tells it.
fn lines_of(alloc: Global, lines: &[TrailLine]) -> Result<Vec<usize>, AllocError> {
    let mut told = Vec::new(alloc);
    for (place, line) in lines.iter().enumerate() {
        match line {
            TrailLine::Told(_) => told.push(place)?,
            TrailLine::Void { .. } => {
                let _ = told.pop();
            }
            TrailLine::Remark(_) => {}
        }
    }
    Ok(told)
}

/// Who the users are, and which line tells each entry.
fn people<T: Disk>(
    alloc: Global,
    users: Option<&Users>,
    trail: &Trail<T>,
) -> Result<(Names, Vec<usize>), AllocError> {
    let names = Names::of(alloc, users, trail)?;
    match lines_of(alloc, trail.lines()) {
        Ok(lines) => Ok((names, lines)),
        Err(error) => {
            drop(names);
            Err(error)
        }
    }
}

/// The case with its texts, and the users by name.
fn with_people<D: Disk + Drop, T: Disk + Drop>(
    alloc: Global,
    texts: KeptTexts,
    case: Case<D, T>,
    users: Option<Users>,
) -> Result<CaseBook<D, T>, CaseStop>
    requires entry_faults { D.faults (cli.keep_disk case) < 2 ^ 64 - 1 }
    requires line_faults { T.faults (cli.trail_disk case) < 2 ^ 64 - 1 }
    requires of_texts { (begun : Run) → IsCaseOf texts.workflow.items (policy_in texts) begun → run_of begun ≡ record (run_of (cli.case_of case)) { history = [] } }
    ensures case { IfOk result (λ b. b.case ≡ case) }
    ensures refused { IfErr result (λ stop. stop ≡ NoMemory) }
{
    let found = people(alloc, users.as_ref(), case.trail());
    drop(users);
    match found {
        Ok((names, lines)) => Ok(CaseBook {
            alloc,
            texts,
            case,
            lines,
            names,
        }),
        Err(error) => {
            drop(texts);
            drop(case);
            Err(CaseStop::from(error))
        }
    }
}

/// Opens a case that is kept: its entries, and the trail that tells them. A line whose entry did not come gets its void line, with
/// that time.
#[tactic(auto, using(crate::proofs::BookLemmas::not_opened, crate::proofs::BookLemmas::no_texts, crate::proofs::BookLemmas::wanting, crate::proofs::BookLemmas::begins_as))]
pub fn open_case<D: Disk + Drop, T: Disk + Drop>(
    alloc: Global,
    texts: KeptTexts,
    entries: D,
    trail: T,
    at: String,
) -> Result<CaseBook<D, T>, CaseStop>
    requires entries { D.faults entries < 2 ^ 64 - 1 }
    requires lines { T.faults trail < 2 ^ 64 - 1 }
    ensures case { IfOk result (λ b. (begun : Run) × IsCaseOf texts.workflow.items (policy_in texts) begun
        × (case_of b ≡ case_with begun (run_of (case_of b)).history)) }
    ensures whole { IfOk result (λ b. is_broken b ≡ false) }
    ensures history { D.tells → IfOk result (λ b. Keeps (run_of (case_of b)).history (D.seen entries)) }
    ensures start { IfOk result (λ b. book.start_of b ≡ first_end texts.workflow.items (unwrap_or (policy_in texts) [])) }
    ensures said { T.tells → IfOk result (λ b. (saying : List Said) × Says (book.start_of b) saying (T.seen trail)
        × ((said_in b ≡ saying) ⊎ (said_in b ≡ saying ++ void (string_bytes at) ∷ []))) }
    ensures told { IfOk result (λ b. (end_of (book.start_of b) (said_in b)).count ≡ length (run_of (case_of b)).history) }
    // each stop is told only where it is so
    ensures refused { D.tells → T.tells → IfErr result (IsNoCaseIn texts.workflow.items (policy_in texts)
        (first_end texts.workflow.items (unwrap_or (policy_in texts) [])) (D.seen entries) (T.seen trail)) }
{
    let Begun { script, run, users } = match begin(alloc, texts.lent()) {
        Ok(begun) => begun,
        Err(stop) => {
            drop(texts);
            drop(entries);
            drop(trail);
            drop(at);
            return Err(stop);
        }
    };
    let files = CaseFiles { entries, trail, at };
    let case = take_up(alloc, &script, run, start_of(texts.lent()), files);
    drop(script);
    match case {
        Ok(case) => with_people(alloc, texts, case, users),
        Err(stop) => {
            drop(texts);
            drop(users);
            Err(stop)
        }
    }
}
