//! A case whose entries and lines are kept before they are told.
ghost use Rattle.std.specs.Prelude.{◌≡◌, ◌⊎◌, ◌-◌, ◌^◌, ◌<◌, ◌∷◌, ◌++◌, [], ℕ, List, ◌↔◌, ◌+◌, Err, false, true, length, IsTrue, IfOk, OnOk, OnErr};
ghost use Rattle.std.specs.Result.{IsErrOf, is_err};
ghost use Rattle.std.specs.String.{string_bytes};
ghost use Rattle.hex.specs.Hex.{encode_lower};
ghost use Rattle.flow_ask.specs.declared.refusal.Refusal.TheVariants as refusal;
ghost use Rattle.std.specs.Coded.{Coded-set};
ghost use Rattle.flow_core.specs.Run.{run_code};
ghost use Rattle.flow_core.specs.Holding.{IsTakeable};
ghost use Rattle.flow_case.specs.CaseRun.{run_of, CaseAnswers};
ghost use Rattle.flow_keep.specs.Answered.{KeepAnswers, LeavesKept};
ghost use Rattle.flow_keep.specs.Records.{Keeps};
ghost use Rattle.flow_trail.specs.Lines.{Said, undone, remark, end_of, trail_text, Says};
ghost use Rattle.flow_trail.specs.declared.line.About.TheVariants as about;
ghost use Rattle.flow_trail.specs.Due.{Entered, Tells, IsOther, IsMissing};
ghost use Rattle.flow_case_cli.specs.Held as cli;
ghost use Rattle.flow_case_cli.specs.Line.{TellsEntry};
ghost use Rattle.flow_case_cli.specs.Asked.{TellsLine, IsToldFirst};
ghost use Rattle.flow_case.specs.declared.case_run.CaseRun.{CaseRun as RunOf};
ghost use Rattle.flow_case_begin.specs.Begun.{IsCaseOf};
ghost use Rattle.flow_case_book.specs.Texts.{policy_in};
ghost use Rattle.flow_case_book.specs.Due.{AreDueOf};

use crate::dues::dues;
use crate::names::Names;
use crate::opened::KeptTexts;
use flow_ask::{Answer, Ask, Refusal};
use flow_case::CaseRun;
use flow_case_begin::case_with;
use flow_case_cli::{Asker, Case};
use flow_case_talk::{Book, Form, Reply, Speaker, Told, respond};
use flow_core::Core;
use flow_disk::Disk;
use flow_names::{steps_to_take, tidy_steps, waits_for_step};
use flow_policy::Policy;
use flow_trail::{About, TrailLine, VerifyRefusal};
use std::alloc::{AllocError, Global};

/// A case with its texts, and its users by name.
#[derive(Drop)]
pub struct CaseBook<D: Disk, T: Disk> {
    pub(crate) alloc: Global,
    pub(crate) texts: KeptTexts,
    pub(crate) case: Case<D, T>,
    /// For each entry of the history, the line of the trail that tells it. It is shorter where memory was wanting.
    pub(crate) lines: Vec<usize>,
    pub(crate) names: Names,
    ghost of_texts: { (begun : RunOf) → IsCaseOf texts.workflow.items (policy_in texts) begun → run_of begun ≡ record (run_of (cli.case_of case)) { history = [] } } by { Prim.hlevel (Coded-set run_code) },
    ghost entry_faults: { cli.is_broken case ≡ false → D.faults (cli.keep_disk case) < 2 ^ 64 - 1 },
    ghost line_faults: { cli.is_broken case ≡ false → T.faults (cli.trail_disk case) < 2 ^ 64 - 1 },
}

/// Whether a claim on the leaf may be given now.
fn may_take(core: &Core, leaf: u32) -> bool
    ensures { IsTrue result ↔ IsTakeable core.now leaf }
{
    core.may_take(leaf).is_ok()
}

/// Notes the line that tells the last entry, where one came.
fn note_line(lines: &mut Vec<usize>, before: usize, count: usize, line: usize) {
    if before < count && lines.len() == before {
        let _ = lines.push(line);
    }
}

impl<D: Disk, T: Disk> CaseBook<D, T> {
    ghost use Rattle.flow_case_book.specs.Held.{case_of, keep_disk, trail_disk, start_of, said_in, is_broken, names_in, kept_of, is_tidied, is_open};
    ghost use Rattle.flow_case_book.specs.People.{IsNumberOf};
    ghost use Rattle.flow_record.specs.Words.{words_of};
    ghost use Rattle.flow_names.specs.Grammar.{said_by};
    ghost use Rattle.flow_case_talk.specs.Means.{LineMeans, LineBegins};

    /// Replies to a line. When it returns, each entry that the case has is on the disk, and the line that tells it.
    #[tactic(auto, using(flow_case_talk::proofs::PlanLemmas::line_stays))]
    pub fn reply(&mut self, asker: Asker<'_>, line: &[u8], form: Form) -> Result<Reply, AllocError>
        ensures entries { D.tells → is_broken self.new ≡ false → (c : List ℕ) → D.image (keep_disk self.new) (D.moment (keep_disk self.new)) c →
            Keeps (run_of (case_of self.new)).history c }
        ensures lines { T.tells → is_broken self.new ≡ false → (c : List ℕ) → T.image (trail_disk self.new) (T.moment (trail_disk self.new)) c →
            Says (start_of self.new) (said_in self.new) c }
        ensures told { is_broken self.new ≡ false → (end_of (start_of self.new) (said_in self.new)).count ≡ length (run_of (case_of self.new)).history }
        // the entries are those of what the line means, by its speaker
        ensures means { IfOk result (λ reply. (by : ℕ) × IsNumberOf (is_open self.old) (names_in self.old) asker.entry.name.now by
            × LineMeans (is_tidied self.old) by (kept_of self.old) (said_by (words_of line.now)) reply.outcome (kept_of self.new)) }
        ensures begins { OnErr result ((by : ℕ) × LineBegins by (kept_of self.old) (said_by (words_of line.now)) (kept_of self.new)) }
    {
        let known = self.names.count() as usize;
        let before = self.core().history().len();
        let speaker = Speaker {
            number: self.names.number_of(self.alloc, asker.name)?,
            name: asker.name,
            at: asker.at,
            note: asker.note,
        };
        let reply = respond(self.alloc, self, speaker, line, form);
        if self.core().history().len() == before {
            // users are numbered as they first make an entry
            self.names.forget(known);
        }
        reply
    }

    /// The last seal of the trail, in hexadecimal.
    pub fn seal(&self, alloc: Global) -> Result<String, AllocError>
        ensures { IfOk result (λ text. string_bytes text ≡ encode_lower (end_of (start_of self.now) (said_in self.now)).seal) }
    {
        hex::encode(alloc, &self.case.trail().end().seal)
    }

    /// How many bytes the lines of the trail take.
    pub fn trail_bytes(&self) -> u64
        ensures { result ≡ length (trail_text (start_of self.now) (said_in self.now)) }
    {
        self.case.trail().bytes()
    }

    /// Whether the lines of the trail tell just the entries of the history, in order: by whom each was made, its step, and its task.
    pub fn verify(&self) -> Result<(), VerifyRefusal>
        ensures whole { OnOk result ((due : List Entered) × AreDueOf (names_in self.now) (run_of (case_of self.now)) due
            × Tells (start_of self.now) (said_in self.now) due) }
        ensures no_bad_line { (line : ℕ) → ¬ (IsErrOf result (VerifyRefusal.BadLine line)) }
        ensures other { (line : ℕ) → IsErrOf result (VerifyRefusal.Other line) →
            (due : List Entered) × AreDueOf (names_in self.now) (run_of (case_of self.now)) due × IsOther (said_in self.now) due line }
        ensures missing { (entry : ℕ) → IsErrOf result (VerifyRefusal.Missing entry) →
            (due : List Entered) × AreDueOf (names_in self.now) (run_of (case_of self.now)) due × IsMissing (said_in self.now) due entry }
    {
        match dues(self.alloc, self.case.run().core(), &self.names) {
            Ok(dues) => self.case.trail().check(&dues),
            Err(AllocError) => Err(VerifyRefusal::NoMemory),
        }
    }

    /// Notes that the case goes on with the entries of another, whose trail ended by that seal. The run stays as it is.
    #[tactic(auto, using(crate::proofs::BookLemmas::same_begun))]
    pub fn tell_move(&mut self, seal: &str, asker: Asker<'_>) -> Result<(), Refusal>
        ensures broken { (result ≡ Err refusal.Broken) ↔ (is_broken self.old ≡ true) }
        ensures refused { is_broken self.old ≡ false → is_broken self.new ≡ is_err result }
        ensures run { case_of self.new ≡ case_of self.old }
        ensures keep { keep_disk self.new ≡ keep_disk self.old }
        ensures start { start_of self.new ≡ start_of self.old }
        ensures told { length (run_of (case_of self.old)).history < 2 ^ 32 → is_broken self.old ≡ false → TellsLine T.tells T.moment T.image (start_of self.old) (said_in self.old)
            (remark about.Moved seal.now (length (run_of (case_of self.old)).history) asker.entry.name.now asker.entry.at.now) (trail_disk self.old) (trail_disk self.new) (said_in self.new) (is_broken self.new) }
    {
        let entries = u32::try_from(self.case.run().core().history().len()).unwrap_or(u32::MAX);
        self.case
            .remark(self.alloc, About::Moved, seal, entries, asker)
    }

    /// Another run with the same history, which is not kept.
    #[tactic(auto, using(crate::proofs::BookLemmas::twin_run))]
    fn twin(&self, alloc: Global) -> Result<CaseRun, AllocError>
        ensures { IfOk result (λ twin. run_of twin ≡ run_of (case_of self.now)) }
    {
        match case_with(alloc, self.texts.lent(), self.case.run().core().history()) {
            Ok(twin) => Ok(twin),
            Err(stop) => {
                drop(stop);
                Err(AllocError)
            }
        }
    }
}

impl<D: Disk, T: Disk> Book for CaseBook<D, T> {
    ghost use Rattle.flow_case_book.specs.Held.{case_of, keep_disk, trail_disk, start_of, said_in, is_broken, kept_of, is_tidied};
    ghost use Rattle.flow_case_talk.specs.Means.{IsAnswered};

    ghost kept_case = { kept_of };

    ghost tidied = { is_tidied };

    fn path(&self) -> &str {
        self.texts.path.as_str()
    }

    fn core(&self) -> &Core
        ensures { result.now ≡ run_of (case_of self.now) }
    {
        self.case.run().core()
    }

    fn workflow_text(&self) -> &[u8] {
        self.texts.lent().workflow
    }

    fn policy_text(&self) -> Option<&[u8]> {
        self.texts.lent().policy
    }

    fn policy(&self) -> Option<&Policy> {
        match self.case.run() {
            CaseRun::Free(_) => None,
            CaseRun::UnderPolicy(ruled) => Some(ruled.policy()),
        }
    }

    fn users(&self) -> u32 {
        self.names.count()
    }

    fn user_name(&self, number: u32) -> &str {
        self.names.name_of(number)
    }

    fn is_final(&self, event: u32) -> bool {
        match self.case.run() {
            CaseRun::Free(_) => false,
            CaseRun::UnderPolicy(ruled) => ruled.rules().is_final(event),
        }
    }

    fn may_step_back(&self, user: u32) -> bool {
        match self.case.run() {
            CaseRun::Free(_) => true,
            CaseRun::UnderPolicy(ruled) => ruled.rules().may_step_back(user),
        }
    }

    fn is_tidied(&self) -> bool {
        self.texts.tidied
    }

    fn told(&self, place: usize) -> Option<Told<'_>> {
        let line = self.lines.get(place)?;
        match self.case.trail().lines().get(*line)? {
            TrailLine::Told(telling) => Some(Told {
                at: telling.at.as_str(),
                by: telling.by.as_str(),
                note: telling.note.as_str(),
            }),
            _ => None,
        }
    }

    #[tactic(auto, using(crate::proofs::BookLemmas::same_begun))]
    fn look_ahead(&mut self) {
        self.case.look_ahead();
    }

    #[tactic(auto, using(crate::proofs::BookLemmas::takeable_now, crate::proofs::BookLemmas::none_before, crate::proofs::BookLemmas::steps_of_twin, crate::proofs::BookLemmas::same_begun))]
    fn steps_to_take(&mut self, alloc: Global, leaf: u32, by: u32) -> Result<Vec<u32>, AllocError> {
        self.case.look_ahead();
        if may_take(self.core(), leaf) {
            return Ok(Vec::new(alloc));
        }
        if !waits_for_step(self.core(), leaf) {
            return Ok(Vec::new(alloc));
        }
        let mut twin = self.twin(alloc)?;
        let steps = steps_to_take(alloc, &mut twin, leaf, by);
        drop(twin);
        steps
    }

    #[tactic(auto, using(crate::proofs::BookLemmas::tidy_of_twin, crate::proofs::BookLemmas::same_begun))]
    fn tidy_steps(&mut self, alloc: Global, by: u32) -> Result<Vec<u32>, AllocError> {
        let mut twin = self.twin(alloc)?;
        let steps = tidy_steps(alloc, &mut twin, by);
        drop(twin);
        steps
    }

    fn is_ticked_off(&self, done: usize) -> bool {
        let number = (done as u64).saturating_add(1);
        self.case.trail().lines().iter().any(|line| match line {
            TrailLine::Remark(remark) => {
                remark.about == About::Undone && u64::from(remark.entry) == number
            }
            _ => false,
        })
    }

    /// Ticks off the task that the entry at the place did, which is undone outside. The run stays as it is.
    #[tactic(auto, using(crate::proofs::BookLemmas::same_begun))]
    fn tick_off(&mut self, task: &str, done: usize, speaker: Speaker<'_>) -> Result<(), Refusal>
        ensures broken { (result ≡ Err refusal.Broken) ↔ (is_broken self.old ≡ true) }
        ensures refused { is_broken self.old ≡ false → is_broken self.new ≡ is_err result }
        ensures run { case_of self.new ≡ case_of self.old }
        ensures keep { keep_disk self.new ≡ keep_disk self.old }
        ensures start { start_of self.new ≡ start_of self.old }
        ensures told { done + 1 < 2 ^ 32 → is_broken self.old ≡ false → TellsLine T.tells T.moment T.image (start_of self.old) (said_in self.old)
            (undone task.now (done + 1) speaker.entry.name.now speaker.entry.at.now) (trail_disk self.old) (trail_disk self.new) (said_in self.new) (is_broken self.new) }
    {
        let entry = u32::try_from(done).unwrap_or(u32::MAX).saturating_add(1);
        let asker = Asker {
            name: speaker.name,
            at: speaker.at,
            note: speaker.note,
        };
        self.case.tick(self.alloc, task, entry, asker)
    }

    /// Asks the case one thing. The entry that comes of it is told on the trail, then kept, and only then answered.
    #[tactic(auto, using(crate::proofs::BookLemmas::asked_begun))]
    fn ask(&mut self, ask: Ask, speaker: Speaker<'_>) -> Answer
        ensures answer { KeepAnswers run_of CaseAnswers (is_broken self.old) (case_of self.old) ask speaker.entry.number result (is_broken self.new) (case_of self.new) }
        ensures answered { IsAnswered (kept_of self.old) ask speaker.entry.number result (kept_of self.new) }
        ensures start { start_of self.new ≡ start_of self.old }
        // where no entry comes, nothing is written
        ensures idle { run_of (case_of self.new) ≡ run_of (case_of self.old) →
            (keep_disk self.new ≡ keep_disk self.old) × (trail_disk self.new ≡ trail_disk self.old) × (said_in self.new ≡ said_in self.old) }
        // where one comes, the trail tells it, and then the run is kept
        ensures told { is_broken self.old ≡ false → (run_of (case_of self.new) ≡ run_of (case_of self.old)) ⊎ ((said : Said)
            × (is_broken self.new ≡ false → TellsEntry (run_of (case_of self.old)) ask speaker.entry.number (run_of (case_of self.new))
            (record { name = speaker.entry.name; at = speaker.entry.at; note = speaker.entry.note }) said)
            × TellsLine T.tells T.moment T.image (start_of self.old) (said_in self.old) said (trail_disk self.old) (trail_disk self.new) (said_in self.new) (is_broken self.new)
            × IsToldFirst T.tells T.moment T.image (start_of self.old) (said_in self.old) said (keep_disk self.old) (keep_disk self.new) (trail_disk self.new)) }
        ensures kept { LeavesKept D.tells D.moment D.image D.seen D.chosen (run_of (case_of self.old)) (run_of (case_of self.new))
            (keep_disk self.old) (keep_disk self.new) (is_broken self.old) (is_broken self.new) }
    {
        let before = self.case.run().core().history().len();
        let line = self.case.trail().lines().len();
        let asker = Asker {
            name: speaker.name,
            at: speaker.at,
            note: speaker.note,
        };
        let answer = self.case.ask(self.alloc, ask, speaker.number, asker);
        let count = self.case.run().core().history().len();
        note_line(&mut self.lines, before, count, line);
        answer
    }
}
