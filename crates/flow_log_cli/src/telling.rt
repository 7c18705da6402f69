ghost use Rattle.std.specs.Prelude.{◌≤◌, ℕ, List, Option, option_map, length, IfOk};
ghost use Rattle.flow_workflow.specs.Definition.{schema_of};
ghost use Rattle.flow_plan.specs.Compilation.{IsCompiled};
ghost use Rattle.flow_event_log.specs.Logs.{activities_in};
ghost use Rattle.flow_conformance.specs.Judged.{AreFindings};
ghost use Rattle.flow_log_cli.specs.Judging.{IsVerdict};
ghost use Rattle.flow_log_cli.specs.Activities.{StandFor};
ghost use Rattle.flow_log_cli.specs.Maps.{AreMapRows, AreGoodRows};
ghost use Rattle.flow_log_cli.specs.Noted.{IsRenaming, IsVocabulary};
ghost use Rattle.flow_log_cli.specs.Told.{IsTold};

use crate::judge::WorkflowJudge;
use crate::renaming::{Renaming, read_map};
use crate::stop::LogStop;
use crate::vocabulary::{Vocabulary, events_of_activities, labels_of};
use flow_conformance::{
    Answered, Finding, Findings, Labels, judge_all, sums_of, write_csv, write_json, write_text,
};
use flow_event_log::{NamesKey, Reading, Wanted, group, read_log_with_key};
use flow_front::Prepared;
use std::alloc::{AllocError, Global};
use std::io::{self, Read, Write};
use std::thread::Threads;

/// How an answer is written.
#[derive(Clone, Copy, PartialEq, Eq, Debug)]
pub enum Form {
    Text,
    Csv,
    Json,
}

/// What is asked of a log.
#[derive(Clone, Copy)]
pub struct LogCall<'a> {
    pub wanted: Wanted<'a>,
    /// How many threads judge sequences.
    pub jobs: u32,
    /// How many states a search makes at most for one sequence.
    pub budget: u32,
}

/// What is told of a log.
#[derive(Drop)]
pub struct Told {
    pub reading: Reading,
    pub found: Findings,
    pub labels: Labels,
}

impl Told {
    ghost use Rattle.std.specs.Prelude.{◌≡◌, ◌↔◌, IsTrue};
    ghost use Rattle.flow_conformance.specs.declared.sums.Standing.TheVariants.{Deviates, Unknown, Undecided};
    ghost use Rattle.flow_log_cli.specs.Told.{cases_of};

    /// Whether each case is an execution, or the begin of one.
    pub fn fits(&self) -> bool
        ensures { IsTrue result ↔ (cases_of self.now Deviates ≡ 0) × (cases_of self.now Unknown ≡ 0) × (cases_of self.now Undecided ≡ 0) }
    {
        let sums = sums_of(&self.reading.log, &self.found);
        sums.deviates == 0 && sums.unknown == 0 && sums.undecided == 0
    }
}

/// The events that the activities of a log stand for, by a map and by their own names.
fn renaming_of(
    alloc: Global,
    map: Option<&[u8]>,
    vocabulary: &Vocabulary<'_>,
) -> Result<Renaming, LogStop>
    requires { IsVocabulary vocabulary.now }
    ensures { IfOk result (λ renaming. IsRenaming vocabulary.now.events.now (option_map (λ text. text.now) map.entry) renaming.table.names renaming.table.numbers.items) }
{
    match map {
        Some(text) => match read_map(alloc, text, vocabulary) {
            Ok(renaming) => Ok(renaming),
            Err(refusal) => Err(LogStop::Map(refusal)),
        },
        None => Ok(Renaming::new(alloc)?),
    }
}

/// What is found of each of the sequences, by so many threads.
fn judge_sequences<R: Threads + Sync>(
    rt: &R,
    alloc: Global,
    prepared: &Prepared,
    sequences: &[Vec<u32>],
    call: &LogCall<'_>,
) -> Result<Vec<Finding>, AllocError>
    requires { IsCompiled (schema_of prepared.now.workflow) prepared.now.compiled }
    ensures { IfOk result (λ found. AreFindings (IsVerdict prepared.now.workflow) sequences.now found.items) }
{
    let judge = WorkflowJudge::new(&prepared.workflow, &prepared.compiled, call.budget);
    let declared = prepared.workflow.events().len() as u32;
    judge_all(rt, alloc, &judge, sequences, declared, call.jobs)
}

/// What is told of the cases of a log that was read.
fn judge_reading<R: Threads + Sync>(
    rt: &R,
    alloc: Global,
    prepared: &Prepared,
    reading: Reading,
    events: &[u32],
    call: &LogCall<'_>,
) -> Result<Told, LogStop>
    requires compiled { IsCompiled (schema_of prepared.now.workflow) prepared.now.compiled }
    requires events { length (activities_in reading.log) ≤ length events.now }
    ensures { (map : Option (List ℕ)) (rows : List (List (List ℕ))) → AreMapRows map rows → AreGoodRows prepared.now.workflow.events rows →
        StandFor prepared.now.workflow.events rows (activities_in reading.log) events.now → IfOk result (IsTold prepared.now.workflow map) }
{
    let labels = labels_of(alloc, &prepared.workflow, reading.log.activities())?;
    let cases = group(alloc, &reading.log, events)?;
    let findings = judge_sequences(rt, alloc, prepared, cases.sequences.as_slice(), call)?;
    let found = Findings::new(alloc, &reading.log, cases, findings)?;
    Ok(Told {
        reading,
        found,
        labels,
    })
}

/// Tells of each case of a log what it is of the workflow.
pub fn tell_log<R: Threads + Sync, S: Read + Drop>(
    rt: &R,
    alloc: Global,
    prepared: &Prepared,
    map: Option<&[u8]>,
    source: S,
    call: &LogCall<'_>,
) -> Result<Told, LogStop>
    requires { IsCompiled (schema_of prepared.now.workflow) prepared.now.compiled }
    ensures { IfOk result (IsTold prepared.now.workflow (option_map (λ text. text.now) map.entry)) }
{
    let key = NamesKey::new(0, 0);
    tell_log_with_key(rt, alloc, prepared, map, source, call, key)
}

/// The same, for a log of strangers: these are not to know the key, by which names are hashed.
pub fn tell_log_with_key<R: Threads + Sync, S: Read + Drop>(
    rt: &R,
    alloc: Global,
    prepared: &Prepared,
    map: Option<&[u8]>,
    source: S,
    call: &LogCall<'_>,
    key: NamesKey,
) -> Result<Told, LogStop>
    requires { IsCompiled (schema_of prepared.now.workflow) prepared.now.compiled }
    ensures { IfOk result (IsTold prepared.now.workflow (option_map (λ text. text.now) map.entry)) }
{
    let vocabulary = Vocabulary::new(alloc, &prepared.workflow)?;
    let renaming = renaming_of(alloc, map, &vocabulary)?;
    let reading = read_log_with_key(alloc, source, &call.wanted, key)?;
    let events = events_of_activities(alloc, &vocabulary, &renaming, reading.log.activities())?;
    judge_reading(rt, alloc, prepared, reading, events.as_slice(), call)
}

/// Writes what is told of a log.
pub fn write_answer<W: Write>(
    alloc: Global,
    out: &mut W,
    told: &Told,
    form: Form,
) -> io::Result<()> {
    let answered = Answered {
        reading: &told.reading,
        found: &told.found,
        labels: &told.labels,
    };
    match form {
        Form::Text => write_text(alloc, out, answered),
        Form::Csv => write_csv(alloc, out, answered),
        Form::Json => write_json(alloc, out, answered),
    }
}
