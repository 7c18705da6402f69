ghost use Rattle.flow_workflow.specs.Definition.{schema_of};
ghost use Rattle.flow_plan.specs.Compilation.{IsCompiled};

use clap::builder::ValueParser;
use clap::{ArgMatches, Command};
use flow_call::{
    DISK, INPUT, MOST_JOBS, NO_MEMORY, REFUSED, USUAL_JOBS, WORDS, WRITE_FAULT, number_in, option,
    read_file, required, say_unread, write_out,
};
use flow_desk::GREATEST_INPUT;
use flow_event_log::{Column, LogFault, LogRefusal, NamesKey, Wanted};
use flow_front::Prepared;
use flow_log_cli::{
    Form, LogCall, LogStop, MapRefusal, Told, journal_of, tell_log_with_key, workflow_of,
    write_answer,
};
use flow_why_cli::{Form as ExplainForm, explain};
use std::alloc::{AllocError, Global};
use std::fs::{self, File};
use std::io;
use std::random::RandomSource;
use std::rt::Files;
use std::thread::Threads;

/// The longest map that is read, in bytes.
const GREATEST_MAP: usize = 16_777_216;

/// How many states one search makes where nothing is asked.
pub(crate) const USUAL_BUDGET: u32 = 100_000;

/// The words that say how the rows of a log are read.
pub fn with_columns<'a>(alloc: Global, command: Command<'a>) -> Result<Command<'a>, AllocError> {
    command
        .arg(option(alloc, "case", "COLUMN", "the column of the case"))?
        .arg(option(alloc, "activity", "COLUMN", "the column of the activity"))?
        .arg(option(
            alloc,
            "time",
            "COLUMN",
            "the column of the time; an empty name: events are in the order of the file",
        ))?
        .arg(option(
            alloc,
            "map",
            "PATH",
            "a CSV of two columns: an activity of the log, and the event that it stands for",
        ))
}

/// The words that ask which cases of a log keep to a workflow.
pub fn log_command<'a>(alloc: Global) -> Result<Command<'a>, AllocError> {
    let log = required(
        alloc,
        "log",
        "LOG",
        "a CSV file; its first row names the columns, and each other row is an event",
    );
    let workflow = option(alloc, "workflow", "FILE", "the text of the workflow").required(true);
    let form = option(alloc, "form", "FORM", "how the answer is written")
        .value_parser(ValueParser::Names(&["text", "csv", "json"]))
        .default_value("text");
    let command = Command::new(alloc, "log")
        .about(
            "Tells which cases of an event log keep to a workflow, and where each other one leaves it",
        )
        .arg(log)?
        .arg(workflow)?;
    with_columns(alloc, command)?
        .arg(form)?
        .arg(option(
            alloc,
            "journals",
            "FOLDER",
            "writes for each sequence that fits a file that flow trace accepts",
        ))?
        .arg(option(
            alloc,
            "jobs",
            "N",
            "how many threads judge, 1 to 64; else 4",
        ))?
        .arg(option(
            alloc,
            "budget",
            "N",
            "how many states a search makes before it gives up; else 100000",
        ))
}

/// A log that is to be read.
#[derive(Clone, Copy)]
pub(crate) struct Source<'a> {
    log: &'a str,
    map: Option<&'a str>,
    call: LogCall<'a>,
    key: NamesKey,
}

/// The words of a call.
#[derive(Clone, Copy)]
struct Words<'a> {
    source: Source<'a>,
    workflow: &'a str,
    journals: Option<&'a str>,
    form: Form,
}

/// A key that nobody knows: names of a log are hashed by it.
fn key_of(rt: &impl RandomSource) -> io::Result<NamesKey> {
    let mut first = [0u8; 8];
    let mut second = [0u8; 8];
    rt.fill_bytes(&mut first)?;
    rt.fill_bytes(&mut second)?;
    Ok(NamesKey::new(u64::from_le_bytes(first), u64::from_le_bytes(second)))
}

/// The log that the words name, and how it is read.
pub(crate) fn source_in<'a>(
    matches: &ArgMatches<'a>,
    jobs: u32,
    budget: u32,
    key: NamesKey,
) -> Option<Source<'a>> {
    Some(Source {
        log: matches.get_str("log")?,
        map: matches.get_str("map"),
        call: LogCall {
            wanted: Wanted {
                case: matches.get_str("case"),
                activity: matches.get_str("activity"),
                time: matches.get_str("time"),
            },
            jobs,
            budget,
        },
        key,
    })
}

/// What the words ask for.
fn words_in<'a>(matches: &ArgMatches<'a>, key: NamesKey) -> Option<Words<'a>> {
    let form = match matches.get_str("form") {
        Some("csv") => Form::Csv,
        Some("json") => Form::Json,
        _ => Form::Text,
    };
    let jobs = number_in(matches.get_str("jobs"), USUAL_JOBS, MOST_JOBS)?;
    let budget = number_in(matches.get_str("budget"), USUAL_BUDGET, u32::MAX)?;
    Some(Words {
        source: source_in(matches, jobs, budget, key)?,
        workflow: matches.get_str("workflow")?,
        journals: matches.get_str("journals"),
        form,
    })
}

/// Writes which column is not there, and which there are.
fn tell_columns(rt: &impl Eprint, log: &str, column: Column, header: &[Vec<u8>]) {
    let word = match column {
        Column::Case => "case",
        Column::Activity => "activity",
        Column::Time => "time",
    };
    let _ = eprint!(rt;
        "{log}:1: refused: no column of the {word}; name one by --{word}. There are:"
    );
    for name in header {
        let name = str::from_utf8(name.as_slice()).unwrap_or("?");
        let _ = eprint!(rt; " `{name}`");
    }
    let _ = eprintln!(rt; "");
}

/// Writes why a log is refused, and gives the status.
fn tell_refusal(rt: &impl Eprint, log: &str, refusal: &LogRefusal) -> u8 {
    match refusal {
        LogRefusal::Empty => {
            let _ = eprintln!(rt; "{log}:1: refused: no first row with the names of the columns");
        }
        LogRefusal::NoColumn { column, header } => tell_columns(rt, log, *column, header),
        LogRefusal::BadTime { line } => {
            let _ = eprintln!(rt;
                "{log}:{line}: refused: the time is none of ISO 8601; name another column by --time, or give it an empty name to take the events in the order of the file"
            );
        }
        LogRefusal::MixedTimes { line } => {
            let _ = eprintln!(rt;
                "{log}:{line}: refused: some times have a zone, and some have none"
            );
        }
        LogRefusal::TooLong { line } => {
            let _ = eprintln!(rt; "{log}:{line}: refused: too many lines");
        }
    }
    INPUT
}

/// Writes why nothing is told, and gives the status.
fn tell_stop(rt: &impl Eprint, source: &Source<'_>, stop: LogStop) -> u8 {
    let map = source.map.unwrap_or("");
    let log = source.log;
    match stop {
        LogStop::Map(MapRefusal::NoPair { line }) => {
            let _ = eprintln!(rt; "{map}:{line}: refused: a row has an activity and an event");
            INPUT
        }
        LogStop::Map(MapRefusal::NoEvent { line }) => {
            let _ = eprintln!(rt; "{map}:{line}: refused: the workflow has no event of this name");
            INPUT
        }
        LogStop::Log(LogFault::Refused(refusal)) => tell_refusal(rt, log, &refusal),
        LogStop::Log(LogFault::Read) => {
            let _ = eprintln!(rt; "{log}: could not be read");
            DISK
        }
        LogStop::Log(LogFault::NoMemory) | LogStop::Map(MapRefusal::NoMemory) | LogStop::NoMemory =>
            {
                let _ = eprintln!(rt; "{log}: out of memory");
                NO_MEMORY
            }
    }
}

/// Writes a file for each sequence that fits, named by its number from 1. Gives the path that could not be written.
fn write_journals<R: Files<File = File> + AllocGlobal + Eprint>(
    rt: &R,
    folder: &str,
    text: &[u8],
    prepared: &Prepared,
    budget: u32,
    told: &Told,
) -> u8
    requires { IsCompiled (schema_of prepared.now.workflow) prepared.now.compiled }
{
    for (place, events) in told.found.cases.sequences.iter().enumerate() {
        let number = place.saturating_add(1);
        let journal = match journal_of(rt.alloc(), text, prepared, events, budget) {
            Ok(Some(journal)) => journal,
            Ok(None) => continue,
            Err(AllocError) => return NO_MEMORY,
        };
        let Ok(path) = format!(in rt.alloc(); "{folder}/{number}.flow") else {
            return NO_MEMORY;
        };
        if let Err(error) = fs::write(rt, path.as_str(), journal.as_slice()) {
            return say_unread(rt, path.as_str(), error);
        }
    }
    0
}

/// The status of an answer.
fn status_of(told: &Told) -> u8 {
    if told.fits() { 0 } else { REFUSED }
}

/// Writes the answer and the journals, and gives the status.
fn answer<R: Files<File = File> + AllocGlobal + Print + Eprint>(
    rt: &R,
    words: &Words<'_>,
    text: &[u8],
    prepared: &Prepared,
    told: &Told,
) -> u8
    requires { IsCompiled (schema_of prepared.now.workflow) prepared.now.compiled }
{
    let mut out = io::writer(rt);
    if let Err(error) = write_answer(rt.alloc(), &mut out, told, words.form) {
        let _ = eprintln!(rt; "flowdesk: standard output: {error}");
        return WRITE_FAULT;
    }
    if let Some(folder) = words.journals {
        let status = write_journals(rt, folder, text, prepared, words.source.call.budget, told);
        if status != 0 {
            return status;
        }
    }
    status_of(told)
}

/// The bytes of the map's file, if there is one.
fn read_map_file<R: Files<File = File> + AllocGlobal>(
    rt: &R,
    path: Option<&str>,
) -> io::Result<Option<Vec<u8>>> {
    match path {
        Some(path) => Ok(Some(read_file(rt, path, GREATEST_MAP)?)),
        None => Ok(None),
    }
}

/// What is told of the log's cases; else the status, when it is said why.
pub(crate) fn told_of<R: Files<File = File> + AllocGlobal + Eprint + Threads + Sync>(
    rt: &R,
    source: &Source<'_>,
    prepared: &Prepared,
) -> Result<Told, u8>
    requires { IsCompiled (schema_of prepared.now.workflow) prepared.now.compiled }
{
    let map = match read_map_file(rt, source.map) {
        Ok(map) => map,
        Err(error) => return Err(say_unread(rt, source.map.unwrap_or(""), error)),
    };
    let file = match File::open(rt, source.log) {
        Ok(file) => file,
        Err(error) => return Err(say_unread(rt, source.log, error)),
    };
    let bytes = match &map {
        Some(map) => Some(map.as_slice()),
        None => None,
    };
    match tell_log_with_key(
        rt,
        rt.alloc(),
        prepared,
        bytes,
        file,
        &source.call,
        source.key,
    ) {
        Ok(told) => Ok(told),
        Err(stop) => Err(tell_stop(rt, source, stop)),
    }
}

/// Tells of the log's cases what they are of the workflow, and gives the status.
fn tell_cases<R: Files<File = File> + AllocGlobal + Print + Eprint + Threads + Sync>(
    rt: &R,
    words: &Words<'_>,
    text: &[u8],
    prepared: &Prepared,
) -> u8
    requires { IsCompiled (schema_of prepared.now.workflow) prepared.now.compiled }
{
    match told_of(rt, &words.source, prepared) {
        Ok(told) => answer(rt, words, text, prepared, &told),
        Err(status) => status,
    }
}

/// Tells what is wrong with a workflow, and gives the status.
pub(crate) fn tell_workflow(rt: &(impl AllocGlobal + Print + Eprint), text: &[u8]) -> u8 {
    match explain(rt.alloc(), text, ExplainForm::Words) {
        Ok(output) => {
            let status = output.status.code();
            match write_out(rt, &output.text) {
                0 => status,
                fault => fault,
            }
        }
        Err(AllocError) => NO_MEMORY,
    }
}

/// A key for a call; else the status, when it is said why there is none.
pub(crate) fn drawn_key(rt: &(impl RandomSource + Eprint)) -> Result<NamesKey, u8> {
    match key_of(rt) {
        Ok(key) => Ok(key),
        Err(error) => Err(say_unread(rt, "flowdesk: random numbers", error)),
    }
}

/// Tells which cases of the log that the words name keep to the workflow, and gives the status.
pub fn log_file<
    R: Files<File = File> + RandomSource + AllocGlobal + Print + Eprint + Threads + Sync,
>(rt: &R, matches: &ArgMatches<'_>) -> u8 {
    let key = match drawn_key(rt) {
        Ok(key) => key,
        Err(status) => return status,
    };
    let Some(words) = words_in(matches, key) else {
        let _ = eprintln!(rt; "flowdesk log: --jobs is 1 to {MOST_JOBS}, --budget is 1 or more");
        return WORDS;
    };
    let text = match read_file(rt, words.workflow, GREATEST_INPUT) {
        Ok(text) => text,
        Err(error) => return say_unread(rt, words.workflow, error),
    };
    match workflow_of(rt.alloc(), &text) {
        Ok(prepared) => tell_cases(rt, &words, &text, &prepared),
        Err(_) => tell_workflow(rt, &text),
    }
}
