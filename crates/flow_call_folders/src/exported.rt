//! The histories of cases are written as an event log.

use crate::cases::cases_in;
use crate::office::{Asked, write_cases};
use crate::read::CaseFiles;
use crate::unseen::{Unseen, why_stopped};
use clap::builder::ValueParser;
use clap::{ArgMatches, Command};
use flow_call::{
    MOST_JOBS, NO_MEMORY, REFUSED, USUAL_JOBS, WORDS, number_in, option, required, say_unread,
    write_out,
};
use flow_case_seen::{SharedTexts, seen_case};
use flow_export::{
    LogRow, SQL_END, SQL_HEAD, XES_END, XES_HEAD, csv_head, csv_lines, json_lines, rows_of,
    sql_case, xes_trace,
};
use std::alloc::{AllocError, Global};
use std::fs::File;
use std::rt::Files;
use std::thread::Threads;

/// How the log is written.
#[derive(Clone, Copy)]
enum Form {
    Csv,
    Jsonl,
    Xes,
    Sql,
}

impl Form {
    fn called(word: &str) -> Form {
        match word {
            "jsonl" => Form::Jsonl,
            "xes" => Form::Xes,
            "sql" => Form::Sql,
            _ => Form::Csv,
        }
    }

    /// What stands in front of the cases.
    fn head(self, alloc: Global) -> Result<Vec<u8>, AllocError> {
        match self {
            Form::Csv => csv_head(alloc),
            Form::Jsonl => Ok(Vec::new(alloc)),
            Form::Xes => Vec::from_slice(alloc, XES_HEAD),
            Form::Sql => Vec::from_slice(alloc, SQL_HEAD),
        }
    }

    /// What stands behind the cases.
    fn end(self) -> &'static [u8] {
        match self {
            Form::Csv | Form::Jsonl => b"",
            Form::Xes => XES_END,
            Form::Sql => SQL_END,
        }
    }

    /// What is written of a case.
    fn text(self, alloc: Global, case: &str, rows: &[LogRow]) -> Result<Vec<u8>, AllocError> {
        match self {
            Form::Csv => csv_lines(alloc, rows),
            Form::Jsonl => json_lines(alloc, rows),
            Form::Xes => xes_trace(alloc, case, rows),
            Form::Sql => sql_case(alloc, case, rows),
        }
    }
}

/// Which events are written.
#[derive(Clone, Copy)]
enum Wanted {
    /// All of them.
    All,
    /// Those that count: the journal of each case.
    Journal,
    /// Those that count, of tasks alone.
    Tasks,
}

impl Wanted {
    fn called(word: &str) -> Wanted {
        match word {
            "journal" => Wanted::Journal,
            "tasks" => Wanted::Tasks,
            _ => Wanted::All,
        }
    }

    fn has(self, row: &LogRow) -> bool {
        match self {
            Wanted::All => true,
            Wanted::Journal => row.counts,
            Wanted::Tasks => row.counts && row.is_task,
        }
    }
}

/// The words that ask for an event log of cases.
pub fn export_command<'a>(alloc: Global) -> Result<Command<'a>, AllocError> {
    let folder = required(
        alloc,
        "folder",
        "FOLDER",
        "a folder whose folders are cases, or a case",
    );
    let form = option(alloc, "form", "FORM", "how the log is written")
        .value_parser(ValueParser::Names(&["csv", "jsonl", "xes", "sql"]))
        .default_value("csv");
    let rows = option(
        alloc,
        "rows",
        "ROWS",
        "which events: all, those that count as a journal, or the tasks of these",
    )
    .value_parser(ValueParser::Names(&["all", "journal", "tasks"]))
    .default_value("all");
    let jobs = option(
        alloc,
        "jobs",
        "N",
        "how many threads look at cases, 1 to 64; else 4",
    );
    Command::new(alloc, "export")
        .about("Writes the histories of cases as an event log")
        .arg(folder)?
        .arg(form)?
        .arg(rows)?
        .arg(jobs)
}

/// What is written of each case.
#[derive(Clone, Copy)]
pub(crate) struct Log {
    form: Form,
    wanted: Wanted,
}

impl Log {
    /// What is written of a case with those texts and files.
    pub(crate) fn text(
        self,
        alloc: Global,
        path: &str,
        texts: &SharedTexts,
        files: &CaseFiles,
    ) -> Result<Vec<u8>, Unseen> {
        let entries = files.entries.clone()?;
        let seen = match seen_case(alloc, texts, entries, &files.trail) {
            Ok(seen) => seen,
            Err(stop) => return Err(why_stopped(alloc, &stop)),
        };
        let rows = rows_of(alloc, seen.run.core(), path, &seen.tellers);
        drop(seen);
        let mut rows = rows?;
        rows.retain(|row| self.wanted.has(row));
        Ok(self.form.text(alloc, path, &rows)?)
    }
}

/// Writes the log of the cases, and gives the status.
fn write_log<R: Files<File = File> + AllocGlobal + Print + Eprint + Threads + Sync>(
    rt: &R,
    cases: &[String],
    log: Log,
    jobs: u32,
) -> u8 {
    let Ok(head) = log.form.head(rt.alloc()) else {
        return NO_MEMORY;
    };
    match write_out(rt, &head) {
        0 => {}
        fault => return fault,
    }
    match write_cases(rt, cases, Asked::Log(log), jobs) {
        status @ (0 | REFUSED) => match write_out(rt, log.form.end()) {
            0 => status,
            fault => fault,
        },
        fault => fault,
    }
}

/// Writes the event log of the cases that the words name, and gives the status.
pub fn export<R: Files<File = File> + AllocGlobal + Clone + Drop + Print + Eprint + Threads + Sync>(
    rt: &R,
    words: &ArgMatches<'_>,
) -> u8 {
    let folder = words.get_str("folder").unwrap_or("");
    let Some(jobs) = number_in(words.get_str("jobs"), USUAL_JOBS, MOST_JOBS) else {
        return WORDS;
    };
    let log = Log {
        form: Form::called(words.get_str("form").unwrap_or("")),
        wanted: Wanted::called(words.get_str("rows").unwrap_or("")),
    };
    match cases_in(rt, folder) {
        Ok(cases) => write_log(rt, &cases, log, jobs),
        Err(error) => say_unread(rt, folder, error),
    }
}
