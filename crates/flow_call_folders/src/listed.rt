//! Many cases at a glance. Files are only read, and no lock is taken.

use crate::cases::cases_in;
use crate::office::{Asked, write_cases};
use crate::read::CaseFiles;
use crate::unseen::{Unseen, why_stopped};
use clap::builder::ValueParser;
use clap::{ArgMatches, Command};
use flow_call::{
    MOST_JOBS, NO_MEMORY, USUAL_JOBS, WORDS, flag, number_in, option, required, say_unread,
};
use flow_case_seen::SharedTexts;
use flow_list::{
    CaseLine, Filter, damaged_object, damaged_words, is_shown, line_object, line_of_files,
    line_words, seconds_in, state_called,
};
use jiff::Timestamp;
use std::alloc::{AllocError, Global};
use std::fs::{self, File};
use std::rt::Files;
use std::thread::Threads;
use std::time::Clock;

/// How lines are written.
#[derive(Clone, Copy)]
enum Form {
    Words,
    /// An object each.
    Json,
}

/// The words that ask for a list of cases.
pub fn list_command<'a>(alloc: Global) -> Result<Command<'a>, AllocError> {
    let folder = required(
        alloc,
        "folder",
        "FOLDER",
        "a folder whose folders are cases, or a case",
    );
    let state = option(alloc, "state", "STATE", "the cases that stand so").value_parser(
        ValueParser::Names(&[
            "open",
            "waiting",
            "finished",
            "stuck",
            "stuck_by_duties",
            "committed",
        ]),
    );
    let json = flag(alloc, "json", "an object of JSON for each case");
    Command::new(alloc, "list")
        .about("Shows a line for each case: how it stands, what may be begun and what is out")
        .arg(folder)?
        .arg(option(alloc, "for", "USER", "the cases that wait for the user"))?
        .arg(state)?
        .arg(option(
            alloc,
            "older",
            "SPAN",
            "the cases whose last entry is so old: 2d, 12h or 30m",
        ))?
        .arg(option(
            alloc,
            "workflow",
            "FILE",
            "the cases whose workflow has the text of that file",
        ))?
        .arg(option(
            alloc,
            "jobs",
            "N",
            "how many threads look at cases, 1 to 64; else 4",
        ))?
        .arg(json)
}

/// The second at which the last entry was made, where the time that is told is one.
fn second_of(line: &CaseLine) -> Option<u64> {
    match &line.last {
        Some(last) => match last.as_str().parse::<Timestamp>() {
            Ok(time) => u64::try_from(time.as_second()).ok(),
            Err(_) => None,
        },
        None => None,
    }
}

/// The line of a case with those texts and files.
pub(crate) fn line_of(
    alloc: Global,
    texts: &SharedTexts,
    files: &CaseFiles,
) -> Result<CaseLine, Unseen> {
    let entries = files.entries.clone()?;
    match line_of_files(alloc, texts, entries, &files.trail) {
        Ok(line) => Ok(line),
        Err(stop) => Err(why_stopped(alloc, &stop)),
    }
}

/// Which lines are shown, and how they are written.
#[derive(Clone, Copy)]
pub(crate) struct Lines<'a> {
    filter: &'a Filter,
    form: Form,
}

impl<'a> Lines<'a> {
    /// The line of a case with those texts and files, or nothing where it is not shown.
    pub(crate) fn text(
        self,
        alloc: Global,
        path: &str,
        texts: &SharedTexts,
        files: &CaseFiles,
    ) -> Result<Vec<u8>, Unseen> {
        let line = line_of(alloc, texts, files)?;
        if !is_shown(self.filter, texts, &line, second_of(&line)) {
            return Ok(Vec::new(alloc));
        }
        let text = match self.form {
            Form::Json => line_object(alloc, texts, path, &line)?,
            Form::Words => line_words(alloc, texts, path, &line)?,
        };
        Ok(text)
    }

    /// The line of a case that is damaged. It is shown whatever is asked for.
    pub(crate) fn damaged(
        self,
        alloc: Global,
        path: &str,
        why: &str,
    ) -> Result<Vec<u8>, AllocError> {
        match self.form {
            Form::Json => damaged_object(alloc, path, why),
            Form::Words => damaged_words(alloc, path, why),
        }
    }
}

/// The second before which a last entry is old enough; none where nothing is asked. An error is a word that is no span, or no clock.
fn until_in<R: Clock>(rt: &R, words: &ArgMatches<'_>) -> Result<Option<u64>, u8> {
    let Some(span) = words.get_str("older") else {
        return Ok(None);
    };
    let Some(seconds) = seconds_in(span) else {
        return Err(WORDS);
    };
    match Timestamp::now(rt) {
        Ok(now) => {
            let second = u64::try_from(now.as_second()).unwrap_or(0);
            Ok(Some(second.saturating_sub(seconds)))
        }
        Err(_) => Err(NO_MEMORY),
    }
}

/// The text of the workflow whose cases are asked for, if one is.
fn workflow_in<R: Files<File = File> + AllocGlobal + Eprint>(
    rt: &R,
    words: &ArgMatches<'_>,
) -> Result<Option<Vec<u8>>, u8> {
    let Some(file) = words.get_str("workflow") else {
        return Ok(None);
    };
    match fs::read(rt, file) {
        Ok(text) => Ok(Some(text)),
        Err(error) => Err(say_unread(rt, file, error)),
    }
}

/// The user whose cases are asked for, if one is.
fn user_in(alloc: Global, words: &ArgMatches<'_>) -> Result<Option<String>, u8> {
    match words.get_str("for") {
        Some(user) => match String::from_str(alloc, user) {
            Ok(user) => Ok(Some(user)),
            Err(AllocError) => Err(NO_MEMORY),
        },
        None => Ok(None),
    }
}

/// What the lines are to meet that are shown.
fn filter_in<R: Files<File = File> + Clock + AllocGlobal + Eprint>(
    rt: &R,
    words: &ArgMatches<'_>,
) -> Result<Filter, u8> {
    let until = until_in(rt, words)?;
    let state = match words.get_str("state") {
        Some(word) => state_called(word),
        None => None,
    };
    let workflow = workflow_in(rt, words)?;
    match user_in(rt.alloc(), words) {
        Ok(user) => Ok(Filter {
            user,
            state,
            until,
            workflow,
        }),
        Err(status) => {
            drop(workflow);
            Err(status)
        }
    }
}

/// Writes a line for each case of a folder, and gives the status.
pub fn list<
    R: Files<File = File> + Clock + AllocGlobal + Print + Eprint + Threads + Sync + Clone + Drop,
>(rt: &R, words: &ArgMatches<'_>) -> u8 {
    let folder = words.get_str("folder").unwrap_or("");
    let Some(jobs) = number_in(words.get_str("jobs"), USUAL_JOBS, MOST_JOBS) else {
        return WORDS;
    };
    let form = if words.get_flag("json") {
        Form::Json
    } else {
        Form::Words
    };
    let filter = match filter_in(rt, words) {
        Ok(filter) => filter,
        Err(status) => return status,
    };
    let lines = Lines {
        filter: &filter,
        form,
    };
    match cases_in(rt, folder) {
        Ok(cases) => write_cases(rt, &cases, Asked::Lines(lines), jobs),
        Err(error) => say_unread(rt, folder, error),
    }
}
