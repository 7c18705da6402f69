//! Rows of cases that are talked to: a case over memory, and the lines of its users.
//!
//! The input has a workflow, a policy, which may be empty, and lines, with `%%` between them. The lines `as USER`, `at TIME` and
//! `note TEXT` say who speaks from then on, when, and with which note; each other line is said to the case. The output has each of
//! these behind `> `, and the reply to it. The word `--tidy` says that the case was made with it. The line `new` has what is said of a
//! case that is new.

use crate::rows::Row;
use anyhow::{Context, Result, bail};
use flow_case_book::{Asker, CaseBook, KeptTexts, open_case};
use flow_case_talk::{Form, Reply, begin_line, idle_lines};
use flow_disk::MemDisk;
use std::alloc::Global;

/// Bytes for all writes of a row, to the entries and to the trail.
const POOL: usize = 65_536;

/// More calls than a row makes of a disk.
const CALLS: u32 = 4_000;

/// The status of a dialogue that comes to the end of its input, whatever was replied.
const IN_ORDER: u8 = 0;

/// A case in memory.
type MemCase = CaseBook<MemDisk, MemDisk>;

/// The parts of an input.
#[derive(Clone, Copy)]
struct Parts<'a> {
    workflow: &'a str,
    policy: &'a str,
    lines: &'a str,
}

fn parts_of(input: &str) -> Result<Parts<'_>> {
    let mut parts = input.split("%%\n");
    let workflow = parts.next().context("a row without a workflow")?;
    let policy = parts.next().context("a row without a policy")?;
    let lines = parts.next().context("a row without lines")?;
    Ok(Parts {
        workflow,
        policy,
        lines,
    })
}

/// The texts of a case.
fn texts_of(alloc: Global, path: &str, parts: Parts<'_>, tidied: bool) -> Result<KeptTexts> {
    let policy = if parts.policy.is_empty() {
        None
    } else {
        Some(parts.policy.as_bytes().to_vec(alloc)?)
    };
    Ok(KeptTexts {
        path: String::from_str(alloc, path)?,
        workflow: parts.workflow.as_bytes().to_vec(alloc)?,
        policy,
        tidied,
    })
}

/// A case that has no entry yet.
fn new_case(alloc: Global, path: &str, parts: Parts<'_>, tidied: bool) -> Result<MemCase> {
    let texts = texts_of(alloc, path, parts, tidied)?;
    let entries = MemDisk::new(alloc, Vec::new(alloc), POOL, CALLS)?;
    let trail = MemDisk::new(alloc, Vec::new(alloc), POOL, CALLS)?;
    match open_case(alloc, texts, entries, trail, String::new(alloc)) {
        Ok(case) => Ok(case),
        Err(_) => bail!("the case of a row is not opened"),
    }
}

/// Who speaks, when, and with which note.
#[derive(Clone, Copy)]
struct Saying<'a> {
    name: &'a str,
    at: &'a str,
    note: &'a str,
}

impl<'a> Saying<'a> {
    /// The same after a line, if the line tells one of them.
    fn told_by(self, line: &'a str) -> Option<Saying<'a>> {
        if let Some(name) = line.strip_prefix("as ") {
            return Some(Saying { name, ..self });
        }
        if let Some(at) = line.strip_prefix("at ") {
            return Some(Saying { at, ..self });
        }
        let note = line.strip_prefix("note ")?;
        Some(Saying { note, ..self })
    }

    /// What the case replies to the line.
    fn say(self, case: &mut MemCase, line: &str, form: Form) -> Result<Reply> {
        let asker = Asker {
            name: self.name,
            at: self.at,
            note: self.note,
        };
        Ok(case.reply(asker, line.as_bytes(), form)?)
    }
}

/// The form that the words ask for.
fn form_in(words: &[String]) -> Form {
    if has_word(words, "--json") {
        Form::Json
    } else {
        Form::Words
    }
}

/// Whether the words have that one.
fn has_word(words: &[String], wanted: &str) -> bool {
    words.iter().any(|word| word.as_str() == wanted)
}

/// What is written of the dialogue of these lines.
fn speak(case: &mut MemCase, alloc: Global, lines: &str, form: Form) -> Result<Vec<u8>> {
    let mut saying = Saying {
        name: "nobody",
        at: "2026-11-30T09:00:00Z",
        note: "",
    };
    let mut written = Vec::new(alloc);
    for line in lines.lines() {
        if let Some(other) = saying.told_by(line) {
            saying = other;
            continue;
        }
        let said = if line == "new" {
            new_text(alloc, case)?
        } else {
            saying.say(case, line, form)?.text
        };
        push_reply(&mut written, line, &said)?;
    }
    Ok(written)
}

/// The status of the dialogue that a row describes, and what is written.
pub(crate) fn spoken_by(alloc: Global, words: &[String], row: &Row<'_>) -> Result<(u8, Vec<u8>)> {
    let path = words.get(2).context("a dialogue without a case")?;
    let input = str::from_utf8(&row.input).context("no text is read")?;
    let parts = parts_of(input)?;
    let mut case = new_case(alloc, path.as_str(), parts, has_word(words, "--tidy"))?;
    let spoken = speak(&mut case, alloc, parts.lines, form_in(words));
    drop(case);
    Ok((IN_ORDER, spoken?))
}

/// What is said of a case that is new.
fn new_text(alloc: Global, case: &mut MemCase) -> Result<Vec<u8>> {
    let mut text = idle_lines(alloc, case)?;
    text.extend_from_slice(&begin_line(alloc, case)?)?;
    Ok(text)
}

/// Adds the line and the reply to it.
fn push_reply(written: &mut Vec<u8>, line: &str, reply: &[u8]) -> Result<()> {
    written.extend_from_slice(b"> ")?;
    written.extend_from_slice(line.as_bytes())?;
    written.push(b'\n')?;
    Ok(written.extend_from_slice(reply)?)
}
