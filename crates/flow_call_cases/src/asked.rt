//! Cases: folders that are driven by names.
ghost use Rattle.std.specs.Prelude.{◌≡◌};

use crate::faults::{say_folder, say_stop};
use crate::words::line_in;
use clap::ArgMatches;
use flow_call::{DISK, NO_MEMORY, REFUSED, stamp, write_out};
use flow_case_book::{Asker, CaseBook, KeptTexts, open_case};
use flow_case_files::{CaseDisks, FolderFault, is_cut_off, open_disks, read_case};
use flow_case_talk::{Form, Outcome, Reply, begin_line, idle_lines};
use flow_disk::{Disk, FileDisk};
use std::alloc::AllocError;
use std::env;
use std::fs::File;
use std::rt::{Env, Files};
use std::time::{Clock, Duration};

/// How many seconds a command waits for another one, where it is not told.
pub(crate) const WAIT: u64 = 5;

/// A case in files of the system.
pub type FileCase<'a, R> = CaseBook<FileDisk<'a, R>, FileDisk<'a, R>>;

/// The words that say who asks, and when.
#[derive(Drop)]
pub struct AskerWords {
    pub name: String,
    pub at: String,
    pub note: String,
}

/// The text that is given, or else the other.
fn text_or<R: AllocGlobal>(rt: &R, given: Option<&str>, other: &str) -> Result<String, AllocError> {
    let text = given.unwrap_or(other);
    format!(in rt.alloc(); "{text}")
}

/// The name under which the process runs.
fn login_name<R: Env + AllocGlobal>(rt: &R) -> Result<String, AllocError> {
    match env::var(rt, "USER") {
        Ok(name) => Ok(name),
        Err(_) => format!(in rt.alloc(); "nobody"),
    }
}

/// Who asks, by the words of the call.
pub fn asker_in<R: Env + Clock + AllocGlobal>(
    rt: &R,
    words: &ArgMatches<'_>,
) -> Result<AskerWords, AllocError> {
    let name = match words.get_str("as") {
        Some(name) => format!(in rt.alloc(); "{name}")?,
        None => login_name(rt)?,
    };
    let at = match words.get_str("at") {
        Some(at) => format!(in rt.alloc(); "{at}")?,
        None => stamp(rt)?,
    };
    let note = text_or(rt, words.get_str("note"), "")?;
    Ok(AskerWords { name, at, note })
}

/// How long to wait for another command.
pub fn wait_in(words: &ArgMatches<'_>) -> Duration {
    let seconds = match words.get_str("wait") {
        Some(text) => text.parse::<u64>().unwrap_or(WAIT),
        None => WAIT,
    };
    Duration::from_secs(seconds.min(86_400))
}

fn form_in(words: &ArgMatches<'_>) -> Form {
    if words.get_flag("json") {
        Form::Json
    } else {
        Form::Words
    }
}

/// Says why a case is not read, and gives the status. A move that was cut off is told as such.
fn say_unread_case<R: Files<File = File> + AllocGlobal + Eprint>(
    rt: &R,
    case: &str,
    fault: FolderFault,
) -> u8 {
    match is_cut_off(rt, case) {
        Ok(true) => {
            drop(fault);
            let _ = eprintln!(rt;
                "{case}: a move was cut off: `flowdesk move {case}` finishes it. Nothing is lost"
            );
            DISK
        }
        Ok(false) => say_folder(rt, case, fault),
        Err(AllocError) => {
            drop(fault);
            NO_MEMORY
        }
    }
}

/// The texts of the case, to be kept with it.
fn texts_of<R: Files<File = File> + AllocGlobal + Eprint>(
    rt: &R,
    case: &str,
) -> Result<KeptTexts, u8> {
    let texts = match read_case(rt, case) {
        Ok(texts) => texts,
        Err(fault) => return Err(say_unread_case(rt, case, fault)),
    };
    match text_or(rt, None, case) {
        Ok(path) => Ok(KeptTexts {
            path,
            workflow: texts.workflow,
            policy: texts.policy,
            tidied: texts.tidied,
        }),
        Err(AllocError) => Err(NO_MEMORY),
    }
}

/// Opens the case for this process alone. Its texts are read once it is: till then it may be moved.
pub fn opened<'a, R: Files<File = File> + Clock + AllocGlobal + Eprint>(
    rt: &'a R,
    case: &str,
    wait: Duration,
    at: &str,
) -> Result<FileCase<'a, R>, u8> {
    // a folder that is no case stays as it is
    let seen = texts_of(rt, case)?;
    drop(seen);
    let Ok(at) = text_or(rt, None, at) else {
        return Err(NO_MEMORY);
    };
    match open_disks(rt, case, wait) {
        Ok(disks) => opened_with(rt, case, disks, at),
        Err(fault) => Err(say_folder(rt, case, fault)),
    }
}

/// The case of these files.
fn opened_with<'a, R: Files<File = File> + Clock + AllocGlobal + Eprint>(
    rt: &'a R,
    case: &str,
    disks: CaseDisks<'a, R>,
    at: String,
) -> Result<FileCase<'a, R>, u8>
    requires entries { ⟦<FileDisk<'a, R> as Disk>⟧.faults disks.entries ≡ 0 }
    requires trail { ⟦<FileDisk<'a, R> as Disk>⟧.faults disks.trail ≡ 0 }
{
    let kept = match texts_of(rt, case) {
        Ok(kept) => kept,
        Err(status) => {
            drop(disks);
            drop(at);
            return Err(status);
        }
    };
    let CaseDisks { entries, trail } = disks;
    match open_case(rt.alloc(), kept, entries, trail, at) {
        Ok(book) => Ok(book),
        Err(stop) => Err(say_stop(rt, case, stop)),
    }
}

/// Writes a reply, and gives the status. Where the call is to be quiet, what was made is not told.
fn say(rt: &(impl Print + Eprint), words: &ArgMatches<'_>, reply: &Reply) -> u8 {
    if reply.outcome == Outcome::Made && words.get_flag("quiet") {
        return 0;
    }
    match write_out(rt, &reply.text) {
        0 if reply.outcome == Outcome::Refused => REFUSED,
        status => status,
    }
}

/// Asks the case one line, and writes the reply.
pub(crate) fn ask_line<'a, R: Files<File = File> + AllocGlobal + Print + Eprint>(
    rt: &R,
    book: &mut FileCase<'a, R>,
    words: &ArgMatches<'_>,
    asker: &AskerWords,
    line: &[u8],
) -> u8 {
    let asker = Asker {
        name: asker.name.as_str(),
        at: asker.at.as_str(),
        note: asker.note.as_str(),
    };
    match book.reply(asker, line, form_in(words)) {
        Ok(reply) => say(rt, words, &reply),
        Err(AllocError) => NO_MEMORY,
    }
}

/// Opens the case and asks it one line.
fn ask_once<R: Files<File = File> + Clock + AllocGlobal + Print + Eprint>(
    rt: &R,
    words: &ArgMatches<'_>,
    asker: &AskerWords,
    line: &[u8],
) -> u8 {
    let case = words.get_str("case").unwrap_or("");
    match opened(rt, case, wait_in(words), &asker.at) {
        Ok(mut book) => {
            let status = ask_line(rt, &mut book, words, asker, line);
            drop(book);
            status
        }
        Err(status) => status,
    }
}

/// One command on a case.
pub fn ask_case<R: Files<File = File> + Env + Clock + AllocGlobal + Print + Eprint>(
    rt: &R,
    name: &str,
    words: &ArgMatches<'_>,
) -> u8 {
    let Ok(asker) = asker_in(rt, words) else {
        return NO_MEMORY;
    };
    match line_in(rt.alloc(), name, words) {
        Ok(line) => ask_once(rt, words, &asker, line.as_bytes()),
        Err(AllocError) => NO_MEMORY,
    }
}

/// Says which tasks nobody may take.
pub(crate) fn say_idle<'a, R: Files<File = File> + AllocGlobal + Print + Eprint>(
    rt: &R,
    book: &FileCase<'a, R>,
) -> u8 {
    match idle_lines(rt.alloc(), book) {
        Ok(lines) => write_out(rt, &lines),
        Err(AllocError) => NO_MEMORY,
    }
}

/// Says what may be begun.
pub fn say_begin<'a, R: Files<File = File> + AllocGlobal + Print + Eprint>(
    rt: &R,
    book: &mut FileCase<'a, R>,
) -> u8 {
    match begin_line(rt.alloc(), book) {
        Ok(line) => write_out(rt, &line),
        Err(AllocError) => NO_MEMORY,
    }
}
