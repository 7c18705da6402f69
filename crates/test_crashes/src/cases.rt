//! The case, and what its users say to it.

ghost use Rattle.std.specs.Prelude.{◌≡◌, IfOk};

use crate::disks::{Home, LentDisk, MOST_CALLS, lend};
use anyhow::Result;
use flow_case_book::{Asker, CaseBook, KeptTexts, open_case};
use flow_case_cli::step_words;
use flow_case_talk::{Book, Form};
use flow_disk::Disk;
use std::alloc::Global;

/// A case over disks that come home.
pub(crate) type LentCase = CaseBook<LentDisk, LentDisk>;

/// What the case is of.
#[derive(Drop)]
pub(crate) struct Texts {
    pub(crate) workflow: Vec<u8>,
    pub(crate) policy: Vec<u8>,
}

/// The bytes of the two files of a case.
#[derive(Drop)]
pub(crate) struct Files {
    pub(crate) entries: Vec<u8>,
    pub(crate) trail: Vec<u8>,
}

impl Files {
    pub(crate) fn empty(alloc: Global) -> Files {
        Files {
            entries: Vec::new(alloc),
            trail: Vec::new(alloc),
        }
    }
}

/// The calls at which the disks stop.
#[derive(Clone, Copy)]
pub(crate) struct Stop {
    pub(crate) entries: u32,
    pub(crate) trail: u32,
}

impl Stop {
    /// They do not.
    pub(crate) const NEVER: Stop = Stop {
        entries: MOST_CALLS,
        trail: MOST_CALLS,
    };
}

/// Where the disks of a case are found once it is let go.
#[derive(Drop)]
pub(crate) struct Homes {
    pub(crate) entries: Home,
    pub(crate) trail: Home,
}

/// The disks of a case, and where they are found once it is let go.
#[derive(Drop)]
struct Lent {
    entries: LentDisk,
    trail: LentDisk,
    homes: Homes,
}

/// Disks with these bytes, that stop there.
fn lend_both(alloc: Global, files: Files, stop: Stop) -> Result<Lent>
    ensures entries { IfOk result (λ lent. ⟦<LentDisk as Disk>⟧.faults lent.entries ≡ 0) }
    ensures trail { IfOk result (λ lent. ⟦<LentDisk as Disk>⟧.faults lent.trail ≡ 0) }
{
    let Files { entries, trail } = files;
    let (entries, entries_home) = lend(alloc, entries, stop.entries)?;
    let (trail, trail_home) = lend(alloc, trail, stop.trail)?;
    let homes = Homes {
        entries: entries_home,
        trail: trail_home,
    };
    Ok(Lent {
        entries,
        trail,
        homes,
    })
}

/// The texts, to be kept with the case.
fn kept(alloc: Global, texts: &Texts) -> Result<KeptTexts> {
    let path = String::from_str(alloc, "invoice_7")?;
    let workflow = texts.workflow.clone()?;
    let policy = texts.policy.clone()?;
    Ok(KeptTexts {
        path,
        workflow,
        policy: Some(policy),
        tidied: false,
    })
}

/// Opens the case of these files, over disks that stop there. No case comes of it where a disk fails, or the files are of no such case.
pub(crate) fn opened(
    alloc: Global,
    texts: &Texts,
    files: Files,
    stop: Stop,
) -> Result<(Option<LentCase>, Homes)> {
    let at = String::from_str(alloc, "2026-11-30T12:00:00Z")?;
    let kept = kept(alloc, texts)?;
    let Lent {
        entries,
        trail,
        homes,
    } = lend_both(alloc, files, stop)?;
    Ok((open_case(alloc, kept, entries, trail, at).ok(), homes))
}

/// What users said to a case.
#[derive(Drop)]
pub(crate) struct Said {
    /// How many entries there were after each line, as far as it was replied to.
    pub(crate) counts: Vec<usize>,
    /// Whether a line was not, because a disk failed.
    pub(crate) is_cut: bool,
}

/// Whether a reply says that a step could not be kept.
fn says_that_it_is_broken(reply: &[u8]) -> bool {
    str::from_utf8(reply).is_ok_and(|text| text.contains("could not be kept"))
}

/// Says a line to the case. Whether it is replied to, and no disk failed.
fn say_one(case: &mut LentCase, name: &str, line: &str) -> Result<bool> {
    let asker = Asker {
        name,
        at: "2026-11-30T09:00:00Z",
        note: "",
    };
    let reply = case.reply(asker, line.as_bytes(), Form::Words)?;
    Ok(!says_that_it_is_broken(&reply.text))
}

/// Says the lines to the case, up to the first at which a disk fails.
pub(crate) fn say(alloc: Global, case: &mut LentCase, lines: &[(&str, &str)]) -> Result<Said> {
    let mut counts = Vec::new(alloc);
    for (name, line) in lines {
        if !say_one(case, name, line)? {
            return Ok(Said {
                counts,
                is_cut: true,
            });
        }
        counts.push(case.core().history().len())?;
    }
    Ok(Said {
        counts,
        is_cut: false,
    })
}

/// The entries of the case, each with its user and its step.
pub(crate) fn history_of(alloc: Global, case: &LentCase) -> Result<Vec<String>> {
    let mut history = Vec::new(alloc);
    for entry in case.core().history() {
        let step = step_words(alloc, entry.step)?;
        history.push(format!(in alloc; "{}: {}", entry.by, step)?)?;
    }
    Ok(history)
}
