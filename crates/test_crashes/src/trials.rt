//! A disk of the case stops at a call. What a crash leaves of both disks is opened again, and goes on.
ghost use Rattle.std.specs.Prelude.{◌≤◌};
ghost use Rattle.test_crashes.specs.declared.lines.TheConstants.{COUNT};

use crate::cases::{Files, LentCase, Stop, Texts, history_of, opened, say};
use crate::disks::{CRASHES, MOST_CALLS, left};
use crate::lines::{COUNT, LINES};
use anyhow::{Context, Result};
use flow_disk::MemDisk;
use std::alloc::Global;

/// The disk that stops.
#[derive(Clone, Copy)]
pub(crate) enum Stops {
    Entries,
    Trail,
}

impl Stops {
    /// It stops at the call of that number.
    fn at(self, call: u32) -> Stop {
        match self {
            Stops::Entries => Stop {
                entries: call,
                ..Stop::NEVER
            },
            Stops::Trail => Stop {
                trail: call,
                ..Stop::NEVER
            },
        }
    }
}

/// How it went where a disk stops at a call.
#[derive(Clone, Copy, PartialEq, Eq)]
enum Went {
    /// The session makes no call of that number.
    Whole,
    Right,
    Wrong,
}

/// The whole session, and what was seen of its entries in crashes.
#[derive(Drop)]
pub(crate) struct Trial {
    /// The entries of the session, with nothing failing.
    pub(crate) history: Vec<String>,
    /// How many there are after each line.
    counts: Vec<usize>,
    /// Of each entry, whether a crash while it was made left a case without it.
    without: Vec<bool>,
    /// And whether one left a case with it.
    with: Vec<bool>,
}

/// Whether a case with that history keeps what was told, and at most the one step more that was under way.
fn is_front(history: &[String], kept: &[String], told: usize) -> bool {
    let count = kept.len();
    count >= told && count <= told.saturating_add(1) && history.starts_with(kept)
}

/// How many entries were told before a disk stopped; none where none did.
fn told_before_stop(alloc: Global, case: Option<LentCase>) -> Result<Option<usize>> {
    let Some(case) = case else {
        return Ok(Some(0));
    };
    let mut case = case;
    let said = say(alloc, &mut case, &LINES);
    drop(case);
    let said = said?;
    if said.is_cut {
        return Ok(Some(said.counts.last().copied().unwrap_or(0)));
    }
    Ok(None)
}

/// Marks a place.
fn mark(marks: &mut [bool], place: usize) {
    if let Some(mark) = marks.get_mut(place) {
        *mark = true;
    }
}

impl Trial {
    /// The session with nothing failing.
    pub(crate) fn of_whole_session(alloc: Global, texts: &Texts) -> Result<Trial> {
        let (case, homes) = opened(alloc, texts, Files::empty(alloc), Stop::NEVER)?;
        drop(homes);
        let mut case = case.context("the case is not opened")?;
        let trial = Trial::of_session(alloc, &mut case);
        drop(case);
        trial
    }

    /// The session in this case.
    fn of_session(alloc: Global, case: &mut LentCase) -> Result<Trial> {
        let said = say(alloc, case, &LINES)?;
        let history = history_of(alloc, case)?;
        let count = history.len();
        let without = vec![in alloc; false; count]?;
        let with = vec![in alloc; false; count]?;
        Ok(Trial {
            history,
            counts: said.counts,
            without,
            with,
        })
    }

    /// Whether it goes right at whichever call the disk stops. It stops at one at least.
    pub(crate) fn stop_at_each_call(
        &mut self,
        alloc: Global,
        texts: &Texts,
        stops: Stops,
    ) -> Result<bool> {
        for call in 0..MOST_CALLS {
            match self.stop(alloc, texts, stops.at(call))? {
                Went::Right => {}
                Went::Wrong => return Ok(false),
                Went::Whole => return Ok(call > 0),
            }
        }
        Ok(false)
    }

    /// The session over disks that stop there, and each crash of them.
    fn stop(&mut self, alloc: Global, texts: &Texts, stop: Stop) -> Result<Went> {
        let (case, homes) = opened(alloc, texts, Files::empty(alloc), stop)?;
        let Some(told) = told_before_stop(alloc, case)? else {
            return Ok(Went::Whole);
        };
        let entries = homes.entries.take().context("the entries are lost")?;
        let trail = homes.trail.take().context("the trail is lost")?;
        self.crash(alloc, texts, &entries, &trail, told)
    }

    /// Each crash of the disks, after so many entries were told.
    fn crash(
        &mut self,
        alloc: Global,
        texts: &Texts,
        entries: &MemDisk,
        trail: &MemDisk,
        told: usize,
    ) -> Result<Went> {
        for of_entries in CRASHES {
            for of_trail in CRASHES {
                let files = Files {
                    entries: left(alloc, entries, of_entries)?,
                    trail: left(alloc, trail, of_trail)?,
                };
                if !self.goes_on(alloc, texts, files, told)? {
                    return Ok(Went::Wrong);
                }
            }
        }
        Ok(Went::Right)
    }

    /// Whether the case of these files has what was told, and comes to the same end as the session with nothing failing. It is opened
    /// under its policy, so its duties hold.
    fn goes_on(&mut self, alloc: Global, texts: &Texts, files: Files, told: usize) -> Result<bool> {
        let (case, homes) = opened(alloc, texts, files, Stop::NEVER)?;
        drop(homes);
        match case {
            Some(case) => {
                let mut case = case;
                let went = self.ends(alloc, &mut case, told);
                drop(case);
                went
            }
            None => Ok(false),
        }
    }

    /// Whether the case has what was told, and comes to the same end.
    fn ends(&mut self, alloc: Global, case: &mut LentCase, told: usize) -> Result<bool> {
        let Some(kept) = self.front_of(alloc, case, told)? else {
            return Ok(false);
        };
        let done = self.lines_done(kept);
        let said = say(alloc, case, &LINES[done..])?;
        Ok(!said.is_cut && self.is_whole(alloc, case)?)
    }

    /// How many entries the case has, which are what was told, and at most one more; none where they are others. It is noted which.
    fn front_of(&mut self, alloc: Global, case: &LentCase, told: usize) -> Result<Option<usize>> {
        let kept = history_of(alloc, case)?;
        if !is_front(&self.history, &kept, told) || case.verify().is_err() {
            return Ok(None);
        }
        if kept.len() == told {
            mark(&mut self.without, told);
        } else {
            mark(&mut self.with, told);
        }
        Ok(Some(kept.len()))
    }

    /// Whether the case has the whole history, and its trail is that of it.
    fn is_whole(&self, alloc: Global, case: &LentCase) -> Result<bool> {
        let history = history_of(alloc, case)?;
        Ok(history == self.history && case.verify().is_ok())
    }

    /// How many lines are done where so many entries are kept.
    fn lines_done(&self, kept: usize) -> usize
        ensures { result ≤ COUNT }
    {
        let done = self
            .counts
            .iter()
            .position(|count| *count > kept)
            .unwrap_or(COUNT);
        done.min(COUNT)
    }

    /// Whether each entry was left out by a crash while it was made, and kept by another.
    pub(crate) fn saw_both_ends_of_each_entry(&self) -> bool {
        self.without.iter().all(|seen| *seen) && self.with.iter().all(|seen| *seen)
    }
}
