//! Lines of the trail that tell no entry: that what a step back took away is undone outside, or that the case was moved.
ghost use Rattle.std.specs.Prelude.{◌≡◌, ◌↔◌, ◌-◌, ◌^◌, ◌<◌, ◌∷◌, ◌++◌, [], ℕ, List, true, false, Err, IfOk, OnOk, IsErr};
ghost use Rattle.std.specs.Result.{is_err};
ghost use Rattle.flow_ask.specs.declared.refusal.Refusal.TheVariants as refusal;
ghost use Rattle.flow_trail.specs.Lines.{said_of, undone, remark as remark_of};
ghost use Rattle.flow_case_cli.specs.Asked.{TellsLine};

use crate::asker::Asker;
use crate::case::Case;
use flow_ask::Refusal;
use flow_disk::Disk;
use flow_trail::{About, Remark, TrailLine};
use std::alloc::{AllocError, Global};

/// The line about a text and an entry.
fn remark_line(
    alloc: Global,
    about: About,
    text: &str,
    entry: u32,
    asker: Asker<'_>,
) -> Result<TrailLine, AllocError>
    ensures { IfOk result (λ line. said_of line ≡ remark_of about text.now entry asker.entry.name.now asker.entry.at.now) }
{
    Ok(TrailLine::Remark(Remark {
        about,
        text: String::from_str(alloc, text)?,
        entry,
        by: String::from_str(alloc, asker.name)?,
        at: String::from_str(alloc, asker.at)?,
    }))
}

impl<D: Disk, T: Disk> Case<D, T> {
    ghost use Rattle.flow_case_cli.specs.Held.{case_of, keep_disk, trail_disk, start_of, said_in, is_broken};

    /// Tells a remark in the trail. The line is in the file when this answers; the run stays as it is. Where the disk fails, or memory is
    /// wanting, the case is broken.
    pub fn remark(
        &mut self,
        alloc: Global,
        about: About,
        text: &str,
        entry: u32,
        asker: Asker<'_>,
    ) -> Result<(), Refusal>
        requires { is_broken self.old ≡ false → T.faults (trail_disk self.old) < 2 ^ 64 - 1 }
        ensures broken { (result ≡ Err refusal.Broken) ↔ (is_broken self.old ≡ true) }
        ensures refused { is_broken self.old ≡ false → is_broken self.new ≡ is_err result }
        ensures stays { is_broken self.old ≡ true → self.new ≡ self.old }
        // only the trail has a line more
        ensures run { case_of self.new ≡ case_of self.old }
        ensures keep { keep_disk self.new ≡ keep_disk self.old }
        ensures start { start_of self.new ≡ start_of self.old }
        ensures faults { is_broken self.new ≡ false → T.faults (trail_disk self.new) ≡ T.faults (trail_disk self.old) }
        ensures told { is_broken self.old ≡ false → TellsLine T.tells T.moment T.image (start_of self.old) (said_in self.old)
            (remark_of about text.now entry asker.entry.name.now asker.entry.at.now) (trail_disk self.old) (trail_disk self.new) (said_in self.new) (is_broken self.new) }
    {
        if self.broken {
            return Err(Refusal::Broken);
        }
        self.broken = true;
        let Ok(line) = remark_line(alloc, about, text, entry, asker) else {
            return Err(Refusal::Disk);
        };
        match self.trail.tell(alloc, line) {
            Ok(()) => {
                self.broken = false;
                Ok(())
            }
            Err(_) => Err(Refusal::Disk),
        }
    }

    /// Ticks off a task that a step back took away and that is undone outside, by the number, from 1, of the entry by which it was done. As
    /// `remark`.
    pub fn tick(
        &mut self,
        alloc: Global,
        task: &str,
        entry: u32,
        asker: Asker<'_>,
    ) -> Result<(), Refusal>
        requires { is_broken self.old ≡ false → T.faults (trail_disk self.old) < 2 ^ 64 - 1 }
        ensures broken { (result ≡ Err refusal.Broken) ↔ (is_broken self.old ≡ true) }
        ensures refused { is_broken self.old ≡ false → is_broken self.new ≡ is_err result }
        ensures stays { is_broken self.old ≡ true → self.new ≡ self.old }
        // only the trail has a line more
        ensures run { case_of self.new ≡ case_of self.old }
        ensures keep { keep_disk self.new ≡ keep_disk self.old }
        ensures start { start_of self.new ≡ start_of self.old }
        ensures faults { is_broken self.new ≡ false → T.faults (trail_disk self.new) ≡ T.faults (trail_disk self.old) }
        ensures told { is_broken self.old ≡ false → TellsLine T.tells T.moment T.image (start_of self.old) (said_in self.old)
            (undone task.now entry asker.entry.name.now asker.entry.at.now) (trail_disk self.old) (trail_disk self.new) (said_in self.new) (is_broken self.new) }
    {
        self.remark(alloc, About::Undone, task, entry, asker)
    }
}
