ghost use Rattle.std.specs.Prelude.{◌≡◌, ◌↔◌, ◌⊎◌, ◌+◌, ◌-◌, ◌^◌, ◌<◌, ◌≤◌, map, [], ◌∷◌, ◌++◌, ℕ, List, length, drop, true, false, Ok, Err, IfOk, OnOk};
ghost use Rattle.flow_disk.specs.Disk.{Leaves};
ghost use Rattle.flow_trail.specs.Whole.{line_of};
ghost use Rattle.flow_trail.specs.Lines.{said_of, line_text, trail_text, CanFollow, end_of, end_behind, Says};
ghost use Rattle.flow_trail.specs.Kept.{SaysEither};
ghost use Rattle.flow_trail.specs.declared.refusal.TellRefusal.TheVariants.{Broken, OutOfPlace, NoMemory, Full, DiskFault};

use crate::append::append;
use crate::line::{TrailEnd, TrailLine};
use crate::print::print_line;
use crate::refusal::TellRefusal;
use crate::trail::{MOST_BYTES, Trail};
use flow_disk::{Disk, DiskFailed};
use std::alloc::{AllocError, Global};

/// The line without its first byte, with its newline and one more, and where the trail ends behind it.
fn print_rest(
    alloc: Global,
    end: &TrailEnd,
    line: &TrailLine,
) -> Result<(Vec<u8>, TrailEnd), AllocError>
    requires { CanFollow end.now (said_of line.now) }
    ensures line { IfOk result (λ printed. line_of printed.0.items ≡ line_text end.now (said_of line.now) ++ 10 ∷ []) }
    ensures shut { IfOk result (λ printed. drop (length printed.0.items - 1) printed.0.items ≡ 10 ∷ []) }
    ensures behind { IfOk result (λ printed. printed.1 ≡ end_behind end.now (said_of line.now)) }
{
    let (mut text, next) = print_line(alloc, end, line)?;
    text.extend_from_slice(b"\n\n")?;
    text.remove(0);
    Ok((text, next))
}

impl<D: Disk> Trail<D> {
    ghost use Rattle.flow_trail.specs.Held.{start_of, said_in, disk_of, is_broken, place_of};

    /// Adds a line, which is in the file when this answers.
    pub fn tell(&mut self, alloc: Global, line: TrailLine) -> Result<(), TellRefusal>
        requires { D.faults (disk_of self.old) < 2 ^ 64 - 1 }
        ensures start { start_of self.new ≡ start_of self.old }
        ensures told { OnOk result (said_in self.new ≡ said_in self.old ++ said_of line ∷ []) }
        ensures whole { OnOk result (is_broken self.new ≡ false) }
        // it is refused
        ensures broken { (result ≡ Err Broken) ↔ (is_broken self.old ≡ true) }
        ensures out_of_place { (result ≡ Err OutOfPlace) ↔ ((is_broken self.old ≡ false) × ¬ (CanFollow (end_of (start_of self.old) (said_in self.old)) (said_of line))) }
        ensures fault { (result ≡ Err DiskFault) ↔ (D.faults (disk_of self.old) < D.faults (disk_of self.new)) }
        ensures no_fault { OnOk result (D.faults (disk_of self.new) ≡ D.faults (disk_of self.old)) }
        ensures one_fault { result ≡ Err DiskFault → (D.faults (disk_of self.new) ≡ D.faults (disk_of self.old) + 1) × (is_broken self.new ≡ true) }
        ensures same { (result ≡ Err Broken) ⊎ ((result ≡ Err OutOfPlace) ⊎ ((result ≡ Err NoMemory) ⊎ (result ≡ Err Full))) →
            (said_in self.new ≡ said_in self.old) × (disk_of self.new ≡ disk_of self.old) × (is_broken self.new ≡ is_broken self.old) }
        // what a crash leaves
        ensures same_file { D.chosen (disk_of self.new) ≡ D.chosen (disk_of self.old) }
        ensures any_moment { D.tells → is_broken self.old ≡ false → Leaves D.moment D.image (disk_of self.old) (disk_of self.new)
            (SaysEither (start_of self.old) (said_in self.old) (said_of line)) }
        ensures durable { D.tells → is_broken self.new ≡ false → (c : List ℕ) →
            D.image (disk_of self.new) (D.moment (disk_of self.new)) c → Says (start_of self.new) (said_in self.new) c }
    {
        let (rest, next) = self.prepare(alloc, &line)?;
        self.lines.push(line)?;
        let kept = append(&mut self.disk, self.place, &rest);
        self.place += rest.as_slice().len() as u64;
        self.end = next;
        self.broken = kept.is_err();
        match kept {
            Ok(()) => Ok(()),
            Err(DiskFailed) => Err(TellRefusal::DiskFault),
        }
    }

    /// The line as it is written behind its gate, and where the trail ends behind it.
    fn prepare(&self, alloc: Global, line: &TrailLine) -> Result<(Vec<u8>, TrailEnd), TellRefusal>
        ensures broken { (result ≡ Err Broken) ↔ (is_broken self.now ≡ true) }
        ensures out_of_place { (result ≡ Err OutOfPlace) ↔ ((is_broken self.now ≡ false) × ¬ (CanFollow (end_of (start_of self.now) (said_in self.now)) (said_of line.now))) }
        ensures no_fault { ¬ (result ≡ Err DiskFault) }
        ensures whole { OnOk result (is_broken self.now ≡ false) }
        ensures follows { OnOk result (CanFollow (end_of (start_of self.now) (said_in self.now)) (said_of line.now)) }
        ensures line { IfOk result (λ printed. line_of printed.0.items ≡ line_text (end_of (start_of self.now) (said_in self.now)) (said_of line.now) ++ 10 ∷ []) }
        ensures shut { IfOk result (λ printed. drop (length printed.0.items - 1) printed.0.items ≡ 10 ∷ []) }
        ensures behind { IfOk result (λ printed. printed.1 ≡ end_behind (end_of (start_of self.now) (said_in self.now)) (said_of line.now)) }
        ensures room { IfOk result (λ printed. place_of self.now + length printed.0.items ≤ 2 ^ 40) }
    {
        if self.broken {
            return Err(TellRefusal::Broken);
        }
        if !self.end.allows(line) {
            return Err(TellRefusal::OutOfPlace);
        }
        let (rest, next) = print_rest(alloc, &self.end, line)?;
        if rest.as_slice().len() as u64 > MOST_BYTES - self.place {
            return Err(TellRefusal::Full);
        }
        Ok((rest, next))
    }

    /// What the lines say, in order.
    pub fn lines(&self) -> &[TrailLine]
        ensures said { map said_of result.now ≡ said_in self.now }
        ensures acknowledged { D.tells → is_broken self.now ≡ false → (c : List ℕ) →
            D.image (disk_of self.now) (D.moment (disk_of self.now)) c → Says (start_of self.now) (said_in self.now) c }
    {
        &self.lines
    }

    /// Where the trail ends: the last seal, and how many entries are told.
    pub fn end(&self) -> TrailEnd
        ensures { result ≡ end_of (start_of self.now) (said_in self.now) }
    {
        self.end
    }

    /// How many bytes the lines take. What stands behind them in the file means nothing.
    pub fn bytes(&self) -> u64
        ensures { result ≡ length (trail_text (start_of self.now) (said_in self.now)) }
    {
        self.place
    }

    /// Whether a call failed at the disk. From then on nothing is told any more.
    pub fn is_broken(&self) -> bool
        ensures { result ≡ is_broken self.now }
    {
        self.broken
    }

    /// The disk alone.
    pub fn into_disk(self) -> D
        ensures { result ≡ disk_of self }
    {
        let Trail {
            disk,
            start: _,
            lines,
            end: _,
            place: _,
            broken: _,
        } = self;
        drop(lines);
        disk
    }
}
