//! The lines of many cases, in order, looked at by several threads.
ghost use Rattle.std.specs.Prelude.{◌≡◌, ◌<◌, ℕ, List, IfOk, length, slice_get, Some, Ok};
ghost use Rattle.flow_case_seen.specs.All.{AreLines, AreToldAt};

use std::alloc::{AllocError, Global};
use std::thread::{Threads, for_each_mut};

/// Cases, by their places. Several threads may look at them at a time.
pub trait Cases: Sync {
    // what the text may be that is told of the case at a place
    ghost tells: { Self → ℕ → List ℕ → Type 0 };

    /// What is told of the case at that place: its line, or nothing where it is not shown. An error is want of memory.
    fn line(&self, alloc: Global, place: usize) -> Result<Vec<u8>, AllocError>
        ensures { IfOk result (λ line. tells self.now place line.items) };
}

/// What a worker found at a place.
type Slot = Result<Vec<u8>, AllocError>;

/// So many places in which nothing is told yet.
fn slots_of(alloc: Global, count: usize) -> Result<Vec<Slot>, AllocError>
    ensures { IfOk result (λ slots. length slots.items ≡ count) }
{
    let mut slots = Vec::with_capacity(alloc, count)?;
    for _ in 0..count {
        slots.push(Ok(Vec::new(alloc)))?;
    }
    Ok(slots)
}

/// What is told of each case, by so many threads at most.
fn told_by<R: Threads + Sync, C: Cases>(
    rt: &R,
    alloc: Global,
    cases: &C,
    slots: &mut [Slot],
    threads: usize,
)
    requires { 0 < threads }
    ensures { AreToldAt (C.tells cases.now) (length slots.old) slots.new }
{
    for_each_mut(
        rt,
        slots,
        threads,
        &|place: usize, slot: &mut Slot|
            ensures { IfOk slot.exit.now (λ line. C.tells cases.entry.now place line.items) }
        { *slot = cases.line(alloc, place) },
    );
}

/// What is told of the cases, in order.
#[tactic(auto, using(crate::proofs::AllLines::no_lines, crate::proofs::AllLines::one_line_more))]
fn joined<C: Cases>(alloc: Global, cases: &C, slots: &[Slot]) -> Result<Vec<u8>, AllocError>
    requires { AreToldAt (C.tells cases.now) (length slots.now) slots.now }
    ensures { IfOk result (λ text. AreLines (C.tells cases.now) (length slots.now) text.items) }
{
    let mut text = Vec::new(alloc);
    for slot in slots {
        match slot {
            Ok(line) => text.extend_from_slice(line)?,
            Err(_) => return Err(AllocError),
        }
    }
    Ok(text)
}

/// What is told of the first so many cases, in order. They are looked at by so many workers, each in a thread of its own where one can
/// be made.
pub fn all_lines<R: Threads + Sync, C: Cases>(
    rt: &R,
    alloc: Global,
    cases: &C,
    count: usize,
    workers: u32,
) -> Result<Vec<u8>, AllocError>
    ensures { IfOk result (λ text. AreLines (C.tells cases.now) count text.items) }
{
    let mut slots = slots_of(alloc, count)?;
    told_by(rt, alloc, cases, &mut slots, workers.max(1) as usize);
    joined(alloc, cases, &slots)
}
