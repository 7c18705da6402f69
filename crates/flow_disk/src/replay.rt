ghost use Rattle.std.specs.Prelude.{◌≡◌, ◌+◌, ◌-◌, ◌≤◌, [], ◌∷◌, length, vec_len, vec_capacity, take, drop, replicate, IsOk, IfOk, OnOk};
ghost use Rattle.flow_disk.specs.Change.{written};

use crate::change::Change;
use std::alloc::{AllocError, Global};

/// Puts the bytes at the place, over what stands there and behind it.
pub(crate) fn put(shown: &mut Vec<u8>, at: usize, bytes: &[u8]) -> Result<(), AllocError>
    requires { at ≤ vec_len shown.old }
    ensures put { OnOk result (shown.new.items ≡ written shown.old.items at bytes.now) }
    ensures succeeds { vec_len shown.old + length bytes.now ≤ vec_capacity shown.old → IsOk result }
    ensures capacity { vec_capacity shown.old ≤ vec_capacity shown.new }
{
    let over = bytes.len().min(shown.len() - at);
    shown[at..at + over].copy_from_slice(&bytes[..over]);
    shown.extend_from_slice(&bytes[over..])
}

/// A file while its changes are gone through again.
#[derive(Drop)]
pub(crate) struct Replay {
    alloc: Global,
    /// What a read gave.
    pub(crate) seen: Vec<u8>,
    /// What a crash might have left.
    pub(crate) left: Vec<u8>,
    /// How many bytes of the pool were taken.
    pub(crate) taken: usize,
}

impl Replay {
    ghost use Rattle.flow_disk.specs.Replay.{CanStep, Steps};

    /// The file as it was at first.
    pub(crate) fn new(alloc: Global, first: &[u8]) -> Result<Replay, AllocError>
        ensures seen { IfOk result (λ replay. replay.seen.items ≡ first.now) }
        ensures left { IfOk result (λ replay. replay.left.items ≡ first.now) }
        ensures taken { IfOk result (λ replay. replay.taken ≡ 0) }
    {
        Ok(Replay {
            alloc,
            seen: first.to_vec(alloc)?,
            left: first.to_vec(alloc)?,
            taken: 0,
        })
    }

    /// Fills the range with the byte, where the crash might have left anything.
    fn fill(&mut self, at: usize, count: usize, fill: u8) -> Result<(), AllocError>
        requires { at ≤ vec_len self.old.left }
        ensures left { OnOk result (self.new.left.items ≡ written self.old.left.items at (replicate count fill)) }
        ensures seen { self.new.seen ≡ self.old.seen }
        ensures taken { self.new.taken ≡ self.old.taken }
    {
        put(&mut self.left, at, &vec![in self.alloc; fill; count]?)
    }

    /// Goes through one change.
    pub(crate) fn step(&mut self, change: Change, pool: &[u8], fill: u8) -> Result<(), AllocError>
        requires { CanStep pool.now self.old change }
        ensures { OnOk result (Steps pool.now fill self.old change self.new) }
    {
        match change {
            Change::Wrote { at, count } => {
                put(&mut self.seen, at, &pool[self.taken..self.taken + count])?;
                self.taken += count;
                self.fill(at, count, fill)
            }
            Change::Tore { at, count } => self.fill(at, count, fill),
            Change::Synced => {
                self.left = self.seen.to_vec(self.alloc)?;
                Ok(())
            }
        }
    }
}
