ghost use Rattle.std.specs.Prelude.{◌≡◌, [], ◌∷◌, ◌++◌, ◌+◌, ◌-◌, ◌<◌, ◌≤◌, ◌↔◌, length, vec_len, vec_capacity, IsTrue, IsOk, IfOk, OnOk};
ghost use Rattle.flow_disk.specs.Change.{Replays, written};
ghost use Rattle.flow_disk.specs.Disk.{Torn, MayTear, Passes, NoSync, SyncsNow, Same};

use crate::change::Change;
use crate::replay::{Replay, put};
use std::alloc::{AllocError, Global};

/// A file in memory, with what it was at first and what changed it since, so that each state of the past can be
/// replayed. All its memory is taken when it is made.
#[derive(Drop)]
pub(crate) struct ChangeLog {
    pub(crate) first: Vec<u8>,
    /// The bytes of all writes, one behind another.
    pub(crate) pool: Vec<u8>,
    pub(crate) changes: Vec<Change>,
    /// What a read gives.
    pub(crate) shown: Vec<u8>,
    pub(crate) room: usize,
    ghost replays: { Replays first.items pool.items changes.items shown.items },
    ghost pool_room: { room - vec_len first ≤ vec_capacity pool },
    ghost shown_room: { room ≤ vec_capacity shown },
    ghost fits: { vec_len first + vec_len pool ≤ room },
}

impl ChangeLog {
    ghost use Rattle.flow_disk.specs.ChangeLog.{images_of, moment_of, syncs_of, shown_of, filled_of};

    /// A file with these bytes, all of them durable, and places for so many changes.
    pub(crate) fn new(
        alloc: Global,
        bytes: Vec<u8>,
        room: usize,
        places: usize,
    ) -> Result<ChangeLog, AllocError>
        requires { vec_len bytes ≤ room }
        ensures first { IfOk result (λ log. log.first.items ≡ bytes.items) }
        ensures shown { IfOk result (λ log. log.shown.items ≡ bytes.items) }
        ensures pool { IfOk result (λ log. log.pool.items ≡ []) }
        ensures changes { IfOk result (λ log. log.changes.items ≡ []) }
        ensures room { IfOk result (λ log. log.room ≡ room) }
        ensures places { IfOk result (λ log. places ≤ vec_capacity log.changes) }
    {
        let changes = Vec::with_capacity(alloc, places)?;
        let pool = Vec::with_capacity(alloc, room - bytes.len())?;
        let mut shown = Vec::with_capacity(alloc, room)?;
        shown.extend_from_slice(&bytes)?;
        Ok(ChangeLog {
            first: bytes,
            pool,
            changes,
            shown,
            room,
        })
    }

    /// Whether the bytes at first and those of all writes, with so many more, are as many as there is room for.
    pub(crate) fn has_room(&self, count: usize) -> bool
        ensures { IsTrue result ↔ (vec_len self.now.first + vec_len self.now.pool + count ≤ self.now.room) }
    {
        count <= self.room - self.first.len() - self.pool.len()
    }

    /// Writes at the place, over what stands there and behind it.
    pub(crate) fn write(&mut self, at: usize, bytes: &[u8])
        requires within { at ≤ length self.old.shown.items }
        requires room { vec_len self.old.first + vec_len self.old.pool + length bytes.now ≤ self.old.room }
        requires place { vec_len self.old.changes < vec_capacity self.old.changes }
        ensures shown { self.new.shown.items ≡ written self.old.shown.items at bytes.now }
        ensures first { self.new.first ≡ self.old.first }
        ensures pool { self.new.pool.items ≡ self.old.pool.items ++ bytes.now }
        ensures room { self.new.room ≡ self.old.room }
        ensures changes { self.new.changes.items ≡ self.old.changes.items ++ Change.Wrote at (length bytes.now) ∷ [] }
        ensures places { vec_capacity self.new.changes ≡ vec_capacity self.old.changes }
        ensures crash { Passes (moment_of self.old) (moment_of self.new) (images_of self.old) (images_of self.new) (Torn at (length bytes.now)) }
        ensures syncs { NoSync (moment_of self.old) (moment_of self.new) (syncs_of self.old) (syncs_of self.new) }
        ensures torn { MayTear at (length bytes.now) (images_of self.old (moment_of self.old)) (images_of self.new (moment_of self.new)) }
    {
        self.pool.extend_from_slice(bytes).unwrap();
        put(&mut self.shown, at, bytes).unwrap();
        self.changes.push_reserved(Change::Wrote {
            at,
            count: bytes.len(),
        });
    }

    /// Notes that a write of so many bytes at the place failed, where there is a place for the note.
    pub(crate) fn tear(&mut self, at: usize, count: usize)
        requires { at ≤ length self.old.shown.items }
        ensures shown { self.new.shown.items ≡ self.old.shown.items }
        ensures first { self.new.first ≡ self.old.first }
        ensures pool { self.new.pool ≡ self.old.pool }
        ensures room { self.new.room ≡ self.old.room }
        ensures noted { vec_len self.old.changes < vec_capacity self.old.changes
            → self.new.changes.items ≡ self.old.changes.items ++ Change.Tore at count ∷ [] }
        ensures full { vec_len self.old.changes ≡ vec_capacity self.old.changes → self.new.changes.items ≡ self.old.changes.items }
        ensures places { vec_capacity self.new.changes ≡ vec_capacity self.old.changes }
        ensures crash { Passes (moment_of self.old) (moment_of self.new) (images_of self.old) (images_of self.new) (Torn at count) }
        ensures syncs { NoSync (moment_of self.old) (moment_of self.new) (syncs_of self.old) (syncs_of self.new) }
        ensures torn { vec_len self.old.changes < vec_capacity self.old.changes
            → MayTear at count (images_of self.old (moment_of self.old)) (images_of self.new (moment_of self.new)) }
    {
        if self.changes.len() < self.changes.capacity() {
            self.changes.push_reserved(Change::Tore { at, count });
        }
    }

    /// Makes durable what is shown.
    pub(crate) fn sync(&mut self)
        requires { vec_len self.old.changes < vec_capacity self.old.changes }
        ensures shown { self.new.shown.items ≡ self.old.shown.items }
        ensures first { self.new.first ≡ self.old.first }
        ensures pool { self.new.pool ≡ self.old.pool }
        ensures room { self.new.room ≡ self.old.room }
        ensures changes { self.new.changes.items ≡ self.old.changes.items ++ Change.Synced ∷ [] }
        ensures places { vec_capacity self.new.changes ≡ vec_capacity self.old.changes }
        ensures crash { Passes (moment_of self.old) (moment_of self.new) (images_of self.old) (images_of self.new) Same }
        ensures syncs { SyncsNow (moment_of self.old) (moment_of self.new) (syncs_of self.old) (syncs_of self.new)
            (images_of self.new) (shown_of self.old) }
    {
        self.changes.push_reserved(Change::Synced);
    }

    /// What a crash may leave: what is durable, with the same byte wherever was written since.
    pub(crate) fn filled(&self, alloc: Global, fill: u8) -> Result<Vec<u8>, AllocError>
        ensures filled { IfOk result (λ bytes. bytes.items ≡ filled_of self.now fill) }
        ensures image { IfOk result (λ bytes. images_of self.now (moment_of self.now) bytes.items) }
    {
        let mut replay = Replay::new(alloc, &self.first)?;
        for change in &self.changes {
            replay.step(*change, &self.pool, fill)?;
        }
        Ok(replay.left)
    }
}
