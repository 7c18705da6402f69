//! Disks in memory that come home when they are let go, so that a crash of them can be looked at.
ghost use Rattle.std.specs.Prelude.{◌≡◌, IfOk};

use flow_disk::{Disk, DiskFailed, MemDisk};
use std::alloc::{AllocError, Global};
use std::cell::Cell;
use std::rc::Rc;

/// Bytes for all writes of a session.
const ROOM: usize = 65_536;

/// More calls than a session makes of a disk.
pub(crate) const MOST_CALLS: u32 = 4_000;

/// Where a disk is found again.
pub(crate) type Home = Rc<Cell<Option<MemDisk>>>;

/// A disk that goes home when it is let go.
pub(crate) struct LentDisk {
    disk: MemDisk,
    home: Home,
}

impl Drop for LentDisk {
    fn drop(self) {
        let LentDisk { disk, home } = self;
        home.set(Some(disk));
    }
}

impl Disk for LentDisk {
    ghost tells = { ⟦<MemDisk as Disk>⟧.tells };

    ghost seen = { λ lent. ⟦<MemDisk as Disk>⟧.seen lent.disk };

    ghost moment = { λ lent. ⟦<MemDisk as Disk>⟧.moment lent.disk };

    ghost image = { λ lent. ⟦<MemDisk as Disk>⟧.image lent.disk };

    ghost synced = { λ lent. ⟦<MemDisk as Disk>⟧.synced lent.disk };

    ghost faults = { λ lent. ⟦<MemDisk as Disk>⟧.faults lent.disk };

    ghost file_at = { ⟦<MemDisk as Disk>⟧.file_at };

    ghost chosen = { λ lent. ⟦<MemDisk as Disk>⟧.chosen lent.disk };

    fn open(&mut self, path: &str) -> Result<(), DiskFailed> {
        self.disk.open(path)
    }

    fn len(&mut self) -> Result<u64, DiskFailed> {
        self.disk.len()
    }

    fn read_at(&mut self, at: u64, buf: &mut [u8]) -> Result<usize, DiskFailed> {
        self.disk.read_at(at, buf)
    }

    fn write_at(&mut self, at: u64, bytes: &[u8]) -> Result<(), DiskFailed> {
        self.disk.write_at(at, bytes)
    }

    fn sync(&mut self) -> Result<(), DiskFailed> {
        self.disk.sync()
    }
}

/// What a crash leaves of a disk: what a read gives, or one byte all over wherever was written since the last sync.
#[derive(Clone, Copy)]
pub(crate) enum Crash {
    Keeps,
    Fills(u8),
}

/// Each that is tried.
pub(crate) const CRASHES: [Crash; 3] = [Crash::Keeps, Crash::Fills(0), Crash::Fills(255)];

/// A disk with these bytes that stops at the call of that number, and its home.
pub(crate) fn lend(
    alloc: Global,
    bytes: Vec<u8>,
    stop_at: u32,
) -> Result<(LentDisk, Home), AllocError>
    ensures { IfOk result (λ lent. ⟦<LentDisk as Disk>⟧.faults lent.0 ≡ 0) }
{
    let stop_at = stop_at.min(MOST_CALLS);
    let room = bytes.len().saturating_add(ROOM);
    let disk = MemDisk::new(alloc, bytes, room, stop_at)?;
    let home: Home = Rc::new(alloc, Cell::new(None))?;
    let lent = LentDisk {
        disk,
        home: home.clone()?,
    };
    Ok((lent, home))
}

/// What the crash leaves of a disk that came home.
pub(crate) fn left(alloc: Global, disk: &MemDisk, crash: Crash) -> Result<Vec<u8>, AllocError> {
    match crash {
        Crash::Keeps => disk.left(alloc, 0, true),
        Crash::Fills(byte) => disk.left(alloc, byte, false),
    }
}
