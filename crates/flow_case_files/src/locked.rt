ghost use Rattle.std.specs.Prelude.{◌≡◌, IfOk, IfSome};

use crate::folder::{ENTRIES, FolderFault, TRAIL, path_in};
use flow_disk::{Disk, DiskFailed, FileDisk};
use std::fs::{self, File, Files, TryLockError};
use std::os::unix::fs::MetadataExt;
use std::time::{Clock, Duration, Instant};
use std::{io, thread};

/// How many milliseconds a call sleeps before it looks again whether the case is free.
const PAUSE: u64 = 5;

/// How often a file that nobody has is tried again: another process may have had it while it was looked at.
const TRIES: u32 = 3;

/// The entries and the trail of a case, which no other process has.
#[derive(Drop)]
pub struct CaseDisks<'a, R: Files<File = File>> {
    pub entries: FileDisk<'a, R>,
    pub trail: FileDisk<'a, R>,
}

/// Whether another process has the file. One that is not there is of a case that is being moved.
fn is_held<R: Files<File = File>>(rt: &R, path: &str) -> io::Result<bool> {
    let file = match File::open(rt, path) {
        Ok(file) => file,
        Err(error) if error.kind() == io::ErrorKind::NotFound => return Ok(true),
        Err(error) => return Err(error),
    };
    match file.try_lock() {
        Ok(()) => Ok(false),
        Err(TryLockError::WouldBlock) => Ok(true),
        Err(TryLockError::Error(error)) => Err(error),
    }
}

/// Which file stands at the path: its device and its number. None where there is none.
fn file_at<R: Files<File = File>>(rt: &R, path: &str) -> Option<(u64, u64)> {
    match fs::metadata(rt, path) {
        Ok(found) => Some((found.dev(), found.ino())),
        Err(_) => None,
    }
}

/// The file, where no other process has it. A case that was moved while it was opened has another file there: then it is not open.
fn open_free<'a, R: Files<File = File>>(rt: &'a R, path: &str) -> Option<FileDisk<'a, R>>
    ensures { IfSome result (λ disk. ⟦<FileDisk<'a, R> as Disk>⟧.faults disk ≡ 0) }
{
    let before = file_at(rt, path);
    let mut disk = FileDisk::new(rt);
    match disk.open(path) {
        Ok(()) => {}
        Err(DiskFailed) => return None,
    }
    if file_at(rt, path) == before {
        Some(disk)
    } else {
        None
    }
}

/// The file, once no other process has it.
fn open_when_free<'a, R: Files<File = File> + Clock>(
    rt: &'a R,
    path: &str,
    wait: Duration,
) -> Result<FileDisk<'a, R>, FolderFault>
    ensures { IfOk result (λ disk. ⟦<FileDisk<'a, R> as Disk>⟧.faults disk ≡ 0) }
{
    let began = Instant::now(rt)?;
    let mut left = TRIES;
    for _ in 0..u64::MAX {
        if let Some(disk) = open_free(rt, path) {
            return Ok(disk);
        }
        if is_held(rt, path)? {
            if wait <= began.elapsed(rt)? {
                return Err(FolderFault::InUse);
            }
        } else if left == 0 {
            let error = io::Error::new(io::ErrorKind::Other, "it cannot be opened");
            return Err(FolderFault::System(error));
        } else {
            left -= 1;
        }
        thread::sleep(rt, Duration::from_millis(PAUSE));
    }
    Err(FolderFault::InUse)
}

/// Opens what a case keeps, for this process alone. It waits so long for another process that has it.
pub fn open_disks<'a, R: Files<File = File> + AllocGlobal + Clock>(
    rt: &'a R,
    folder: &str,
    wait: Duration,
) -> Result<CaseDisks<'a, R>, FolderFault>
    ensures entries { IfOk result (λ disks. ⟦<FileDisk<'a, R> as Disk>⟧.faults disks.entries ≡ 0) }
    ensures trail { IfOk result (λ disks. ⟦<FileDisk<'a, R> as Disk>⟧.faults disks.trail ≡ 0) }
{
    let entries = open_when_free(rt, &path_in(rt.alloc(), folder, ENTRIES)?, wait)?;
    let trail = open_when_free(rt, &path_in(rt.alloc(), folder, TRAIL)?, wait)?;
    Ok(CaseDisks { entries, trail })
}
