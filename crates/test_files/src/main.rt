//! Tries `FileDisk` on files of the folder in which it runs, and writes of each trial whether the system did as it must.
#![tactic(auto)]

use anyhow::Result;
use flow_disk::{Disk, DiskFailed, FileDisk};
use std::fs::{File, Files};
use std::os::unix::fs::symlink;

/// What no file has a place for.
const NO_PLACE: u64 = 1 << 63;

/// An empty file that can be read and written, and whose sync fails, as that of its folder does: the name of this process.
const NEVER_SYNCED: &str = "/proc/self/comm";

/// What is written at two places stands there after a second `open`, and behind it the file ends.
fn keeps_what_is_written<R: Files<File = File>>(rt: &R) -> Result<bool, DiskFailed> {
    let mut disk = FileDisk::new(rt);
    disk.open("places.keep")?;
    disk.write_at(0, b"abcdef")?;
    disk.write_at(3, b"XYZ12")?;
    disk.sync()?;
    drop(disk);
    let mut disk = FileDisk::new(rt);
    disk.open("places.keep")?;
    let mut bytes = [0u8; 9];
    let count = disk.read_at(0, &mut bytes)?;
    let behind = disk.read_at(8, &mut bytes[8..])?;
    Ok(disk.len()? == 8 && count == 8 && behind == 0 && bytes == *b"abcXYZ12\0")
}

/// A second disk on the path fails while the first has it, and not from then on.
fn is_for_one_at_a_time<R: Files<File = File>>(rt: &R) -> Result<bool, DiskFailed> {
    let mut first = FileDisk::new(rt);
    first.open("locked.keep")?;
    let mut second = FileDisk::new(rt);
    let refused = second.open("locked.keep").is_err();
    drop(first);
    Ok(refused && second.open("locked.keep").is_ok())
}

/// A folder is no file, and is not opened.
fn refuses_a_folder<R: Files<File = File>>(rt: &R) -> bool {
    FileDisk::new(rt).open(".").is_err()
}

/// A read that fails is told, and is no end of the file; so is a write that fails.
fn tells_what_fails<R: Files<File = File>>(rt: &R) -> Result<bool, DiskFailed> {
    let mut disk = FileDisk::new(rt);
    disk.open("failing.keep")?;
    let read = disk.read_at(NO_PLACE, &mut [0u8; 4]);
    let written = disk.write_at(NO_PLACE, b"ab");
    Ok(read.is_err() && written.is_err())
}

/// A sync that fails is told, and nothing more is done up to the next `open`. The file is opened by a link, whose own folder can be
/// synced.
fn stops_after_a_failed_sync<R: Files<File = File>>(rt: &R) -> Result<bool, DiskFailed> {
    // where an earlier run left the link, it serves
    let _ = symlink(rt, NEVER_SYNCED, "unsynced.keep");
    let mut disk = FileDisk::new(rt);
    disk.open("unsynced.keep")?;
    let size = disk.len()?;
    let synced = disk.sync();
    let read = disk.read_at(0, &mut [0u8; 4]);
    let again = disk.sync();
    disk.open("synced.keep")?;
    disk.sync()?;
    Ok(size == 0 && synced.is_err() && read.is_err() && again.is_err())
}

/// The folder of an empty file is synced too: where that fails, the file is not opened.
fn syncs_the_folder<R: Files<File = File>>(rt: &R) -> bool {
    FileDisk::new(rt).open(NEVER_SYNCED).is_err()
}

/// Whether bytes can be written at that place.
fn can_write<R: Files<File = File>>(rt: &R, at: u64, bytes: &[u8]) -> Result<bool, DiskFailed> {
    let mut disk = FileDisk::new(rt);
    disk.open("far.keep")?;
    Ok(disk.write_at(at, bytes).is_ok())
}

/// At the last place of a file one byte can be written, and of two the system takes one: the write fails.
fn takes_no_part_for_the_whole<R: Files<File = File>>(rt: &R) -> Result<bool, DiskFailed> {
    let mut last = 0u64;
    for shift in 0..63u32 {
        let further = last | (1 << (62 - shift));
        if can_write(rt, further, b"a")? {
            last = further;
        }
    }
    Ok(can_write(rt, last, b"a")? && !can_write(rt, last, b"ab")?)
}

/// Writes how a trial went.
fn tell<R: Print>(rt: &R, what: &str, tried: Result<bool, DiskFailed>) -> Result<()> {
    let how = match tried {
        Ok(true) => "yes",
        Ok(false) => "no",
        Err(DiskFailed) => "the disk failed",
    };
    println!(rt; "{what}: {how}")?;
    Ok(())
}

fn main(rt: HostRuntime) -> Result<()> {
    tell(
        &rt,
        "what is written is kept at its place",
        keeps_what_is_written(&rt),
    )?;
    tell(
        &rt,
        "a file is for one at a time",
        is_for_one_at_a_time(&rt),
    )?;
    tell(&rt, "a folder is refused", Ok(refuses_a_folder(&rt)))?;
    tell(&rt, "what fails is told", tells_what_fails(&rt))?;
    tell(
        &rt,
        "no part is taken for the whole",
        takes_no_part_for_the_whole(&rt),
    )?;
    tell(
        &rt,
        "nothing is done after a failed sync",
        stops_after_a_failed_sync(&rt),
    )?;
    tell(&rt, "the folder is synced", Ok(syncs_the_folder(&rt)))
}
