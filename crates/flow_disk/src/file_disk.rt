ghost use Rattle.std.specs.Prelude.{◌≡◌, ◌↔◌, ◌≤◌, ◌<◌, ◌-◌, ◌^◌, length, Some, None, IfOk, IsErr, MatchResult, Ok};
ghost use Rattle.flow_disk.specs.Disk.{CountsFault};

use crate::disk::{Disk, DiskFailed};
use std::fs::{self, File, Files, OpenFile, OpenOptions};
use std::io;
use std::os::unix::fs::FileExt;
use std::path::Path;

/// A file of the system, which tells nothing: no contract says what a file gives. It is open and locked against every
/// other process that opens it so from an `open` that succeeds on. Before, and after a sync that failed, every call
/// but `open` fails.
#[derive(Drop)]
pub struct FileDisk<'a, R: Files<File = File>> {
    rt: &'a R,
    file: Option<File>,
    /// Whether a sync of the file failed. The system may tell the next one as done, though bytes were lost.
    lost: bool,
    faults: u64,
}

fn no_plain_file() -> io::Error {
    io::Error::new(io::ErrorKind::InvalidInput, "no plain file")
}

/// Makes the names in the folder of that path durable.
fn sync_folder<R: Files<File = File>>(rt: &R, path: &str) -> io::Result<()> {
    let folder = match Path::new(path).parent() {
        Some(folder) if folder.as_str() != "" => folder.as_str(),
        _ => ".",
    };
    fs::open(rt, folder)?.sync_all()
}

/// Opens the file of that path, an empty one where there is none, for this process alone, and does not wait for it.
fn open_alone<R: Files<File = File>>(rt: &R, path: &str) -> io::Result<File> {
    let mut options = OpenOptions::new();
    options.read(true).write(true).create(true);
    let file = options.open(rt, path)?;
    if !file.metadata()?.is_file() {
        return Err(no_plain_file());
    }
    match file.try_lock() {
        Ok(()) => {}
        Err(error) => return Err(io::Error::from(error)),
    }
    // An empty file may be new, also where it was made by a process that ended before it had synced the folder: a
    // crash of the system may then lose the file with all that is written to it.
    if file.metadata()?.len() == 0 {
        sync_folder(rt, path)?;
    }
    Ok(file)
}

fn len_of(file: io::Result<&File>) -> io::Result<u64>
    ensures { IsErr file.entry → IsErr result }
{
    Ok(file?.metadata()?.len())
}

fn read_from(file: io::Result<&File>, at: u64, buf: &mut [u8]) -> io::Result<usize>
    ensures fits { IfOk result (λ count. count ≤ length buf.new) }
    ensures fails { IsErr file.entry → IsErr result }
{
    file?.read_at(buf, at)
}

fn write_to(file: io::Result<&File>, at: u64, bytes: &[u8]) -> io::Result<()>
    ensures { IsErr file.entry → IsErr result }
{
    file?.write_all_at(bytes, at)
}

fn sync_of(file: io::Result<&File>) -> io::Result<()>
    ensures { IsErr file.entry → IsErr result }
{
    file?.sync_data()
}

/// What came, where a call succeeded. Else the fault is counted.
fn counted<T: Drop>(faults: &mut u64, came: io::Result<T>) -> Result<T, DiskFailed>
    requires { faults.old < 2 ^ 64 - 1 }
    ensures cause { CountsFault faults.old faults.new result }
    ensures value { IfOk result (λ value. came ≡ Ok value) }
    ensures failed { IsErr result ↔ IsErr came }
{
    match came {
        Ok(value) => Ok(value),
        Err(_) => {
            *faults += 1;
            Err(DiskFailed)
        }
    }
}

impl<'a, R: Files<File = File>> FileDisk<'a, R> {
    ghost use Rattle.flow_disk.specs.FileDisk.{IsShut};

    /// A disk on which no file is open. No call has failed yet.
    pub fn new(rt: &'a R) -> FileDisk<'a, R>
        ensures faults { ⟦<FileDisk<'a, R> as Disk>⟧.faults result ≡ 0 }
        ensures shut { IsShut result }
    {
        FileDisk {
            rt,
            file: None,
            lost: false,
            faults: 0,
        }
    }

    /// The file, where one is open and no sync of it failed.
    fn opened(&self) -> io::Result<&File>
        ensures { IsShut self.now → IsErr result }
    {
        if self.lost {
            return Err(no_plain_file());
        }
        self.file.as_ref().ok_or_else(no_plain_file)
    }
}

// Where no file is open, or a sync of it failed, every call but `open` fails, and leaves it so.
impl<'a, R: Files<File = File>> Disk for FileDisk<'a, R> {
    ghost use Rattle.std.specs.Prelude.{[]};
    ghost use Rattle.flow_disk.specs.FileDisk.{IsShut, the_file, chosen_of};

    ghost tells = { ⊥ };

    ghost seen = { λ _. [] };

    ghost moment = { λ _. 0 };

    ghost image = { λ _ _ _. ⊥ };

    ghost synced = { λ _ _. ⊥ };

    ghost faults = { λ disk. disk.faults };

    // nothing is told of which paths lead to one file
    ghost file_at = { λ _. the_file };

    ghost chosen = { λ disk. chosen_of disk.file };

    fn open(&mut self, path: &str) -> Result<(), DiskFailed>
        requires { self.old.faults < 2 ^ 64 - 1 }
        ensures cause { CountsFault self.old.faults self.new.faults result }
        ensures chooses { MatchResult result (λ v. chosen_of self.new.file ≡ Some the_file) (λ e. chosen_of self.new.file ≡ None) }
        ensures shut { IsErr result → IsShut self.new }
    {
        // A file that is open already gives back its lock first: the path may name the same one.
        self.file = None;
        let file = counted(&mut self.faults, open_alone(self.rt, path))?;
        self.file = Some(file);
        self.lost = false;
        Ok(())
    }

    fn len(&mut self) -> Result<u64, DiskFailed>
        requires { self.old.faults < 2 ^ 64 - 1 }
        ensures cause { CountsFault self.old.faults self.new.faults result }
        ensures same_file { self.new.file ≡ self.old.file }
        ensures fails { IsShut self.old → IsErr result }
        ensures shut { IsShut self.old → IsShut self.new }
    {
        let len = len_of(self.opened());
        counted(&mut self.faults, len)
    }

    fn read_at(&mut self, at: u64, buf: &mut [u8]) -> Result<usize, DiskFailed>
        requires { self.old.faults < 2 ^ 64 - 1 }
        ensures cause { CountsFault self.old.faults self.new.faults result }
        ensures same_file { self.new.file ≡ self.old.file }
        ensures fits { IfOk result (λ n. n ≤ length buf.new) }
        ensures fails { IsShut self.old → IsErr result }
        ensures shut { IsShut self.old → IsShut self.new }
    {
        let count = read_from(self.opened(), at, buf);
        counted(&mut self.faults, count)
    }

    fn write_at(&mut self, at: u64, bytes: &[u8]) -> Result<(), DiskFailed>
        requires { self.old.faults < 2 ^ 64 - 1 }
        ensures cause { CountsFault self.old.faults self.new.faults result }
        ensures same_file { self.new.file ≡ self.old.file }
        ensures fails { IsShut self.old → IsErr result }
        ensures shut { IsShut self.old → IsShut self.new }
    {
        let written = write_to(self.opened(), at, bytes);
        counted(&mut self.faults, written)
    }

    fn sync(&mut self) -> Result<(), DiskFailed>
        requires { self.old.faults < 2 ^ 64 - 1 }
        ensures cause { CountsFault self.old.faults self.new.faults result }
        ensures same_file { self.new.file ≡ self.old.file }
        ensures fails { IsShut self.old → IsErr result }
        ensures shut { IsErr result → IsShut self.new }
    {
        let synced = sync_of(self.opened());
        self.lost = synced.is_err();
        counted(&mut self.faults, synced)
    }
}
