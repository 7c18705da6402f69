ghost use Rattle.std.specs.Prelude.{◌≡◌, ◌<◌, ◌≤◌, IfOk, IfSome, drop};
ghost use Rattle.std.specs.Result.{IsErrOf};
ghost use Rattle.flow_case_files.specs.Behind.{behind_in};
ghost use Rattle.flow_case_files.specs.declared.folder.FolderFault.TheVariants.{Exists, InUse, NoMemory, System};

use std::alloc::{AllocError, Global};
use std::fs::{self, File, Files, OpenFile};
use std::io::{self, Read};

/// The text of the workflow, as it was when the case was made.
pub(crate) const WORKFLOW: &str = "workflow.flow";

/// Who may do what. A case without it has no duties.
pub(crate) const POLICY: &str = "policy";

/// It is there where each `done` is followed by the updates that close off no choice. It is empty.
pub(crate) const TIDY: &str = "tidy";

/// The entries of the history.
pub const ENTRIES: &str = "run.keep";

/// Who made each entry, and when.
pub const TRAIL: &str = "trail.jsonl";

/// The greatest length of a text that is read, in bytes. One byte more is read, so that a longer text is told as such.
pub const GREATEST_TEXT: usize = 1_048_576;

/// Why the folder of a case is not made, read or opened.
#[derive(Debug, Drop)]
pub enum FolderFault {
    /// There is something of that name, or of the name under which the folder is made.
    Exists,
    /// The folder lacks a file of every case.
    NoCase(&'static str),
    /// Another process has the case, and did not give it back in the time.
    InUse,
    /// A call of the system failed.
    System(io::Error),
    /// There was not enough memory.
    NoMemory,
}

impl From<io::Error> for FolderFault {
    ghost from_gives = { λ error fault. fault ≡ System error };

    fn from(error: io::Error) -> FolderFault {
        FolderFault::System(error)
    }
}

impl From<AllocError> for FolderFault {
    ghost from_gives = { λ _ fault. fault ≡ NoMemory };

    fn from(_: AllocError) -> FolderFault {
        FolderFault::NoMemory
    }
}

/// The texts by which a case is judged.
#[derive(Drop)]
pub struct CaseTexts {
    pub workflow: Vec<u8>,
    pub policy: Option<Vec<u8>>,
    /// Whether each `done` is followed by the updates that close off no choice.
    pub tidied: bool,
}

/// The path of a file in the folder.
pub(crate) fn path_in(alloc: Global, folder: &str, name: &str) -> Result<String, AllocError> {
    format!(in alloc; "{folder}/{name}")
}

/// Whether there is a plain file of that path.
pub(crate) fn is_file<R: Files<File = File>>(rt: &R, path: &str) -> bool {
    match fs::metadata(rt, path) {
        Ok(found) => found.is_file(),
        Err(_) => false,
    }
}

/// The front of a file, up to one byte past the greatest length.
fn read_text<R: Files<File = File> + AllocGlobal>(rt: &R, path: &str) -> io::Result<Vec<u8>> {
    let mut text = Vec::new(rt.alloc());
    let _ = File::open(rt, path)?
        .take(GREATEST_TEXT as u64 + 1)
        .read_to_end(&mut text)?;
    Ok(text)
}

/// The texts of the case in that folder. A folder that lacks a file of every case is none, and stays as it is.
pub fn read_case<R: Files<File = File> + AllocGlobal>(
    rt: &R,
    folder: &str,
) -> Result<CaseTexts, FolderFault>
    ensures no_name { ¬ (IsErrOf result Exists) }
    ensures no_lock { ¬ (IsErrOf result InUse) }
{
    for name in [WORKFLOW, ENTRIES, TRAIL] {
        if !is_file(rt, &path_in(rt.alloc(), folder, name)?) {
            return Err(FolderFault::NoCase(name));
        }
    }
    let workflow = read_text(rt, &path_in(rt.alloc(), folder, WORKFLOW)?)?;
    let path = path_in(rt.alloc(), folder, POLICY)?;
    let policy = if is_file(rt, &path) {
        Some(read_text(rt, &path)?)
    } else {
        None
    };
    let tidied = is_file(rt, &path_in(rt.alloc(), folder, TIDY)?);
    Ok(CaseTexts {
        workflow,
        policy,
        tidied,
    })
}

/// How many bytes these are, but for a lone one that ends what is before them.
fn count_behind(bytes: &[u8], end: u8) -> usize
    ensures { result ≡ behind_in end bytes.now }
{
    match bytes {
        [last] if *last == end => 0,
        _ => bytes.len(),
    }
}

/// How many bytes stand behind the first ones, of which there are so many, but for a lone one that ends these.
fn count_past(bytes: &[u8], meant: usize, end: u8) -> usize
    ensures { result ≡ behind_in end (drop meant bytes.now) }
{
    if meant >= bytes.len() {
        0
    } else {
        count_behind(&bytes[meant..], end)
    }
}

/// All that is read.
fn read_all<R: Read + Drop>(alloc: Global, file: R) -> io::Result<Vec<u8>>
    ensures { IfOk result (λ bytes. IfSome (R.remaining file) (λ all. bytes.items ≡ all)) }
{
    let mut file = file;
    let mut bytes = Vec::new(alloc);
    let _ = file.read_to_end(&mut bytes)?;
    Ok(bytes)
}

/// How many bytes a file has that mean nothing: those behind its first ones, of which there are so many, but for a lone byte that ends
/// these.
pub fn bytes_behind<R: Read + Drop>(
    alloc: Global,
    file: R,
    meant: usize,
    end: u8,
) -> io::Result<usize>
    ensures { IfOk result (λ count. IfSome (R.remaining file) (λ all. count ≡ behind_in end (drop meant all))) }
{
    Ok(count_past(&read_all(alloc, file)?, meant, end))
}
