ghost use Rattle.std.specs.Prelude.{◌≡◌, ℕ, List};
ghost use Rattle.std.specs.Result.{IsErrOf};
ghost use Rattle.flow_case_files.specs.declared.folder.FolderFault.TheVariants.{InUse};

use crate::folder::{ENTRIES, FolderFault, POLICY, TIDY, TRAIL, WORKFLOW, path_in};
use crate::moved::is_cut_off;
use std::fs::{self, File, Files, OpenFile};
use std::io::{self, ErrorKind, Write};
use std::path::Path;

/// Makes a file with these bytes, which are on the disk when it returns.
fn make_file<R: Files<File = File>>(rt: &R, path: &str, bytes: &[u8]) -> io::Result<()> {
    let mut file = File::create_new(rt, path)?;
    file.write_all(bytes)?;
    file.sync_all()
}

/// Makes the names in a folder durable.
pub(crate) fn sync_folder<R: Files<File = File>>(rt: &R, folder: &str) -> io::Result<()> {
    fs::open(rt, folder)?.sync_all()
}

/// The folder in which that one stands.
pub(crate) fn folder_around(path: &str) -> &str {
    match Path::new(path).parent() {
        Some(folder) if folder.as_str() != "" => folder.as_str(),
        _ => ".",
    }
}

/// Makes the files of a case with no entry yet.
pub(crate) fn make_files<R: Files<File = File> + AllocGlobal>(
    rt: &R,
    folder: &str,
    workflow: &[u8],
    policy: Option<&[u8]>,
    tidied: bool,
) -> Result<(), FolderFault>
    ensures no_lock { ¬ (IsErrOf result InUse) }
{
    make_file(rt, &path_in(rt.alloc(), folder, WORKFLOW)?, workflow)?;
    if let Some(policy) = policy {
        make_file(rt, &path_in(rt.alloc(), folder, POLICY)?, policy)?;
    }
    if tidied {
        make_file(rt, &path_in(rt.alloc(), folder, TIDY)?, b"")?;
    }
    make_file(rt, &path_in(rt.alloc(), folder, ENTRIES)?, b"")?;
    make_file(rt, &path_in(rt.alloc(), folder, TRAIL)?, b"")?;
    Ok(())
}

/// Makes the folder of a case that has no entry yet. It is made under the name with `.new` behind it and then renamed, so it is there
/// whole or not at all. Where something of either name is there, nothing is done. In a case that is tidied each `done` is followed by
/// the updates that close off no choice.
pub fn make_case<R: Files<File = File> + AllocGlobal>(
    rt: &R,
    folder: &str,
    workflow: &[u8],
    policy: Option<&[u8]>,
    tidied: bool,
) -> Result<(), FolderFault>
    ensures no_lock { ¬ (IsErrOf result InUse) }
{
    if fs::symlink_metadata(rt, folder).is_ok() || is_cut_off(rt, folder)? {
        return Err(FolderFault::Exists);
    }
    let made = format!(in rt.alloc(); "{folder}.new")?;
    match fs::create_dir(rt, &made) {
        Ok(()) => {}
        Err(error) if error.kind() == ErrorKind::AlreadyExists => return Err(FolderFault::Exists),
        Err(error) => return Err(FolderFault::System(error)),
    }
    make_files(rt, &made, workflow, policy, tidied)?;
    sync_folder(rt, &made)?;
    fs::rename(rt, &made, folder)?;
    sync_folder(rt, folder_around(folder))?;
    Ok(())
}
