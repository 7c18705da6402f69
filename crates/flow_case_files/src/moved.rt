//! A case that goes on under other texts: its folder is made beside the old one and takes its place, with the old one inside.
ghost use Rattle.std.specs.Result.{IsErrOf};
ghost use Rattle.flow_case_files.specs.declared.folder.FolderFault.TheVariants.{InUse};

use crate::folder::FolderFault;
use crate::made::{folder_around, make_files, sync_folder};
use std::alloc::{AllocError, Global};
use std::fs::{self, File, Files};
use std::io::{self, ErrorKind};

/// How often a case may be moved.
pub const MOST_MOVES: u32 = 1000;

/// The folder in which a move of the case is prepared.
pub fn moving_folder(alloc: Global, folder: &str) -> Result<String, AllocError> {
    format!(in alloc; "{folder}.moving")
}

/// The folder inside that one which has the case as it was before its move of that number, from 1. That has the one before it inside.
fn before_folder(alloc: Global, folder: &str, number: u32) -> Result<String, AllocError> {
    format!(in alloc; "{folder}/before-{number}")
}

fn is_there<R: Files<File = File>>(rt: &R, path: &str) -> bool {
    fs::symlink_metadata(rt, path).is_ok()
}

/// The number of the last move of the case; 0 where it was never moved.
fn last_move<R: Files<File = File> + AllocGlobal>(rt: &R, folder: &str) -> Result<u32, AllocError> {
    let mut last = 0;
    for number in 1..=MOST_MOVES {
        if is_there(rt, &before_folder(rt.alloc(), folder, number)?) {
            last = number;
        }
    }
    Ok(last)
}

/// Whether the folder has the case as it was before some move.
fn has_before<R: Files<File = File> + AllocGlobal>(
    rt: &R,
    folder: &str,
) -> Result<bool, AllocError> {
    Ok(last_move(rt, folder)? > 0)
}

/// Whether a move of the case was cut off between its two renames: the case is then whole, with the old one inside, in the folder in
/// which it was prepared.
pub fn is_cut_off<R: Files<File = File> + AllocGlobal>(
    rt: &R,
    folder: &str,
) -> Result<bool, AllocError> {
    if is_there(rt, folder) {
        return Ok(false);
    }
    has_before(rt, &moving_folder(rt.alloc(), folder)?)
}

/// Makes the folder in which a move of the case is prepared, with these texts and no entry, and gives its path. What a move that was cut
/// off earlier left there is taken away. The case is to be open for this process alone.
pub fn make_moving<R: Files<File = File> + AllocGlobal>(
    rt: &R,
    folder: &str,
    workflow: &[u8],
    policy: Option<&[u8]>,
    tidied: bool,
) -> Result<String, FolderFault>
    ensures no_lock { ¬ (IsErrOf result InUse) }
{
    let moving = moving_folder(rt.alloc(), folder)?;
    take_away(rt, &moving)?;
    match fs::create_dir(rt, &moving) {
        Ok(()) => {}
        Err(error) if error.kind() == ErrorKind::AlreadyExists => return Err(FolderFault::Exists),
        Err(error) => return Err(FolderFault::System(error)),
    }
    make_files(rt, &moving, workflow, policy, tidied)?;
    sync_folder(rt, &moving)?;
    Ok(moving)
}

/// Takes away the folder in which a move was prepared. One that has a case inside stays, and is told.
pub fn take_away<R: Files<File = File> + AllocGlobal>(rt: &R, moving: &str) -> io::Result<()> {
    if !is_there(rt, moving) {
        return Ok(());
    }
    match has_before(rt, moving) {
        Ok(false) => fs::remove_dir_all(rt, moving),
        Ok(true) => Err(io::Error::new(
            ErrorKind::AlreadyExists,
            "a folder with .moving behind its name has a case of another move",
        )),
        Err(AllocError) => Err(io::Error::from(ErrorKind::OutOfMemory)),
    }
}

/// Puts what was prepared in the place of the case, with the old case inside. The case is to be open for this process alone. Whenever it
/// is cut off, the case is whole: in its place as it was or as it is, or in the folder in which the move was prepared.
pub fn put_in_place<R: Files<File = File> + AllocGlobal>(
    rt: &R,
    folder: &str,
) -> Result<(), FolderFault>
    ensures no_lock { ¬ (IsErrOf result InUse) }
{
    let moving = moving_folder(rt.alloc(), folder)?;
    let number = last_move(rt, folder)?.saturating_add(1);
    let before = before_folder(rt.alloc(), &moving, number)?;
    sync_folder(rt, &moving)?;
    fs::rename(rt, folder, &before)?;
    sync_folder(rt, &moving)?;
    sync_folder(rt, folder_around(folder))?;
    finish_move(rt, folder)
}

/// The second rename of a move. Another process may have made it.
pub fn finish_move<R: Files<File = File> + AllocGlobal>(
    rt: &R,
    folder: &str,
) -> Result<(), FolderFault>
    ensures no_lock { ¬ (IsErrOf result InUse) }
{
    let moving = moving_folder(rt.alloc(), folder)?;
    match fs::rename(rt, &moving, folder) {
        Ok(()) => {}
        Err(error) if error.kind() == ErrorKind::NotFound && is_there(rt, folder) => {}
        Err(error) => return Err(FolderFault::System(error)),
    }
    sync_folder(rt, folder_around(folder))?;
    Ok(())
}
