//! A file that only one process has at a time.

use crate::beside::{LOCK, beside};
use crate::file_fault::FileFault;
use std::fs::{self, File, OpenOptions, TryLockError};
use std::rt::Files;

/// Opens and locks the lock file beside `path`, which a save doesn't replace.
///
/// # Errors
///
/// [`FileFault::Locked`] if another process has it, [`FileFault::NotAFile`], the error that the system reports, or want of
/// memory.
pub fn lock_beside<R: Files<File = File> + AllocGlobal>(
    rt: &R,
    path: &str,
) -> Result<File, FileFault> {
    let name = beside(rt.alloc(), path, LOCK)?;
    locked(open_lock(rt, name.as_str())?)
}

/// Opens a file that is to be locked. Nothing is read from it or written to it.
fn open_lock<R: Files<File = File>>(rt: &R, name: &str) -> Result<File, FileFault> {
    match fs::symlink_metadata(rt, name) {
        Ok(found) if !found.is_file() => return Err(FileFault::NotAFile),
        _ => {}
    }
    let mut how = OpenOptions::new();
    how.read(true).write(true).create(true);
    Ok(how.open(rt, name)?)
}

/// Locks a file, unless another process has it locked.
fn locked(file: File) -> Result<File, FileFault> {
    match file.try_lock() {
        Ok(()) => Ok(file),
        Err(TryLockError::WouldBlock) => Err(FileFault::Locked),
        Err(TryLockError::Error(error)) => Err(FileFault::from(error)),
    }
}
