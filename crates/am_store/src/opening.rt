//! The check of what is at a path.

ghost use Rattle.std.specs.Prelude.{◌≡◌, ◌↔◌, Ok, Err, true, false, IsErrAnd};
ghost use Rattle.std.specs.IoError.{error_kind};
ghost use Rattle.am_store.specs.Opening.{is_found};

use crate::file_fault::FileFault;
use std::fs;
use std::io::{self, ErrorKind};
use std::rt::Files;

/// Returns whether a file is there, given the system's answer: whether what is at the path is a file, or why the system can't
/// say.
///
/// # Errors
///
/// [`FileFault::NotAFile`], and any error of the system other than that nothing is there.
fn found_by(said: io::Result<bool>) -> Result<bool, FileFault>
    ensures { result ≡ is_found said }
{
    match said {
        Ok(true) => Ok(true),
        Ok(false) => Err(FileFault::NotAFile),
        Err(error) if error.kind() == ErrorKind::NotFound => Ok(false),
        Err(error) => Err(FileFault::from(error)),
    }
}

/// Returns whether a link is at a path.
fn is_link<R: Files + AllocGlobal>(rt: &R, path: &str) -> bool {
    fs::read_link(rt, path).is_ok()
}

/// Returns whether a file is there, as [`is_there`] does, and refuses a link: bytes would go to the file that it names.
///
/// # Errors
///
/// [`FileFault::NotAFile`], also for a link, and what the system says.
pub fn is_own_file_there<R: Files + AllocGlobal>(rt: &R, path: &str) -> Result<bool, FileFault> {
    if is_link(rt, path) {
        return Err(FileFault::NotAFile);
    }
    is_there(rt, path)
}

/// Returns whether a file is there. Something other than a file isn't opened, since that may wait forever.
///
/// # Errors
///
/// [`FileFault::NotAFile`], and what the system says.
pub fn is_there<R: Files>(rt: &R, path: &str) -> Result<bool, FileFault> {
    match fs::metadata(rt, path) {
        Ok(found) => found_by(Ok(found.is_file())),
        Err(error) => found_by(Err(error)),
    }
}
