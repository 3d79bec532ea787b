//! The file that a path names.

ghost use Rattle.std.specs.Prelude.{◌≡◌, Ok, true};

use crate::file_fault::FileFault;
use crate::opening::is_there;
use crate::saving::directory_of;
use am_snapshot::SnapshotError;
use std::alloc::AllocError;
use std::fs;
use std::io::ErrorKind;
use std::os::unix::fs::MetadataExt;
use std::path::{Path, PathBuf};
use std::rt::Files;

/// The maximum number of links that may follow one another.
const MOST_LINKS: usize = 40;

/// The fault when memory runs out.
const NO_MEMORY: FileFault = FileFault::Snapshot(SnapshotError::Memory);

/// Returns the name of a file in its directory.
fn name_of(path: &str) -> &str {
    match path.rsplit_once('/') {
        Some((_, name)) => name,
        None => path,
    }
}

/// Returns whether a path may be a file's if the system, asked for a link there, answers with this error.
fn is_no_link(kind: ErrorKind) -> bool {
    matches!(kind, ErrorKind::InvalidInput | ErrorKind::NotFound)
}

/// Returns where the link at a path leads, if there is one.
fn behind_link<R: Files + AllocGlobal>(rt: &R, path: &str) -> Result<Option<PathBuf>, FileFault> {
    let link = match fs::read_link(rt, path) {
        Ok(link) => link,
        Err(error) if is_no_link(error.kind()) => return Ok(None),
        Err(error) => return Err(FileFault::from(error)),
    };
    match Path::new(directory_of(path)).join(rt.alloc(), link.as_str()) {
        Ok(target) => Ok(Some(target)),
        Err(_) => Err(NO_MEMORY),
    }
}

/// Returns the path behind all links at the end of a path.
fn behind_links<R: Files + AllocGlobal>(rt: &R, path: &str) -> Result<PathBuf, FileFault> {
    let Ok(mut target) = PathBuf::from_str(rt.alloc(), path) else {
        return Err(NO_MEMORY);
    };
    for _ in 0..MOST_LINKS {
        match behind_link(rt, target.as_str())? {
            Some(next) => target = next,
            None => return Ok(target),
        }
    }
    Err(FileFault::File(ErrorKind::FilesystemLoop))
}

/// Returns the path of the file that a path names, behind the links at its end. The file may be missing.
///
/// # Errors
///
/// [`FileFault::NotAFile`] if something else is there, such as a directory, and what the system says.
pub fn target_of<R: Files + AllocGlobal>(rt: &R, path: &str) -> Result<PathBuf, FileFault> {
    let target = behind_links(rt, path)?;
    is_there(rt, target.as_str())?;
    Ok(target)
}

/// Returns the same, or `None` if the system refuses to say.
fn known_target<R: Files + AllocGlobal>(rt: &R, path: &str) -> Result<Option<PathBuf>, AllocError> {
    match behind_links(rt, path) {
        Ok(target) => Ok(Some(target)),
        Err(FileFault::Snapshot(_)) => Err(AllocError),
        Err(_) => Ok(None),
    }
}

/// Returns whether the system has the same thing at both paths.
fn is_one_node<R: Files>(rt: &R, one: &str, other: &str) -> bool {
    match (fs::metadata(rt, one), fs::metadata(rt, other)) {
        (Ok(one), Ok(other)) => one.dev() == other.dev() && one.ino() == other.ino(),
        _ => false,
    }
}

/// Returns whether a name is another one, or that of what a member puts beside the file with that name.
fn is_taken_by(name: &str, other: &str) -> bool {
    matches!(
        name.strip_prefix(other),
        Some("" | ".new" | ".lock" | ".log" | ".log.old")
    )
}

/// Returns whether two paths behind all links are of one file, or one of them is of what a member puts beside the other.
fn is_one_target<R: Files>(rt: &R, one: &str, other: &str) -> bool {
    if is_one_node(rt, one, other) {
        return true;
    }
    let (name, other_name) = (name_of(one), name_of(other));
    (is_taken_by(name, other_name) || is_taken_by(other_name, name))
        && is_one_node(rt, directory_of(one), directory_of(other))
}

/// Returns whether two paths name one file, by what the system says of both, or one of them names what a member puts beside the
/// other.
///
/// # Errors
///
/// [`AllocError`] if memory runs out.
pub fn are_one_file<R: Files + AllocGlobal>(
    rt: &R,
    one: &str,
    other: &str,
) -> Result<bool, AllocError>
    ensures same_words { one.now ≡ other.now → result ≡ Ok true }
{
    if one == other {
        return Ok(true);
    }
    let Some(one) = known_target(rt, one)? else {
        return Ok(false);
    };
    match known_target(rt, other)? {
        Some(other) => Ok(is_one_target(rt, one.as_str(), other.as_str())),
        None => Ok(false),
    }
}
