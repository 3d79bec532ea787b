//! The saving of a state in a file.

ghost use Rattle.std.specs.Prelude.{◌≡◌, ◌++◌, [], Some, length, IfOk, IfErr, OnOk};
ghost use Rattle.am_snapshot.specs.Encodings.{row_encoding};
ghost use Rattle.am_snapshot.specs.Saving.{FitsRow, IsSavableWithin};
ghost use Rattle.am_store.specs.Saves.{IsDirectoryOf, IsLeft, IsSaved, IsStopped, beside, replacing};

use crate::disk::Disk;
use crate::file_fault::FileFault;
use am_merge::Held;
use am_snapshot::{SnapshotError, save_within};
use am_version_order::Version;
use std::alloc::Global;

/// Returns the directory of a file.
pub fn directory_of(path: &str) -> &str
    ensures { IsDirectoryOf path.now result.now }
{
    match path.rsplit_once('/') {
        Some(("", _)) => "/",
        Some((directory, _)) => directory,
        None => ".",
    }
}

/// Writes a new file beside another one, syncs it to the disk, and puts it in the other's place.
fn replace<V: Version, D: Disk>(
    disk: &mut D,
    alloc: Global,
    mut file: D::File,
    new: &str,
    path: &str,
    held: &Held<V>,
    most: u32,
) -> Result<u64, FileFault>
    requires new { new.now ≡ beside path.now }
    requires empty { D.File.contents file ≡ Some [] }
    ensures replaced { OnOk result (D.calls disk.new ≡ D.calls disk.old ++ replacing path.now (row_encoding V.seen held.now)) }
    ensures savable { OnOk result (IsSavableWithin V.seen V.Key.cmp V.is_value most held.now) }
    ensures count { IfOk result (λ written. written ≡ length (row_encoding V.seen held.now)) }
    ensures left { IfErr result (IsLeft (FitsRow V.seen most held.now) path.now (row_encoding V.seen held.now) (D.calls disk.old) (D.calls disk.new)) }
{
    disk.permit(&file, path)?;
    let written = save_within(alloc, held, &mut file, most)?;
    disk.sync(file)?;
    disk.rename(new, path)?;
    Ok(written)
}

/// Saves a state in a file: it is written beside the existing file, and takes its place once it is whole and on the disk; then
/// the directory is synced to the disk. Returns the number of bytes written, which is at most `most`.
///
/// # Errors
///
/// The reason why it isn't saved, as a [`FileFault`]. The file that was there is as it was then, or the new one is there if
/// only the directory wasn't synced to the disk.
pub fn save_file<V: Version, D: Disk>(
    disk: &mut D,
    alloc: Global,
    path: &str,
    held: &Held<V>,
    most: u32,
) -> Result<u64, FileFault>
    // PROMISE: A save that succeeds wrote a new file, synced it, renamed it and synced its directory.
    ensures saved { OnOk result (IsSaved path.now (row_encoding V.seen held.now) (D.calls disk.old) (D.calls disk.new)) }
    ensures savable { OnOk result (IsSavableWithin V.seen V.Key.cmp V.is_value most held.now) }
    ensures count { IfOk result (λ written. written ≡ length (row_encoding V.seen held.now)) }
    // PROMISE: A save that fails removes its own new file and touches nothing else.
    ensures stopped { IfErr result (IsStopped (FitsRow V.seen most held.now) path.now (row_encoding V.seen held.now) (D.calls disk.old) (D.calls disk.new)) }
{
    let Ok(new) = format!(in alloc; "{path}.new") else {
        return Err(FileFault::Snapshot(SnapshotError::Memory));
    };
    let _ = disk.remove(&new);
    let file = disk.make(&new)?;
    let replaced = replace(disk, alloc, file, &new, path, held, most);
    if replaced.is_err() {
        let _ = disk.remove(&new);
        return replaced;
    }
    disk.sync_directory(directory_of(path))?;
    replaced
}
