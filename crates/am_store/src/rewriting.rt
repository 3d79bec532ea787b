//! The stages of writing a file anew, as calls of a file system.

ghost use Rattle.std.specs.Prelude.{◌≡◌, ◌⊎◌, ◌≤◌, ◌<◌, ◌+◌, ◌++◌, ℕ, List, [], ◌∷◌, Bool, Option, length, IfOk, IfErr, OnOk};
ghost use Rattle.std.specs.Io.KnownBytes.{Appends};
ghost use Rattle.std.specs.declared.fs.File.{File};
ghost use Rattle.am_snapshot.specs.declared.pieces.RowPiece.{RowPiece};
ghost use Rattle.am_snapshot.specs.Pieces.{IsPiece};
ghost use Rattle.am_store.specs.Calls.{Remove};
ghost use Rattle.am_store.specs.Saves.{IsOfSystem};
ghost use Rattle.am_store.specs.declared.stages.CompactionStage.TheVariants as stages;
ghost use Rattle.am_store.specs.Rewrites.{Advances, left_at, old_log, place_from, stretch};

use crate::beside::{NEW, beside};
use crate::disk::Disk;
use crate::file_fault::FileFault;
use crate::saving::directory_of;
use crate::stages::{CompactionStage, NewFile, WholeNewFile};
use am_merge::{Held, Iter};
use am_snapshot::{RowPiece, SnapshotError, row_piece};
use am_version_order::Version;
use std::alloc::Global;
use std::fs::File;
use std::io::{self, ErrorKind, Write};

/// The most bytes in a stretch, unless one version alone has more.
const MOST_OF_STRETCH: usize = 262_144;

/// Removes a new file that doesn't take the place of the old one, and returns the system's error as a fault.
fn remove_new<D: Disk>(disk: &mut D, name: &str, error: io::Error) -> FileFault
    ensures removed { (removed : Bool) × (D.calls disk.new ≡ D.calls disk.old ++ (Remove name.now, removed) ∷ []) }
    ensures fault { IsOfSystem result }
{
    let _ = disk.remove(name);
    FileFault::from(error)
}

/// Makes the new file beside the one at a path, with its permissions. Whatever was there is removed first, so that nothing is
/// written through a link.
pub fn make_new<V: Version, D: Disk>(
    disk: &mut D,
    alloc: Global,
    path: &str,
) -> Result<CompactionStage<V::Key, D::File>, FileFault>
where
    V::Key: Drop,
    ensures { (most : ℕ) (map : List V) → Advances V.seen V.Key.cmp path.now most D.File.contents map stages.Make (D.calls disk.old) result (D.calls disk.new) }
{
    let name = beside(alloc, path, NEW)?;
    let _ = disk.remove(&name);
    let file = disk.make(&name)?;
    match disk.permit(&file, path) {
        Ok(()) => Ok(CompactionStage::Write(
            NewFile {
                name,
                file,
                written: 0,
            },
            None,
        )),
        Err(error) => Err(remove_new(disk, &name, error)),
    }
}

/// Returns the versions from a key on, or all of them.
fn left_of<'a, V: Version>(held: &'a Held<V>, from: &Option<V::Key>) -> Iter<'a, V>
    ensures { result ≡ left_at V.seen V.Key.cmp held.now (place_from from.now) }
{
    match from {
        Some(key) => held.iter_from(key),
        None => held.iter(),
    }
}

/// Returns the number of bytes with a row added.
///
/// # Errors
///
/// [`SnapshotError::TooLarge`] if there are more than `most` then.
fn with_more(written: u64, row: &[u8], most: u32) -> Result<u64, FileFault>
    ensures more { IfOk result (λ count. (count ≡ written + length row.now) × (count ≤ most)) }
    ensures too_large { IfErr result (λ fault. (fault ≡ FileFault.Snapshot SnapshotError.TooLarge) × (most < written + length row.now)) }
{
    let written = written.saturating_add(row.len() as u64);
    if written > u64::from(most) {
        return Err(FileFault::Snapshot(SnapshotError::TooLarge));
    }
    Ok(written)
}

/// Appends bytes to a new file, and hands them to the disk.
fn write_down<D: Disk>(disk: &mut D, file: &mut D::File, bytes: &[u8]) -> io::Result<()>
    ensures bytes { OnOk result (Appends (D.File.contents file.old) (D.File.contents file.new) bytes.now) }
    ensures calls { D.calls disk.new ≡ D.calls disk.old }
{
    file.write_all(bytes)?;
    disk.sync_data(file)
}

/// Writes the first of these versions to a new file, and returns the key of the first one behind them, if there is one.
fn write_piece<V: Version, D: Disk>(
    disk: &mut D,
    alloc: Global,
    new: &mut NewFile<D::File>,
    left: Iter<'_, V>,
    most: u32,
) -> Result<Option<V::Key>, FileFault>
where
    V::Key: Drop,
    ensures piece { IfOk result (λ next. (piece : RowPiece V.Key) × IsPiece V.seen stretch left.entry piece × (next ≡ piece.next)
        × Appends (D.File.contents new.old.file) (D.File.contents new.new.file) piece.row
        × (new.new.written ≡ new.old.written + length piece.row) × (new.new.written ≤ most)) }
    ensures calls { D.calls disk.new ≡ D.calls disk.old }
    ensures name { new.new.name ≡ new.old.name }
    ensures fault { IfErr result (λ fault. IsOfSystem fault ⊎ ((fault ≡ FileFault.Snapshot SnapshotError.TooLarge)
        × (piece : RowPiece V.Key) × IsPiece V.seen stretch left.entry piece × (most < new.old.written + length piece.row))) }
{
    let Ok(RowPiece { row, next }) = row_piece(alloc, left, MOST_OF_STRETCH) else {
        return Err(FileFault::Snapshot(SnapshotError::Memory));
    };
    let written = with_more(new.written, row.as_slice(), most)?;
    write_down(disk, &mut new.file, row.as_slice())?;
    new.written = written;
    Ok(next)
}

/// Writes a piece to the new file: the versions of `held` from a key on, or all, as many as fit in a stretch.
pub fn write_stretch<V: Version, D: Disk>(
    disk: &mut D,
    alloc: Global,
    path: &str,
    mut new: NewFile<D::File>,
    from: Option<V::Key>,
    held: &Held<V>,
    most: u32,
) -> Result<CompactionStage<V::Key, D::File>, FileFault>
where
    V::Key: Drop,
    ensures { Advances V.seen V.Key.cmp path.now most D.File.contents held.now (stages.Write new from) (D.calls disk.old) result (D.calls disk.new) }
{
    match write_piece(disk, alloc, &mut new, left_of(held, &from), most) {
        Ok(Some(key)) => Ok(CompactionStage::Write(new, Some(key))),
        Ok(None) => Ok(CompactionStage::HandOver(new)),
        Err(fault) => {
            let _ = disk.remove(&new.name);
            Err(fault)
        }
    }
}

/// Syncs the new file to the disk.
pub fn hand_over<V: Version, D: Disk>(
    disk: &mut D,
    path: &str,
    new: NewFile<D::File>,
) -> Result<CompactionStage<V::Key, D::File>, FileFault>
where
    V::Key: Drop,
    ensures { (most : ℕ) (map : List V) → Advances V.seen V.Key.cmp path.now most D.File.contents map (stages.HandOver new) (D.calls disk.old) result (D.calls disk.new) }
{
    let NewFile {
        name,
        file,
        written,
    } = new;
    match disk.sync(file) {
        Ok(()) => Ok(CompactionStage::Rename(WholeNewFile { name, written })),
        Err(error) => Err(remove_new(disk, &name, error)),
    }
}

/// Puts the new file in the place of the old one, which was opened if it could be.
pub fn put_in_place<V: Version, D: Disk>(
    disk: &mut D,
    path: &str,
    new: WholeNewFile,
    replaced: Option<File>,
) -> Result<CompactionStage<V::Key, D::File>, FileFault>
where
    V::Key: Drop,
    ensures { (most : ℕ) (map : List V) → Advances V.seen V.Key.cmp path.now most D.File.contents map (stages.Rename new) (D.calls disk.old) result (D.calls disk.new) }
{
    match disk.rename(&new.name, path) {
        Ok(()) => Ok(CompactionStage::Settle(replaced)),
        Err(error) => Err(remove_new(disk, &new.name, error)),
    }
}

/// Syncs the directory to the disk, so that the new file stays in the place of the old one.
pub fn settle<V: Version, D: Disk>(
    disk: &mut D,
    path: &str,
) -> Result<CompactionStage<V::Key, D::File>, FileFault>
where
    V::Key: Drop,
    ensures { (most : ℕ) (map : List V) (replaced : Option File) →
        Advances V.seen V.Key.cmp path.now most D.File.contents map (stages.Settle replaced) (D.calls disk.old) result (D.calls disk.new) }
{
    disk.sync_directory(directory_of(path))?;
    Ok(CompactionStage::EndLog)
}

/// Removes the old log, which has this name and was opened if it could be. There may be none.
pub fn end_log<V: Version, D: Disk>(
    disk: &mut D,
    path: &str,
    name: &str,
    log: Option<File>,
) -> Result<CompactionStage<V::Key, D::File>, FileFault>
where
    V::Key: Drop,
    requires { name.now ≡ old_log path.now }
    ensures { (most : ℕ) (map : List V) → Advances V.seen V.Key.cmp path.now most D.File.contents map stages.EndLog (D.calls disk.old) result (D.calls disk.new) }
{
    match disk.remove(name) {
        Err(error) if error.kind() != ErrorKind::NotFound => Err(FileFault::from(error)),
        _ => Ok(CompactionStage::SettleEnd(log)),
    }
}

/// Syncs the directory to the disk, so that the old log doesn't come back.
pub fn settle_end<V: Version, D: Disk>(
    disk: &mut D,
    path: &str,
) -> Result<CompactionStage<V::Key, D::File>, FileFault>
where
    V::Key: Drop,
    ensures { (most : ℕ) (map : List V) (log : Option File) →
        Advances V.seen V.Key.cmp path.now most D.File.contents map (stages.SettleEnd log) (D.calls disk.old) result (D.calls disk.new) }
{
    disk.sync_directory(directory_of(path))?;
    Ok(CompactionStage::Done)
}
