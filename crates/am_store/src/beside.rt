//! The files that stand beside a state's file.

ghost use Rattle.std.specs.Prelude.{◌≡◌, ◌++◌, [], ◌∷◌, Bool, false, string_bytes, IfOk, IfErr, OnErr, OnOk};
ghost use Rattle.am_store.specs.Calls.{Remove};
ghost use Rattle.am_store.specs.Parting.{RemovalStop, removing, removing_until};
ghost use Rattle.am_store.specs.Rewrites.{old_log, own_log};

use crate::disk::Disk;
use crate::file_fault::FileFault;
use am_snapshot::SnapshotError;
use std::alloc::Global;
use std::io::ErrorKind;

/// The ending of the log of what has come since the file was written, or since it began to be written anew.
pub const LOG: &str = ".log";

/// The ending of the log of what came before that, kept while the file is written anew.
pub const OLD_LOG: &str = ".log.old";

/// The ending of the new file, while the file is written anew.
pub const NEW: &str = ".new";

/// The ending of the file that is locked while a process has the state's file.
pub const LOCK: &str = ".lock";

/// Returns the path of the file beside `path` whose name ends in `ending`.
///
/// # Errors
///
/// [`SnapshotError::Memory`] alone.
pub fn beside(alloc: Global, path: &str, ending: &str) -> Result<String, FileFault>
    ensures name { IfOk result (λ name. string_bytes name ≡ path.now ++ ending.now) }
    ensures memory { IfErr result (λ fault. fault ≡ FileFault.Snapshot SnapshotError.Memory) }
{
    match format!(in alloc; "{path}{ending}") {
        Ok(name) => Ok(name),
        Err(_) => Err(FileFault::Snapshot(SnapshotError::Memory)),
    }
}

/// Removes the file at a path, and returns whether there was one.
///
/// # Errors
///
/// The error that the system reports.
fn remove<D: Disk>(disk: &mut D, path: &str) -> Result<bool, FileFault>
    ensures removed { IfOk result (λ stood. D.calls disk.new ≡ D.calls disk.old ++ (Remove path.now, stood) ∷ []) }
    ensures kept { OnErr result (D.calls disk.new ≡ D.calls disk.old ++ (Remove path.now, false) ∷ []) }
{
    match disk.remove(path) {
        Ok(()) => Ok(true),
        Err(error) if error.kind() == ErrorKind::NotFound => Ok(false),
        Err(error) => Err(FileFault::from(error)),
    }
}

/// Removes both logs beside a file, which have these paths. The older one goes first, and for good: if it alone came back, what
/// the other one had ended would be there again.
///
/// # Errors
///
/// The error that the system reports.
pub fn remove_logs<D: Disk>(
    disk: &mut D,
    path: &str,
    old: &str,
    own: &str,
    directory: &str,
) -> Result<(), FileFault>
    requires old { old.now ≡ old_log path.now }
    requires own { own.now ≡ own_log path.now }
    ensures removed { OnOk result ((old_stood : Bool) × (own_stood : Bool)
        × (D.calls disk.new ≡ D.calls disk.old ++ removing old_stood own_stood path.now directory.now)) }
    ensures stopped { OnErr result ((stop : RemovalStop) × (D.calls disk.new ≡ D.calls disk.old ++ removing_until stop path.now directory.now)) }
{
    if remove(disk, old)? {
        disk.sync_directory(directory)?;
    }
    remove(disk, own)?;
    Ok(())
}
