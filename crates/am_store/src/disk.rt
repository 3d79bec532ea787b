//! A file system as saves, logs and rewritings see it.

ghost use Rattle.std.specs.Prelude.{◌≡◌, ◌++◌, [], ◌∷◌, List, Some, is_ok, IfOk};
ghost use Rattle.am_store.specs.Calls.{Event, Remove, Make, Permit, Sync, Rename, SyncDirectory, Miss};
ghost use Rattle.am_store.specs.Opening.{is_missed};

use crate::file_fault::FileFault;
use std::io::{self, Write};

/// The calls of a file system on names and new files. A call's clause says that it is recorded, whether it succeeded or not, and
/// nothing about what the disk makes of it.
pub trait Disk {
    /// A new file, which is written and then synced to the disk.
    type File: Write + Drop;

    /// The calls so far, in order.
    ghost calls: { Self → List Event };

    /// Removes what is at a path.
    fn remove(&mut self, path: &str) -> io::Result<()>
        ensures noted { calls self.new ≡ calls self.old ++ (Remove path.now, is_ok result) ∷ [] };

    /// Creates a new file at a path where there is nothing.
    fn make(&mut self, path: &str) -> io::Result<Self::File>
        ensures noted { calls self.new ≡ calls self.old ++ (Make path.now, is_ok result) ∷ [] }
        ensures empty { IfOk result (λ file. Self.File.contents file ≡ Some []) };

    /// Gives a new file the permissions of what is at a path, if anything is.
    fn permit(&mut self, file: &Self::File, path: &str) -> io::Result<()>
        ensures noted { calls self.new ≡ calls self.old ++ (Permit path.now, is_ok result) ∷ [] };

    /// Hands what was written to a new file so far to the disk, so that the sync at its end finds less to do. Nothing relies on
    /// it, and it isn't recorded.
    fn sync_data(&mut self, file: &Self::File) -> io::Result<()>
        ensures unnoted { calls self.new ≡ calls self.old };

    /// Syncs a new file to the disk, and closes it.
    fn sync(&mut self, file: Self::File) -> io::Result<()>
        ensures noted { calls self.new ≡ calls self.old ++ (Sync (Self.File.contents file), is_ok result) ∷ [] };

    /// Puts what is at one path in the place of what is at another.
    fn rename(&mut self, from: &str, to: &str) -> io::Result<()>
        ensures noted { calls self.new ≡ calls self.old ++ (Rename from.now to.now, is_ok result) ∷ [] };

    /// Syncs the names in a directory to the disk.
    fn sync_directory(&mut self, path: &str) -> io::Result<()>
        ensures noted { calls self.new ≡ calls self.old ++ (SyncDirectory path.now, is_ok result) ∷ [] };

    /// Returns whether a file is at a path.
    ///
    /// # Errors
    ///
    /// Those of `is_there`.
    fn find(&mut self, path: &str) -> Result<bool, FileFault>
        ensures noted { calls self.new ≡ calls self.old ++ (Miss path.now, is_missed result) ∷ [] };
}
