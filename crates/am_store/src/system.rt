//! The file system of this machine. Its calls and their answers are recorded in a list that only clauses read. Two things are
//! argued and not proved, since no proof can show them: that each method of [`SystemDisk`], and `write` of [`SystemFile`], does
//! on this machine what it records, and nothing else; and that the system does what it answers.

ghost use Rattle.std.specs.Prelude.{◌≡◌, [], ◌∷◌, ◌++◌, Bool};
ghost use Rattle.am_store.specs.Calls.{Event, call_of, written_in};

use crate::disk::Disk;
use crate::disk_calls::DiskCalls;
use crate::file_fault::FileFault;
use crate::opening::is_there;
use std::fs::{self, File, OpenFile};
use std::io::{self, Write};
use std::rt::Files;

const REMOVED: u64 = 0;

const MADE: u64 = 1;

const PERMITTED: u64 = 2;

const WRITTEN: u64 = 3;

const SYNCED: u64 = 4;

const RENAMED: u64 = 5;

const DIRECTORY_SYNCED: u64 = 6;

const MISSED: u64 = 7;

/// The file system of this machine, and the calls so far.
#[derive(Drop)]
pub struct SystemDisk<'r, R: Files> {
    system: &'r R,
    log: DiskCalls,
}

/// A new file of this machine.
#[derive(Drop)]
pub struct SystemFile<F: Drop> {
    file: F,
    log: DiskCalls,
}

impl<'r, R: Files> SystemDisk<'r, R> {
    /// Returns a file system of which these calls were made.
    pub(crate) fn after(system: &'r R, calls: DiskCalls) -> SystemDisk<'r, R>
        ensures { result.log.events ≡ calls.events }
    {
        SystemDisk { system, log: calls }
    }

    /// Returns the calls so far.
    pub(crate) fn into_calls(self) -> DiskCalls
        ensures { result.events ≡ self.entry.log.events }
    {
        self.log
    }
}

impl<F: Drop> SystemFile<F> {
    /// Returns the file alone.
    pub(crate) fn into_file(self) -> F {
        self.file
    }
}

/// Returns the calls so far and one more, with up to two paths.
fn noted(log: &DiskCalls, call: u64, is_done: bool, first: &str, second: &str) -> DiskCalls
    ensures { result.events ≡ log.now.events ++ (call_of call first.now second.now [], is_done) ∷ [] }
{
    let numbers = [call, u64::from(is_done)];
    DiskCalls::with(
        log,
        &numbers,
        first.as_bytes(),
        second.as_bytes(),
        &DiskCalls::new(),
    )
}

impl<F: Write + Drop> Write for SystemFile<F> {
    ghost use Rattle.std.specs.Prelude.{Some};
    ghost use Rattle.am_store.specs.Calls.{written_in};

    ghost contents = { λ file. Some (written_in file.log.events) };

    fn write(&mut self, buf: &[u8]) -> io::Result<usize> {
        let taken = self.file.write(buf)?;
        self.log = DiskCalls::with(&self.log, &[WRITTEN, 1], &buf[..taken], &[], &self.log);
        Ok(taken)
    }

    fn flush(&mut self) -> io::Result<()> {
        self.file.flush()
    }
}

impl<R: Files> Disk for SystemDisk<'_, R> {
    type File = SystemFile<R::File>;

    ghost calls = { λ disk. disk.log.events };

    fn remove(&mut self, path: &str) -> io::Result<()> {
        let removed = fs::remove_file(self.system, path);
        self.log = noted(&self.log, REMOVED, removed.is_ok(), path, "");
        removed
    }

    fn make(&mut self, path: &str) -> io::Result<SystemFile<R::File>> {
        let made = File::create_new(self.system, path);
        self.log = noted(&self.log, MADE, made.is_ok(), path, "");
        Ok(SystemFile {
            file: made?,
            log: DiskCalls::new(),
        })
    }

    fn permit(&mut self, file: &SystemFile<R::File>, path: &str) -> io::Result<()> {
        let permitted = match fs::metadata(self.system, path) {
            Ok(found) => file.file.set_permissions(found.permissions()),
            Err(_) => Ok(()),
        };
        self.log = noted(&self.log, PERMITTED, permitted.is_ok(), path, "");
        permitted
    }

    fn sync_data(&mut self, file: &SystemFile<R::File>) -> io::Result<()> {
        file.file.sync_data()
    }

    fn sync(&mut self, file: SystemFile<R::File>) -> io::Result<()> {
        let synced = file.file.sync_all();
        let numbers = [SYNCED, u64::from(synced.is_ok())];
        self.log = DiskCalls::with(&self.log, &numbers, &[], &[], &file.log);
        synced
    }

    fn rename(&mut self, from: &str, to: &str) -> io::Result<()> {
        let renamed = fs::rename(self.system, from, to);
        self.log = noted(&self.log, RENAMED, renamed.is_ok(), from, to);
        renamed
    }

    fn sync_directory(&mut self, path: &str) -> io::Result<()> {
        let synced = sync(self.system, path);
        self.log = noted(&self.log, DIRECTORY_SYNCED, synced.is_ok(), path, "");
        synced
    }

    fn find(&mut self, path: &str) -> Result<bool, FileFault> {
        let found = is_there(self.system, path);
        let is_missed = matches!(found, Ok(false));
        self.log = noted(&self.log, MISSED, is_missed, path, "");
        found
    }
}

/// Syncs the names in a directory to the disk.
fn sync<R: Files>(system: &R, path: &str) -> io::Result<()> {
    let opened = fs::open(system, path)?;
    opened.sync_all()
}
