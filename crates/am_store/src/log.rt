//! The log of a state: what was taken since its file was written, on the disk before it is answered.

ghost use Rattle.std.specs.Prelude.{◌≡◌, ◌++◌, [], ◌∷◌, true, false, is_ok, OnOk, OnErr};
ghost use Rattle.am_store.specs.Appending.{Appends, Commits, rows_in, trusted};
ghost use Rattle.am_store.specs.Parting.{BeginningStop, FailsToPart, IsAnew, MayPart, Opens, StopsAnew, beginning, beginning_until};
ghost use Rattle.am_store.specs.Calls.{SyncDirectory};
ghost use Rattle.am_store.specs.Rewrites.{own_log};

use crate::beside::{LOG, OLD_LOG, beside, remove_logs};
use crate::disk::Disk;
use crate::file_fault::FileFault;
use crate::journal::Journal;
use crate::log_error::LogError;
use crate::log_file::{Found, LogFile, open_file};
use crate::reading::{LogEnd, NO_LOG, fault_of};
use crate::saving::directory_of;
use crate::system::SystemDisk;
use am_snapshot::SnapshotError;
use std::alloc::Global;
use std::fs::{File, OpenOptions};
use std::rt::Files;

/// The most bytes in a batch, unless one row alone has more: what comes beyond is a batch of its own.
const MOST_OF_BATCH: usize = 1 << 24;

/// The least size in bytes at which a log is outgrown, even if the file of its state is smaller.
const LEAST_OUTGROWN: u64 = 1 << 20;

/// The log of a state.
#[derive(Drop)]
pub struct StateLog {
    /// The file of the log, as long as it is trusted.
    journal: Option<Journal<LogFile<Found>>>,
    /// The rows that wait for the next commit.
    batch: Vec<u8>,
}

/// Returns the log in a file whose whole blocks end at byte `end`.
fn log_in(file: File, end: u64) -> Result<Journal<LogFile<Found>>, FileFault> {
    let Some(found) = Found::new(end) else {
        return Err(NO_LOG);
    };
    match open_file(file, found) {
        Ok(journal) => Ok(journal),
        Err(error) => Err(fault_of(error)),
    }
}

/// Makes a new log with this path beside a file that has none. The log has the permissions of the file, and is in its directory
/// from now on.
fn new_log<R: Files<File = File>>(
    disk: &mut SystemDisk<'_, R>,
    path: &str,
    own: &str,
    directory: &str,
) -> Result<Journal<LogFile<Found>>, FileFault>
    requires { own.now ≡ own_log path.now }
    ensures begun { OnOk result (disk.new.log.events ≡ disk.old.log.events ++ beginning path.now directory.now) }
    ensures stopped { OnErr result ((stop : BeginningStop) × (disk.new.log.events ≡ disk.old.log.events ++ beginning_until stop path.now directory.now)) }
{
    let file = disk.make(own)?;
    disk.permit(&file, path)?;
    let journal = log_in(file.into_file(), 0)?;
    disk.sync_directory(directory)?;
    Ok(journal)
}

/// Opens the log with this path, which was read up to its end. The log is in its directory from now on: the process that made it
/// may have ended before it handed that to the disk.
fn old_log<R: Files<File = File>>(
    rt: &R,
    disk: &mut SystemDisk<'_, R>,
    own: &str,
    directory: &str,
    read: LogEnd,
) -> Result<Journal<LogFile<Found>>, FileFault>
    ensures { OnOk result (disk.new.log.events ≡ disk.old.log.events ++ (SyncDirectory directory.now, true) ∷ []) }
{
    let mut how = OpenOptions::new();
    how.read(true).write(true);
    let journal = log_in(how.open(rt, own)?, read.end)?;
    disk.sync_directory(directory)?;
    Ok(journal)
}

impl StateLog {
    /// Opens the log beside the file of this path, which was read up to `read`, or makes a new one.
    ///
    /// # Errors
    ///
    /// The error that the system reports.
    pub fn open<R: Files<File = File> + AllocGlobal>(
        rt: &R,
        disk: &mut SystemDisk<'_, R>,
        path: &str,
        read: Option<LogEnd>,
    ) -> Result<StateLog, FileFault>
        ensures { OnOk result (Opens true path.now disk.old.log.events disk.new.log.events) }
    {
        let own = beside(rt.alloc(), path, LOG)?;
        let directory = directory_of(path);
        let journal = match read {
            Some(read) => old_log(rt, disk, &own, directory, read)?,
            None => new_log(disk, path, &own, directory)?,
        };
        Ok(StateLog {
            journal: Some(journal),
            batch: Vec::new(rt.alloc()),
        })
    }

    /// Returns whether what is added to the log will be on the disk.
    pub fn is_trusted(&self) -> bool
        ensures { result ≡ trusted self.now }
    {
        self.journal.is_some()
    }

    /// Adds rows to those that wait. If they are too many for one batch, those before them are committed first.
    ///
    /// # Errors
    ///
    /// The reason why the rows don't wait, or why those before them weren't committed.
    pub fn append(&mut self, alloc: Global, rows: &[u8]) -> Result<(), FileFault>
        ensures { OnOk result (Appends rows.now (rows_in self.old) (rows_in self.new)) }
    {
        if rows.len() > MOST_OF_BATCH.saturating_sub(self.batch.len()) {
            self.commit(alloc)?;
        }
        match self.batch.extend_from_slice(rows) {
            Ok(()) => Ok(()),
            Err(_) => Err(FileFault::Snapshot(SnapshotError::Memory)),
        }
    }

    /// Hands the waiting rows to the disk. If that fails, the log is no longer trusted, and nothing waits.
    ///
    /// # Errors
    ///
    /// The reason why the rows aren't on the disk.
    pub fn commit(&mut self, alloc: Global) -> Result<(), FileFault>
        ensures ok { OnOk result (Commits (rows_in self.old) (rows_in self.new)) }
        ensures err { OnErr result (trusted self.new ≡ false) }
    {
        if self.batch.is_empty() {
            return Ok(());
        }
        let committed = match &mut self.journal {
            Some(journal) => journal.commit(alloc, &self.batch),
            None => Err(LogError::Closed),
        };
        self.batch.clear();
        match committed {
            Ok(()) => Ok(()),
            Err(error) => {
                self.journal = None;
                Err(fault_of(error))
            }
        }
    }

    /// Returns whether the log is larger than the file of the state, which has `file` bytes, and larger than 1 MiB.
    pub fn is_outgrown(&self, file: u64) -> bool {
        match &self.journal {
            Some(journal) => journal.len() > file.max(LEAST_OUTGROWN),
            None => false,
        }
    }

    /// Begins a new log, and leaves what was committed so far as the old log, if there is none. The waiting rows go into the new
    /// one.
    ///
    /// # Errors
    ///
    /// The error that the system reports. If the old log then stands without a new one, no log is trusted.
    pub fn part<R: Files<File = File>>(
        &mut self,
        disk: &mut SystemDisk<'_, R>,
        alloc: Global,
        path: &str,
    ) -> Result<(), FileFault>
        ensures waiting { (rows_in self.new).waiting ≡ (rows_in self.old).waiting }
        ensures parted { OnOk result (MayPart path.now disk.old.log.events disk.new.log.events self.old self.new) }
        ensures stopped { OnErr result (FailsToPart path.now disk.old.log.events disk.new.log.events self.old self.new) }
    {
        let directory = directory_of(path);
        let own = beside(alloc, path, LOG)?;
        let old = beside(alloc, path, OLD_LOG)?;
        if disk.find(&old)? {
            return Ok(());
        }
        if !self.is_trusted() {
            return Err(NO_LOG);
        }
        disk.rename(&own, &old)?;
        self.journal = None;
        self.begin(disk, path, &own, directory)
    }

    /// Begins the log anew, now that everything is in the file of the state, including the rows that wait.
    ///
    /// # Errors
    ///
    /// The error that the system reports. The log isn't trusted then.
    pub fn begin_anew<R: Files<File = File>>(
        &mut self,
        disk: &mut SystemDisk<'_, R>,
        alloc: Global,
        path: &str,
    ) -> Result<(), FileFault>
        ensures waiting { (rows_in self.new).waiting ≡ [] }
        ensures anew { trusted self.new ≡ is_ok result }
        ensures begun { OnOk result (IsAnew true path.now disk.old.log.events disk.new.log.events) }
        ensures stopped { OnErr result (StopsAnew path.now disk.old.log.events disk.new.log.events) }
    {
        self.journal = None;
        self.batch.clear();
        let directory = directory_of(path);
        let own = beside(alloc, path, LOG)?;
        let old = beside(alloc, path, OLD_LOG)?;
        remove_logs(disk, path, &old, &own, directory)?;
        self.begin(disk, path, &own, directory)
    }

    /// Begins a new log at this path, at which there is none.
    fn begin<R: Files<File = File>>(
        &mut self,
        disk: &mut SystemDisk<'_, R>,
        path: &str,
        own: &str,
        directory: &str,
    ) -> Result<(), FileFault>
        requires { own.now ≡ own_log path.now }
        ensures waiting { (rows_in self.new).waiting ≡ (rows_in self.old).waiting }
        ensures begun { OnOk result (disk.new.log.events ≡ disk.old.log.events ++ beginning path.now directory.now) }
        ensures trust { OnOk result (trusted self.new ≡ true) }
        ensures stopped { OnErr result ((stop : BeginningStop) × (disk.new.log.events ≡ disk.old.log.events ++ beginning_until stop path.now directory.now)) }
        ensures no_trust { OnErr result (trusted self.new ≡ trusted self.old) }
    {
        let journal = new_log(disk, path, own, directory)?;
        self.journal = Some(journal);
        Ok(())
    }
}
