//! The files of a state, which belong to one process for as long as it lives.

ghost use Rattle.std.specs.Prelude.{◌≡◌, [], false, is_some, length, IfErr, IfOk, IfSome, OnErr, OnOk};
ghost use Rattle.am_snapshot.specs.Encodings.{row_encoding};
ghost use Rattle.am_snapshot.specs.Saving.{FitsRow};
ghost use Rattle.am_store.specs.Appending.{Appends, Commits, IfKept, IsBegunAnew, IsNotTrusted, log_of, rows_if_kept, trusted};
ghost use Rattle.am_store.specs.Histories.{AreOf, Part, Save};
ghost use Rattle.am_store.specs.Parting.{AreOfParting, EndsLogs, FailsToPart, FailsToSave, IfLogKept, IsAnew, IsSavedAnew, MayPart, OfLog, Opens, StopsAnew, keeps_log};
ghost use Rattle.am_store.specs.Rewrites.{path_of};
ghost use Rattle.am_store.specs.Saves.{DropsNew, IsSaved, IsStopped, calls_of};

use crate::beside::{LOG, NEW, OLD_LOG, beside, remove_logs};
use crate::disk::Disk;
use crate::disk_calls::DiskCalls;
use crate::file_fault::FileFault;
use crate::lock::lock_beside;
use crate::log::StateLog;
use crate::paths::target_of;
use crate::reading::FoundLogs;
use crate::recovering::{Recovered, load_state};
use crate::saving::{directory_of, save_file};
use crate::spent::SpentFiles;
use crate::system::SystemDisk;
use am_merge::Held;
use am_snapshot::{SnapshotError, row_length_within};
use am_version_order::Version;
use am_wire::{Message, Unknown};
use std::alloc::Global;
use std::fs::{self, File};
use std::io::ErrorKind;
use std::mem;
use std::path::PathBuf;
use std::rt::Files;

/// A file of a state that no other process has, and the logs beside it.
#[derive(Drop)]
pub struct StateFile {
    /// The path of the file, after following all links.
    path: PathBuf,
    /// The file beside it, which is locked until this is dropped.
    _lock: File,
    /// The log beside it, if one is kept.
    log: Option<StateLog>,
    /// True if a log stands beside it that is to go once the whole state is in the file.
    pub(crate) needs_save: bool,
    /// The number of bytes of the logs that were being written when the last process ended.
    torn: u64,
    /// The size of the file in bytes.
    pub(crate) size: u64,
    /// The files that it replaced, and the old logs.
    pub(crate) spent: SpentFiles,
    /// The calls so far on names in its directory: of its saves, of its logs and of its rewritings, in order.
    pub(crate) calls: DiskCalls,
}

/// A state, just opened.
#[derive(Drop)]
pub struct OpenedState<V: Version> {
    pub file: StateFile,
    /// The state of the file, joined with that of the logs beside it.
    pub held: Held<V>,
}

/// Opens the file that a path names, with the state that the file and the logs beside it hold, treating unknown fields as
/// `unknown` says. The file has at most `most` bytes; `keeps_log` says whether a log is kept from now on.
///
/// # Errors
///
/// The first [`FileFault`].
pub fn open_state<V: Version + Message, R: Files<File = File> + AllocGlobal>(
    rt: &R,
    unknown: Unknown,
    path: &str,
    most: u32,
    keeps_log: bool,
) -> Result<OpenedState<V>, FileFault>
    ensures log { IfOk result (λ opened. is_some (log_of opened.file) ≡ keeps_log) }
    // PROMISE: The first calls on names that a file's record has are those by which its log is opened: a history begins with them.
    ensures calls { IfOk result (λ opened. Opens keeps_log (path_of opened.file) [] (calls_of opened.file)) }
{
    let path = target_of(rt, path)?;
    let lock = lock_beside(rt, path.as_str())?;
    let Recovered { held, logs } = load_state(rt, unknown, path.as_str(), most)?;
    let file = state_file(rt, path, lock, logs, keeps_log)?;
    Ok(OpenedState { file, held })
}

/// Returns the file at a path that was locked and read, with its logs.
fn state_file<R: Files<File = File> + AllocGlobal>(
    rt: &R,
    path: PathBuf,
    lock: File,
    found: FoundLogs,
    keeps_log: bool,
) -> Result<StateFile, FileFault>
    ensures log { IfOk result (λ file. is_some (log_of file) ≡ keeps_log) }
    ensures calls { IfOk result (λ file. Opens keeps_log (path_of file) [] (calls_of file)) }
{
    let size = size_of(rt, path.as_str())?;
    let mut disk = SystemDisk::after(rt, DiskCalls::new());
    let log = if keeps_log {
        Some(StateLog::open(rt, &mut disk, path.as_str(), found.log)?)
    } else {
        None
    };
    Ok(StateFile {
        path,
        _lock: lock,
        log,
        needs_save: found.old.is_some() || (found.log.is_some() && !keeps_log),
        torn: found.torn(),
        size,
        spent: SpentFiles::none(rt.alloc()),
        calls: disk.into_calls(),
    })
}

/// Returns the size of a file in bytes, or 0 if there is none.
fn size_of<R: Files>(rt: &R, path: &str) -> Result<u64, FileFault> {
    match fs::metadata(rt, path) {
        Ok(found) => Ok(found.len()),
        Err(error) if error.kind() == ErrorKind::NotFound => Ok(0),
        Err(error) => Err(FileFault::from(error)),
    }
}

/// Removes the logs beside the file at a path, of which none is kept, for good.
fn end_other_logs<D: Disk>(disk: &mut D, alloc: Global, path: &str) -> Result<(), FileFault>
    ensures ended { OnOk result (IsAnew false path.now (D.calls disk.old) (D.calls disk.new)) }
    ensures stopped { OnErr result (StopsAnew path.now (D.calls disk.old) (D.calls disk.new)) }
{
    let directory = directory_of(path);
    let own = beside(alloc, path, LOG)?;
    let old = beside(alloc, path, OLD_LOG)?;
    remove_logs(disk, path, &old, &own, directory)?;
    disk.sync_directory(directory)?;
    Ok(())
}

/// Begins the log beside the file at a path anew, if one is kept, or else removes those of an earlier time, if there are any.
fn end_logs_beside<R: Files<File = File>>(
    disk: &mut SystemDisk<'_, R>,
    alloc: Global,
    path: &str,
    log: &mut Option<StateLog>,
    has_others: bool,
) -> Result<(), FileFault>
    ensures kept { is_some (rows_if_kept log.new) ≡ is_some (rows_if_kept log.old) }
    ensures anew { OnOk result (IsBegunAnew (rows_if_kept log.new)) }
    ensures untrusted { OnErr result (IfSome log.new (λ log. trusted log ≡ false)) }
    ensures ended { OnOk result (EndsLogs (is_some (rows_if_kept log.new)) path.now disk.old.log.events disk.new.log.events) }
    ensures stopped { OnErr result (StopsAnew path.now disk.old.log.events disk.new.log.events) }
{
    match log {
        Some(log) => log.begin_anew(disk, alloc, path),
        None if has_others => end_other_logs(disk, alloc, path),
        None => Ok(()),
    }
}

/// Parts the log beside the file at a path from the one before it, if one is kept and no old one stands.
fn part_log_beside<R: Files<File = File>>(
    disk: &mut SystemDisk<'_, R>,
    alloc: Global,
    path: &str,
    log: &mut Option<StateLog>,
) -> Result<(), FileFault>
    ensures waiting { IfKept (λ old new. new.waiting ≡ old.waiting) (rows_if_kept log.old) (rows_if_kept log.new) }
    ensures parted { OnOk result (IfLogKept (MayPart path.now) disk.old.log.events disk.new.log.events log.old log.new) }
    ensures stopped { OnErr result (IfLogKept (FailsToPart path.now) disk.old.log.events disk.new.log.events log.old log.new) }
    ensures act { AreOfParting path.now disk.old.log.events disk.new.log.events }
{
    match log {
        Some(log) => log.part(disk, alloc, path),
        None => Ok(()),
    }
}

impl StateFile {
    /// Returns the path of the file, after following all links.
    pub fn path(&self) -> &str
        ensures { result.now ≡ path_of self.now }
    {
        self.path.as_str()
    }

    /// Returns whether a log stands beside the file that is to go once the whole state is in the file: one of an earlier time
    /// if none is kept, or one that an earlier compaction left.
    pub fn needs_save(&self) -> bool {
        self.needs_save
    }

    /// Returns the number of bytes at the end of the logs that were being written when the last process ended. If a log is
    /// kept, they are cut off.
    pub fn torn(&self) -> u64 {
        self.torn
    }

    /// Saves a state of at most `most` bytes, and begins its log anew. Returns the size of the file in bytes.
    ///
    /// # Errors
    ///
    /// The reason why the state isn't saved, or the log not begun. If the state is saved, the log isn't trusted then.
    pub fn save<V: Version, R: Files<File = File> + AllocGlobal>(
        &mut self,
        rt: &R,
        held: &Held<V>,
        most: u32,
    ) -> Result<u64, FileFault>
        ensures path { path_of self.new ≡ path_of self.old }
        ensures kept { keeps_log self.new ≡ keeps_log self.old }
        ensures anew { OnOk result (IsBegunAnew (log_of self.new)) }
        // PROMISE: A save puts just the row of the state into its own file; then its logs are removed, the older one first and for good, and a new one is made, if one is kept.
        ensures saved { OnOk result (IsSavedAnew (keeps_log self.new) (path_of self.old) (row_encoding V.seen held.now) (calls_of self.old) (calls_of self.new)) }
        // PROMISE: If a save stops, its logs are as they were; and if a log can't be begun anew after it, it is no longer trusted.
        ensures failed { IfErr result (FailsToSave (FitsRow V.seen most held.now) (row_encoding V.seen held.now) self.old self.new) }
        ensures count { IfOk result (λ bytes. bytes ≡ length (row_encoding V.seen held.now)) }
        // PROMISE: So each save is an act of a history, behind what was done before, whether it is done or stops.
        ensures act { AreOf V.seen V.Key.cmp (path_of self.old) most (Save held.now) (calls_of self.old) (calls_of self.new) }
    {
        // (want of room may be the reason for this save)
        self.spent.close();
        let bytes = self.write(rt, held, most)?;
        self.size = bytes;
        self.end_logs(rt)?;
        self.needs_save = false;
        Ok(bytes)
    }

    /// Writes a state into the file.
    fn write<V: Version, R: Files<File = File> + AllocGlobal>(
        &mut self,
        rt: &R,
        held: &Held<V>,
        most: u32,
    ) -> Result<u64, FileFault>
        ensures path { path_of self.new ≡ path_of self.old }
        ensures log { self.new.log ≡ self.old.log }
        ensures count { IfOk result (λ bytes. bytes ≡ length (row_encoding V.seen held.now)) }
        ensures saved { OnOk result (IsSaved (path_of self.old) (row_encoding V.seen held.now) (calls_of self.old) (calls_of self.new)) }
        ensures stopped { IfErr result (IsStopped (FitsRow V.seen most held.now) (path_of self.old) (row_encoding V.seen held.now) (calls_of self.old) (calls_of self.new)) }
    {
        let mut disk = SystemDisk::after(rt, mem::replace(&mut self.calls, DiskCalls::new()));
        let saved = save_file(&mut disk, rt.alloc(), self.path.as_str(), held, most);
        self.calls = disk.into_calls();
        saved
    }

    /// Begins the log anew, if one is kept, and removes those of an earlier time. Everything they had is in the file.
    fn end_logs<R: Files<File = File> + AllocGlobal>(&mut self, rt: &R) -> Result<(), FileFault>
        ensures path { path_of self.new ≡ path_of self.old }
        ensures kept { keeps_log self.new ≡ keeps_log self.old }
        ensures anew { OnOk result (IsBegunAnew (log_of self.new)) }
        ensures untrusted { OnErr result (IsNotTrusted self.new) }
        ensures ended { OnOk result (EndsLogs (keeps_log self.new) (path_of self.old) (calls_of self.old) (calls_of self.new)) }
        ensures stopped { OnErr result (StopsAnew (path_of self.old) (calls_of self.old) (calls_of self.new)) }
    {
        let mut disk = SystemDisk::after(rt, mem::replace(&mut self.calls, DiskCalls::new()));
        let path = self.path.as_str();
        let ended = end_logs_beside(&mut disk, rt.alloc(), path, &mut self.log, self.needs_save);
        self.calls = disk.into_calls();
        ended
    }

    /// Begins to write the file anew, which is to have at most `most` bytes: what is committed from now on goes into a new log,
    /// and the one before it is left as `FILE.log.old`. If that stands already, nothing is renamed: the new file has everything
    /// in both logs. Returns the size of the state in bytes.
    ///
    /// # Errors
    ///
    /// [`SnapshotError::TooLarge`], with nothing done, or the error that the system reports.
    pub fn part_logs<V: Version, R: Files<File = File> + AllocGlobal>(
        &mut self,
        rt: &R,
        held: &Held<V>,
        most: u32,
    ) -> Result<u64, FileFault>
        ensures path { path_of self.new ≡ path_of self.old }
        ensures waiting { IfKept (λ old new. new.waiting ≡ old.waiting) (log_of self.old) (log_of self.new) }
        // PROMISE: Before a file is written anew, its log becomes the old one, if the system says that none stands, and a new one is made and is on the disk.
        ensures parted { OnOk result (OfLog (MayPart (path_of self.old)) self.old self.new) }
        ensures stopped { OnErr result (OfLog (FailsToPart (path_of self.old)) self.old self.new) }
        ensures act { AreOf V.seen V.Key.cmp (path_of self.old) most Part (calls_of self.old) (calls_of self.new) }
        ensures count { IfOk result (λ bytes. bytes ≡ length (row_encoding V.seen held.now)) }
        ensures fits { OnOk result (FitsRow V.seen most held.now) }
    {
        let Some(bytes) = row_length_within(held, most) else {
            return Err(FileFault::Snapshot(SnapshotError::TooLarge));
        };
        let mut disk = SystemDisk::after(rt, mem::replace(&mut self.calls, DiskCalls::new()));
        let parted = part_log_beside(&mut disk, rt.alloc(), self.path.as_str(), &mut self.log);
        self.calls = disk.into_calls();
        parted?;
        Ok(bytes)
    }

    /// Removes the new file, as far as it was written.
    pub fn drop_new<R: Files<File = File> + AllocGlobal>(&mut self, rt: &R)
        ensures path { path_of self.new ≡ path_of self.old }
        ensures log { log_of self.new ≡ log_of self.old }
        // PROMISE: If a file is no longer written anew, its new file is removed, and nothing else.
        ensures dropped { DropsNew (path_of self.old) (calls_of self.old) (calls_of self.new) }
    {
        let Ok(name) = beside(rt.alloc(), self.path.as_str(), NEW) else {
            return;
        };
        let mut disk = SystemDisk::after(rt, mem::replace(&mut self.calls, DiskCalls::new()));
        let _ = disk.remove(&name);
        self.calls = disk.into_calls();
    }

    /// Returns whether what is added to the log will be on the disk, if one is kept.
    pub fn is_trusted(&self) -> bool {
        match &self.log {
            Some(log) => log.is_trusted(),
            None => true,
        }
    }

    /// Adds rows to those that wait for the next commit of the log, if one is kept.
    ///
    /// # Errors
    ///
    /// The reason why the rows don't wait.
    pub fn append(&mut self, alloc: Global, rows: &[u8]) -> Result<(), FileFault>
        // PROMISE: A row that a member takes comes behind the rows that its log had.
        ensures appended { OnOk result (IfKept (Appends rows.now) (log_of self.old) (log_of self.new)) }
        ensures path { path_of self.new ≡ path_of self.old }
        ensures calls { calls_of self.new ≡ calls_of self.old }
    {
        match &mut self.log {
            Some(log) => log.append(alloc, rows),
            None => Ok(()),
        }
    }

    /// Hands the waiting rows to the disk, if a log is kept.
    ///
    /// # Errors
    ///
    /// The reason why the rows aren't on the disk.
    pub fn commit(&mut self, alloc: Global) -> Result<(), FileFault>
        // PROMISE: A commit that succeeds has put all rows that waited on the disk, in their order.
        ensures committed { OnOk result (IfKept Commits (log_of self.old) (log_of self.new)) }
        ensures path { path_of self.new ≡ path_of self.old }
        ensures calls { calls_of self.new ≡ calls_of self.old }
    {
        match &mut self.log {
            Some(log) => log.commit(alloc),
            None => Ok(()),
        }
    }

    /// Returns whether a log is kept that has outgrown the file.
    pub fn is_outgrown(&self) -> bool {
        match &self.log {
            Some(log) => log.is_outgrown(self.size),
            None => false,
        }
    }
}
