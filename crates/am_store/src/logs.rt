//! The logs beside a file, for a reader that doesn't own the file: nothing is locked, written, cut or handed to the disk.

ghost use Rattle.std.specs.Prelude.{OnOk, IfSome};
ghost use Rattle.am_snapshot.specs.Saving.{FitsRow};
ghost use Rattle.am_store.specs.Logs.{JoinsLog};

use crate::beside::{LOG, OLD_LOG, beside};
use crate::file_fault::FileFault;
use crate::opening::is_there;
use crate::paths::target_of;
use crate::reading::join_batches;
use crate::whole_file::WholeFile;
use am_merge::Held;
use am_snapshot::{SnapshotError, row_length_within};
use am_version_order::Version;
use am_wire::{Message, Unknown};
use std::alloc::Global;
use std::fs::File;
use std::io::{BufReader, ErrorKind, Read};
use std::rt::Files;

/// The logs that stand beside a file, opened.
#[derive(Drop)]
pub struct Logs {
    opened: Vec<OpenedLog>,
}

/// An open log.
#[derive(Drop)]
struct OpenedLog {
    path: String,
    file: WholeFile,
}

/// The reason why a log isn't read.
#[derive(Drop)]
pub struct LogFault {
    /// The path of the log, or none if memory ran out before there was one.
    pub path: Option<String>,
    /// The fault.
    pub fault: FileFault,
}

/// Returns the fault for want of memory.
fn no_memory() -> LogFault {
    LogFault {
        path: None,
        fault: FileFault::Snapshot(SnapshotError::Memory),
    }
}

impl Logs {
    /// Returns no logs.
    pub fn none(alloc: Global) -> Logs {
        Logs {
            opened: Vec::new(alloc),
        }
    }

    /// Opens the logs that stand beside a file, after following all links. If `path` names no file, or isn't reached, there are
    /// no logs: opening the file itself tells the caller why.
    ///
    /// The file has to be opened after its logs. What a member takes goes from `FILE.log` to `FILE.log.old`, which is the same
    /// file renamed, and from there to `FILE`, before `FILE.log.old` is removed. So a reader that opens them in this order misses
    /// nothing that was on the disk before, whatever is renamed and removed meanwhile; what is met twice is joined twice, which
    /// makes no difference.
    ///
    /// # Errors
    ///
    /// The first [`LogFault`].
    pub fn open<R: Files<File = File> + AllocGlobal>(rt: &R, path: &str) -> Result<Logs, LogFault> {
        let mut logs = Logs::none(rt.alloc());
        let target = match target_of(rt, path) {
            Ok(target) => target,
            Err(FileFault::Snapshot(_)) => return Err(no_memory()),
            Err(_) => return Ok(logs),
        };
        logs.add(rt, target.as_str(), LOG)?;
        logs.add(rt, target.as_str(), OLD_LOG)?;
        Ok(logs)
    }

    /// Opens one more log, if there is one.
    fn add<R: Files<File = File> + AllocGlobal>(
        &mut self,
        rt: &R,
        target: &str,
        ending: &str,
    ) -> Result<(), LogFault> {
        let Ok(path) = beside(rt.alloc(), target, ending) else {
            return Err(no_memory());
        };
        let file = match open_log(rt, path.as_str()) {
            Ok(Some(file)) => file,
            Ok(None) => return Ok(()),
            Err(fault) => {
                return Err(LogFault {
                    path: Some(path),
                    fault,
                });
            }
        };
        match self.opened.push(OpenedLog { path, file }) {
            Ok(()) => Ok(()),
            Err(_) => Err(no_memory()),
        }
    }

    /// Returns whether there are any logs.
    pub fn are_there(&self) -> bool {
        !self.opened.is_empty()
    }

    /// Joins the versions of the logs into a state, treating unknown fields as `unknown` says, up to the first block of each log
    /// that isn't whole: what follows is still being written, or was when a process ended, and nobody got an answer about it.
    ///
    /// # Errors
    ///
    /// The first [`LogFault`]: [`SnapshotError::TooLarge`] if the state comes to more than `most` bytes, and
    /// [`ErrorKind::UnexpectedEof`] if a log was removed and made shorter while it was read.
    pub fn join<V: Version + Message>(
        self,
        alloc: Global,
        unknown: Unknown,
        held: &mut Held<V>,
        most: u32,
    ) -> Result<(), LogFault> {
        for log in self.opened {
            let OpenedLog { path, file } = log;
            if let Err(fault) = join_file(alloc, unknown, held, file, most) {
                return Err(LogFault {
                    path: Some(path),
                    fault,
                });
            }
        }
        Ok(())
    }
}

/// Opens a log, if there is one. It may be renamed or removed at any moment.
fn open_log<R: Files<File = File>>(rt: &R, path: &str) -> Result<Option<WholeFile>, FileFault> {
    if !is_there(rt, path)? {
        return Ok(None);
    }
    match WholeFile::open(rt, path) {
        Ok(file) => Ok(Some(file)),
        Err(FileFault::File(ErrorKind::NotFound)) => Ok(None),
        Err(fault) => Err(fault),
    }
}

/// Joins what is left of a log into a state of at most `most` bytes.
fn join_within<V: Version + Message, R: Read>(
    alloc: Global,
    unknown: Unknown,
    held: &mut Held<V>,
    reader: &mut R,
    most: u32,
) -> Result<(), FileFault>
    ensures joined { OnOk result (IfSome (R.remaining reader.old) (λ log. JoinsLog V.seen (V.reads unknown) held.old log held.new)) }
    ensures fits { OnOk result (FitsRow V.seen most held.new) }
{
    join_batches(alloc, unknown, held, reader)?;
    match row_length_within(held, most) {
        Some(_) => Ok(()),
        None => Err(FileFault::Snapshot(SnapshotError::TooLarge)),
    }
}

/// Joins the versions of an open log into a state of at most `most` bytes.
fn join_file<V: Version + Message>(
    alloc: Global,
    unknown: Unknown,
    held: &mut Held<V>,
    file: WholeFile,
    most: u32,
) -> Result<(), FileFault> {
    let mut reader = BufReader::new(alloc, file)?;
    join_within(alloc, unknown, held, &mut reader, most)
}
