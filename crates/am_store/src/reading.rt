//! The contents of the logs beside a file.

ghost use Rattle.std.specs.Prelude.{◌≡◌, OnOk, IfOk, IfSome};
ghost use Rattle.am_merge.specs.Maps.{IsMap};
ghost use Rattle.am_store.specs.Logs.{JoinsLog, ReadsOn};

use crate::batches::Batches;
use crate::beside::beside;
use crate::file_fault::FileFault;
use crate::log_error::LogError;
use crate::log_file::settle;
use crate::opening::{is_own_file_there, is_there};
use am_merge::{Held, HeldBuilder};
use am_snapshot::SnapshotError;
use am_version_order::Version;
use am_wire::{Message, Messages, RowFault, Unknown, WireError};
use std::alloc::Global;
use std::fs::{self, File};
use std::io::{BufReader, ErrorKind, Read};
use std::rt::Files;

/// The fault of a log to which nothing is added any more: it failed before, which was reported then, or it is as long as a log
/// may be.
pub const NO_LOG: FileFault = FileFault::File(ErrorKind::Other);

/// The end of a log that was read.
#[derive(Clone, Copy)]
pub struct LogEnd {
    /// The number of bytes that its whole blocks take.
    pub end: u64,
    /// The number of bytes after them, which were being written when the last process ended.
    pub torn: u64,
}

/// The ends of both logs beside a file, if there are any.
#[derive(Clone, Copy)]
pub struct FoundLogs {
    /// The end of `FILE.log.old`.
    pub old: Option<LogEnd>,
    /// The end of `FILE.log`.
    pub log: Option<LogEnd>,
}

impl FoundLogs {
    /// Returns the number of bytes of both logs that were being written when the last process ended.
    pub fn torn(&self) -> u64 {
        torn_of(self.old).saturating_add(torn_of(self.log))
    }
}

/// Returns the number of bytes of a log that were being written.
fn torn_of(log: Option<LogEnd>) -> u64 {
    match log {
        Some(log) => log.torn,
        None => 0,
    }
}

/// Converts a log's error to a file's fault.
pub fn fault_of(error: LogError) -> FileFault {
    match error {
        LogError::Memory => FileFault::Snapshot(SnapshotError::Memory),
        LogError::Failed(error) => FileFault::from(error),
        LogError::Full | LogError::Closed => NO_LOG,
    }
}

/// Builds the map.
fn build<V: Version>(builder: HeldBuilder<V>) -> Result<Held<V>, FileFault>
    ensures { IfOk result (λ held. held ≡ builder) }
{
    match builder.build() {
        Ok(held) => Ok(held),
        Err(_) => Err(FileFault::Snapshot(SnapshotError::Memory)),
    }
}

/// Takes the versions of a batch.
fn read_batch<V: Version + Message>(
    alloc: Global,
    unknown: Unknown,
    builder: &mut HeldBuilder<V>,
    batch: &[u8],
) -> Result<(), WireError>
    requires { IsMap V.seen V.Key.cmp builder.old }
    ensures order { OnOk result (IsMap V.seen V.Key.cmp builder.new) }
    ensures read { OnOk result (ReadsOn V.seen (V.reads unknown) builder.old batch.now builder.new) }
{
    for message in Messages::<V>::within(alloc, unknown, batch, 0) {
        let version = message?;
        builder.take(version)?;
    }
    Ok(())
}

/// Takes the versions of a batch, with its error as a file's fault.
fn read_on<V: Version + Message>(
    alloc: Global,
    unknown: Unknown,
    builder: &mut HeldBuilder<V>,
    batch: &[u8],
) -> Result<(), FileFault>
    requires { IsMap V.seen V.Key.cmp builder.old }
    ensures order { OnOk result (IsMap V.seen V.Key.cmp builder.new) }
    ensures read { OnOk result (ReadsOn V.seen (V.reads unknown) builder.old batch.now builder.new) }
{
    match read_batch(alloc, unknown, builder, batch) {
        Ok(()) => Ok(()),
        Err(fault) => Err(FileFault::Snapshot(SnapshotError::from(RowFault::from(fault)))),
    }
}

/// Reads the whole batches that are left of a log, and returns the map of the greatest version of each key among theirs and those
/// that were read before.
///
/// # Errors
///
/// The first [`FileFault`].
fn read_rest<V: Version + Message, R: Read>(
    alloc: Global,
    unknown: Unknown,
    mut builder: HeldBuilder<V>,
    batches: &mut Batches,
    reader: &mut R,
) -> Result<Held<V>, FileFault>
    requires { IsMap V.seen V.Key.cmp builder }
    ensures { IfOk result (λ held. IfSome (R.remaining reader.old) (λ log. JoinsLog V.seen (V.reads unknown) builder log held)) }
{
    'blocks: for _ in 0..u64::MAX {
        match batches.next(reader) {
            Ok(Some(batch)) => read_on(alloc, unknown, &mut builder, &batch)?,
            Ok(None) => return build(builder),
            Err(error) => return Err(fault_of(error)),
        }
    }
    Err(NO_LOG)
}

/// Joins what is left of a log into a state: afterwards it has the greatest version of each key among its own and those of all
/// whole batches, with unknown fields treated as `unknown` says.
///
/// # Errors
///
/// The first [`FileFault`]. The state may be empty then.
pub fn join_batches<V: Version + Message, R: Read>(
    alloc: Global,
    unknown: Unknown,
    held: &mut Held<V>,
    reader: &mut R,
) -> Result<LogEnd, FileFault>
    ensures { OnOk result (IfSome (R.remaining reader.old) (λ log. JoinsLog V.seen (V.reads unknown) held.old log held.new)) }
{
    held.has_values();
    let mut batches = Batches::new(alloc);
    match batches.next(reader) {
        Ok(Some(first)) => {
            let mut builder = HeldBuilder::of(held);
            read_on(alloc, unknown, &mut builder, &first)?;
            *held = read_rest(alloc, unknown, builder, &mut batches, reader)?;
            Ok(end_of(&batches))
        }
        Ok(None) => Ok(end_of(&batches)),
        Err(error) => Err(fault_of(error)),
    }
}

/// Returns the end of a log that was read whole.
fn end_of(batches: &Batches) -> LogEnd {
    LogEnd {
        end: batches.end(),
        // (one byte is the closed gate)
        torn: batches.behind().saturating_sub(1),
    }
}

/// Opens a file for reading, if there is one.
///
/// # Errors
///
/// [`FileFault::NotAFile`], or the error that the system reports.
pub fn opened<R: Files<File = File> + AllocGlobal>(
    rt: &R,
    path: &str,
) -> Result<Option<BufReader<File>>, FileFault> {
    if !is_there(rt, path)? {
        return Ok(None);
    }
    let file = fs::open(rt, path)?;
    Ok(Some(BufReader::new(rt.alloc(), file)?))
}

/// Opens a log beside a file, if there is one, as it stands on the disk. A link is refused, since a member renames its logs.
///
/// # Errors
///
/// Those of [`opened`], and [`FileFault::NotAFile`] for a link.
pub fn opened_log<R: Files<File = File> + AllocGlobal>(
    rt: &R,
    path: &str,
    ending: &str,
) -> Result<Option<BufReader<File>>, FileFault> {
    let name = beside(rt.alloc(), path, ending)?;
    if !is_own_file_there(rt, name.as_str())? {
        return Ok(None);
    }
    let file = fs::open(rt, name.as_str())?;
    settle(&file)?;
    Ok(Some(BufReader::new(rt.alloc(), file)?))
}
