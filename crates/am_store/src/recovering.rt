//! Recovery of a state from what a start finds.

ghost use Rattle.std.specs.Prelude.{OnOk, IfOk, IfSome};
ghost use Rattle.am_store.specs.Logs.{JoinsLog};
ghost use Rattle.am_store.specs.Recovering.{HoldsRow, IsRecovered, content_of};

use crate::beside::{LOG, OLD_LOG};
use crate::file_fault::FileFault;
use crate::reading::{FoundLogs, LogEnd, join_batches, opened, opened_log};
use am_merge::Held;
use am_snapshot::load_within;
use am_version_order::Version;
use am_wire::{Message, Unknown};
use std::alloc::Global;
use std::fs::File;
use std::io::Read;
use std::rt::Files;

/// A state as it was found.
#[derive(Drop)]
pub struct Recovered<V: Version> {
    pub held: Held<V>,
    /// The ends of its logs.
    pub logs: FoundLogs,
}

/// Returns the state that a file of at most `most` bytes and two logs hold together, each of which may be missing: the greatest
/// version of each key among those of the file and those of all whole batches of both logs, with unknown fields treated as
/// `unknown` says.
///
/// # Errors
///
/// The first [`FileFault`], in this order.
pub fn recover<V: Version + Message, R: Read + Drop>(
    alloc: Global,
    unknown: Unknown,
    file: Option<R>,
    most: u32,
    old_log: Option<R>,
    log: Option<R>,
) -> Result<Recovered<V>, FileFault>
    // PROMISE: A start holds the greatest version of each key in the file and both logs.
    ensures { IfOk result (λ recovered. IfSome (content_of R.remaining file) (λ row.
        IfSome (content_of R.remaining old_log) (λ first. IfSome (content_of R.remaining log) (λ second.
        IsRecovered V.seen (V.reads unknown) row first second recovered.held)))) }
{
    let mut held = load_any(alloc, unknown, file, most)?;
    let old_end = join_any(alloc, unknown, &mut held, old_log)?;
    let end = join_any(alloc, unknown, &mut held, log)?;
    Ok(Recovered {
        held,
        logs: FoundLogs {
            old: old_end,
            log: end,
        },
    })
}

/// Reads the state that a file holds, if there is one.
fn load_any<V: Version + Message, R: Read + Drop>(
    alloc: Global,
    unknown: Unknown,
    file: Option<R>,
    most: u32,
) -> Result<Held<V>, FileFault>
    ensures { IfOk result (λ held. IfSome (content_of R.remaining file) (λ row. HoldsRow V.seen (V.reads unknown) row held)) }
{
    match file {
        Some(mut reader) => load_one(alloc, unknown, &mut reader, most),
        None => {
            let mut nothing: &[u8] = &[];
            load_one(alloc, unknown, &mut nothing, most)
        }
    }
}

/// Reads the state that a file holds.
fn load_one<V: Version + Message, R: Read>(
    alloc: Global,
    unknown: Unknown,
    reader: &mut R,
    most: u32,
) -> Result<Held<V>, FileFault>
    ensures { IfOk result (λ held. IfSome (R.remaining reader.old) (λ row. HoldsRow V.seen (V.reads unknown) row held)) }
{
    Ok(load_within(alloc, unknown, reader, most)?)
}

/// Joins the versions of a log into a state, if there is one, treating unknown fields as `unknown` says.
///
/// # Errors
///
/// Those of [`join_batches`].
pub fn join_any<V: Version + Message, R: Read + Drop>(
    alloc: Global,
    unknown: Unknown,
    held: &mut Held<V>,
    log: Option<R>,
) -> Result<Option<LogEnd>, FileFault>
    ensures { OnOk result (IfSome (content_of R.remaining log) (λ batches. JoinsLog V.seen (V.reads unknown) held.old batches held.new)) }
{
    match log {
        Some(mut reader) => Ok(Some(join_batches(alloc, unknown, held, &mut reader)?)),
        None => {
            let mut nothing: &[u8] = &[];
            join_batches(alloc, unknown, held, &mut nothing)?;
            Ok(None)
        }
    }
}

/// Reads the state that a file of at most `most` bytes and the logs beside it hold together, treating unknown fields as `unknown`
/// says. Nothing is written.
///
/// # Errors
///
/// Those of [`recover`], and the error that the system reports.
pub fn load_state<V: Version + Message, R: Files<File = File> + AllocGlobal>(
    rt: &R,
    unknown: Unknown,
    path: &str,
    most: u32,
) -> Result<Recovered<V>, FileFault> {
    let file = opened(rt, path)?;
    let old = opened_log(rt, path, OLD_LOG)?;
    let log = opened_log(rt, path, LOG)?;
    recover(rt.alloc(), unknown, file, most, old, log)
}
