//! Logs of batches, in memory and in a file.

use am_store::{Batches, Device, Found, Journal, LogError, LogFile, Memory, open_file, settle};
use std::alloc::Global;
use std::fs::{self, File, OpenOptions};
use std::io::{BufReader, Read};

const FOLDER: &str = "am_journal_test";

const PATH: &str = "am_journal_test/log";

// A whole block of the batch 5 50, followed by a torn one.
const TORN: [u8; 14] = [1, 2, 0, 0, 0, 0, 0, 0, 0, 5, 50, 1, 9, 0];

// A log of the batch 5 50.
const ONE: [u8; 12] = [1, 2, 0, 0, 0, 0, 0, 0, 0, 5, 50, 0];

// A log of the batches 5 50 and 6.
const TWO: [u8; 22] = [
    1, 2, 0, 0, 0, 0, 0, 0, 0, 5, 50, 1, 1, 0, 0, 0, 0, 0, 0, 0, 6, 0,
];

/// Returns whether a torn block is dropped behind a whole one, and nothing is read after it.
pub fn drops_a_torn_block(alloc: Global) -> Option<bool> {
    let mut batches = Batches::new(alloc);
    let mut left = TORN.as_slice();
    let first = batches.next(&mut left).ok()?;
    let has_first = first.as_deref() == Some([5, 50].as_slice());
    let is_dropped = batches.next(&mut left).ok()?.is_none();
    let is_counted = batches.end() == 11 && batches.behind() == 3;
    let is_closed = matches!(batches.next(&mut left), Err(LogError::Closed));
    Some(has_first && is_dropped && is_counted && is_closed)
}

// Returns the journal of an empty file after the batches 5 50 and 6.
#[tactic(auto, unfolding(am_store::specs::Blocks::recovered, am_store::specs::Blocks::recovered_within))]
fn written(alloc: Global) -> Result<Journal<Memory>, LogError> {
    let file = Memory::new(alloc, Vec::new(alloc));
    let mut journal = match Journal::open(file, 0) {
        Ok(journal) => journal,
        Err((error, _)) => return Err(error),
    };
    journal.commit(alloc, &[5, 50])?;
    journal.commit(alloc, &[])?;
    journal.commit(alloc, &[6])?;
    Ok(journal)
}

/// Returns whether batches are written one behind another.
pub fn writes_batches(alloc: Global) -> Option<bool> {
    let journal = written(alloc).ok()?;
    let len = journal.len();
    let file = journal.into_device();
    Some(len == 21 && file.bytes() == TWO.as_slice())
}

fn open_log(rt: &HostRuntime) -> Result<Journal<LogFile<Found>>, LogError> {
    let file = OpenOptions::new()
        .read(true)
        .write(true)
        .create(true)
        .open(rt, PATH)?;
    settle(&file)?;
    let mut batches = Batches::new(rt.alloc());
    let mut reader = BufReader::new(rt.alloc(), file.try_clone()?)?;
    for _ in 0..100 {
        if batches.next(&mut reader)?.is_none() {
            break;
        }
    }
    let Some(found) = Found::new(batches.end()) else {
        return Err(LogError::Full);
    };
    open_file(file, found)
}

// Returns whether a new file has the batch that is committed to it.
fn is_begun(rt: &HostRuntime) -> Option<bool> {
    let mut journal = open_log(rt).ok()?;
    journal.commit(rt.alloc(), &[5, 50]).ok()?;
    drop(journal);
    let log = fs::read(rt, PATH).ok()?;
    Some(log.as_slice() == ONE.as_slice())
}

// Returns whether a file with a torn block goes on behind its whole one.
fn goes_on(rt: &HostRuntime) -> Option<bool> {
    fs::write(rt, PATH, TORN.as_slice()).ok()?;
    let mut journal = open_log(rt).ok()?;
    let len = journal.len();
    journal.commit(rt.alloc(), &[6]).ok()?;
    drop(journal);
    let log = fs::read(rt, PATH).ok()?;
    Some(len == 11 && log.as_slice() == TWO.as_slice())
}

/// Returns whether a log in a file goes on when it is opened again, in a folder that is made for this and removed.
pub fn opens_a_file_again(rt: &HostRuntime) -> Option<bool> {
    let _ = fs::remove_dir_all(rt, FOLDER);
    fs::create_dir(rt, FOLDER).ok()?;
    let is_begun = is_begun(rt);
    let goes_on = goes_on(rt);
    fs::remove_dir_all(rt, FOLDER).ok()?;
    Some(is_begun? && goes_on?)
}
