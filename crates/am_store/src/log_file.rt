//! A file of the operating system. Its calls and their answers are recorded in a list that only clauses read; its content, and
//! what a crash may leave of it, are what the record says of a file that held certain bytes at first. So the clauses of a log
//! hold for the file that runs, if the disk does what that model says.
//!
//! The following is argued and not proved, since no proof can show it:
//!
//! - each method makes the call that it records, and no other code writes to the file;
//! - what a [`Start`] says the file held is what it held, and that was on the disk. [`settle`], called before the file is read,
//!   sees to the second: it syncs the file, and asks the kernel to drop its copies, which a failed sync of an earlier process
//!   may have left different from what the disk has;
//! - a sync that succeeds has put on the disk what was written before it, and the new length;
//! - bytes outside of a range that is written don't change, not even in a crash: the disk finishes a sector once it has begun one.

ghost use Rattle.std.specs.Prelude.{◌≡◌, [], ◌∷◌, List, ℕ, length, is_ok, IsTrue, IfOk, IfErr};
ghost use Rattle.am_store.specs.Blocks.{recovered, blocks_length};
ghost use Rattle.am_store.specs.Device.{IsFailed};
ghost use Rattle.am_store.specs.Events.{seen_after, may_leave_after, left_since, faults_of, may_stay, is_left_now, is_last_moment};
ghost use Rattle.am_store.specs.StandIn.{stand_in};
ghost use Rattle.am_store.specs.Journal.{device_of, usable};

use crate::device::Device;
use crate::journal::Journal;
use crate::log_calls::LogCalls;
use crate::log_error::LogError;
use std::fs::File;
use std::io;
use std::os::fd::AsRawFd;
use std::os::unix::fs::FileExt;

const SYNCED: u64 = 0;

const WRITTEN: u64 = 1;

const CUT: u64 = 2;

/// The number of bytes that the kernel is asked to read at a time: if asked for more, it may read only the first ones.
const AHEAD: usize = 1 << 20;

const MOST_AHEAD: u64 = 1 << 26;

/// The content of a file when it was opened. Code over `S: Start` is proved for all contents whose whole blocks end where `end`
/// says.
pub trait Start: Drop {
    ghost held: { Self → List ℕ };

    /// Returns the number of bytes in its whole blocks.
    fn end(&self) -> u64
        ensures { result ≡ blocks_length (recovered (held self.now)) };
}

/// The end of a file's whole blocks, as it was read. Clauses at this type speak of some file whose blocks end there.
#[derive(Clone, Copy)]
pub struct Found {
    end: u64,
    ghost whole: { end ≡ blocks_length (recovered (stand_in end)) },
}

impl Found {
    /// Returns the end, or `None` for 1 to 8 bytes, which no blocks take.
    pub fn new(end: u64) -> Option<Found> {
        if 0 < end && end < 9 {
            return None;
        }
        Some(Found { end })
    }
}

impl Start for Found {
    ghost held = { λ f. stand_in f.end };

    fn end(&self) -> u64 {
        self.end
    }
}

/// An open file that held what `S` says.
#[derive(Drop)]
pub struct LogFile<S: Start> {
    file: File,
    log: LogCalls,
    start: S,
}

impl<S: Start> Device for LogFile<S> {
    ghost seen = { λ f. seen_after (S.Start.held f.start) f.log.events };

    ghost may_leave = { λ f. may_leave_after (S.Start.held f.start) f.log.events };

    ghost moment = { λ f. length f.log.events };

    ghost left_since = { λ f. left_since (S.Start.held f.start) f.log.events };

    ghost faults = { λ f. faults_of f.log.events };

    ghost seen_may_stay = { λ f. may_stay (S.Start.held f.start) f.log.events };

    ghost counts_now = { λ f t c le now. is_left_now (S.Start.held f.start) f.log.events t c now };

    ghost only_now = { λ f c left. is_last_moment (S.Start.held f.start) f.log.events c left };

    fn write_at(&mut self, at: u64, bytes: &[u8]) -> Result<(), LogError> {
        let answer = self.file.write_all_at(bytes, at);
        noted(&mut self.log, WRITTEN, at, bytes, answer)
    }

    fn cut(&mut self, len: u64) -> Result<(), LogError> {
        let answer = self.file.set_len(len);
        noted(&mut self.log, CUT, len, &[], answer)
    }

    fn sync(&mut self) -> Result<(), LogError> {
        let answer = self.file.sync_data();
        noted(&mut self.log, SYNCED, 0, &[], answer)
    }
}

/// Records a call with its answer, and returns the answer.
fn noted(
    log: &mut LogCalls,
    call: u64,
    at: u64,
    bytes: &[u8],
    answer: io::Result<()>,
) -> Result<(), LogError>
    ensures note { log.new.events ≡ (call, at, is_ok result, bytes.now) ∷ log.old.events }
    ensures failed { IfErr result IsFailed }
{
    match answer {
        Ok(()) => {
            log.note(&[call, at, 1], bytes);
            Ok(())
        }
        Err(error) => {
            log.note(&[call, at, 0], bytes);
            Err(LogError::Failed(error))
        }
    }
}

/// Syncs a file before it is read, and asks the kernel to drop its copies of it, and then to read the first 64 MiB anew while the
/// caller does something else.
///
/// # Errors
///
/// The error that the system returns.
pub fn settle(file: &File) -> io::Result<()> {
    file.sync_all()?;
    match libc::posix_fadvise(file.as_raw_fd(), 0, 0, libc::POSIX_FADV_DONTNEED) {
        0 => read_ahead(file),
        refused => Err(io::Error::from_raw_os_error(refused)),
    }
}

/// Asks the kernel to read a file ahead. What it doesn't read then is read when it is asked for.
fn read_ahead(file: &File) -> io::Result<()> {
    let len = file.metadata()?.len().min(MOST_AHEAD);
    for at in (0..len).step_by(AHEAD) {
        let _advice = libc::posix_fadvise(
            file.as_raw_fd(),
            at as i64,
            AHEAD as i64,
            libc::POSIX_FADV_WILLNEED,
        );
    }
    Ok(())
}

/// Opens the log of a file that was settled and then read, and cuts off what follows its whole blocks.
///
/// # Errors
///
/// [`LogError::Failed`] if the disk failed.
pub fn open_file<S: Start>(file: File, start: S) -> Result<Journal<LogFile<S>>, LogError>
    ensures usable { IfOk result (λ journal. IsTrue (usable journal)) }
    ensures same { IfOk result (λ journal. recovered (⟦<LogFile<S> as Device>⟧.seen (device_of journal)) ≡ recovered (S.held start)) }
{
    let end = start.end();
    let device = LogFile {
        file,
        log: LogCalls::new(),
        start,
    };
    match Journal::open(device, end) {
        Ok(journal) => Ok(journal),
        Err((error, _)) => Err(error),
    }
}
