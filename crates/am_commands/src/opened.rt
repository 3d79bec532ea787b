//! Sources that are opened: files, with the logs beside them if these are asked for, standard input, and what a replica told.

ghost use Rattle.std.specs.Prelude.{◌≡◌, ℕ, List, IfOk, IfErr, IfSome, Option};
ghost use Rattle.am_merge.specs.Maps.{IsMap};
ghost use Rattle.am_commands.specs.Rows.{GivesOpened, GivesRow, StopsRow};

use crate::fault::SourceFault;
use crate::host::CommandRuntime;
use crate::losses::{HasLosses, watch_for};
use crate::replica::ToldRow;
use crate::source::Source;
use am_diagnostics::Fault;
use am_merge::Held;
use am_options::{STANDARD_INPUT, SourceWord, StateName};
use am_report::{LossReader, Losses};
use am_snapshot::{SnapshotError, load_within, take_row_within};
use am_store::{FileFault, LogFault, Logs, WholeFile};
use am_version_order::Version;
use am_wire::{Message, Unknown};
use std::alloc::{AllocError, Global};
use std::fs;
use std::io::{self, BufReader, ErrorKind, Read, Stdin};

/// The place where the row of a source stands.
#[derive(Drop)]
pub enum RowOrigin {
    File(WholeFile),
    StandardInput(Stdin),
    /// The row that a replica told when it was asked by its gossip.
    Replica(ToldRow),
}

impl Read for RowOrigin {
    fn read(&mut self, buf: &mut [u8]) -> io::Result<usize> {
        match self {
            RowOrigin::File(file) => file.read(buf),
            RowOrigin::StandardInput(input) => input.read(buf),
            RowOrigin::Replica(row) => row.read(buf),
        }
    }
}

/// The row of a source.
#[derive(Drop)]
pub struct Row {
    origin: RowOrigin,
    /// The reader that notes the losses of its versions for a person.
    watch: Option<LossReader>,
}

impl Read for Row {
    fn read(&mut self, buf: &mut [u8]) -> io::Result<usize> {
        let count = self.origin.read(buf)?;
        if let Some(bytes) = buf.get(..count) {
            self.watch = noted(self.watch.take(), bytes);
        }
        Ok(count)
    }
}

/// Notes what comes next of a row. If memory runs out, nothing is noted any more.
fn noted(watch: Option<LossReader>, bytes: &[u8]) -> Option<LossReader> {
    let mut watch = watch?;
    match watch.take(bytes) {
        Ok(()) => Some(watch),
        Err(_) => None,
    }
}

/// Returns a row of a state that stands there.
///
/// # Errors
///
/// [`ErrorKind::OutOfMemory`] if memory runs out.
pub fn row_from<R: CommandRuntime>(
    rt: &R,
    state: StateName,
    origin: RowOrigin,
) -> io::Result<BufReader<Row>> {
    let watch = watch_for(rt, state);
    BufReader::new(rt.alloc(), Row { origin, watch })
}

/// Opens the row of a source: a file, or standard input.
///
/// # Errors
///
/// [`FileFault::NotAFile`] of a directory, and what the system says.
fn open_row<R: CommandRuntime>(
    rt: &R,
    state: StateName,
    input: Stdin,
    file: &str,
) -> Result<BufReader<Row>, FileFault> {
    let origin = if file == STANDARD_INPUT {
        RowOrigin::StandardInput(input)
    } else {
        RowOrigin::File(open_file(rt, file)?)
    };
    Ok(row_from(rt, state, origin)?)
}

/// Opens a file, or a pipe that stands in its place.
fn open_file<R: CommandRuntime>(rt: &R, file: &str) -> Result<WholeFile, FileFault> {
    if fs::metadata(rt, file)?.is_dir() {
        return Err(FileFault::NotAFile);
    }
    WholeFile::open(rt, file)
}

/// The rule on keys that come twice in the row of a source.
#[derive(Clone, Copy)]
pub enum Keys {
    /// A key comes once, as in a snapshot.
    Once,
    /// A key may come again, and its greatest version counts.
    Repeated,
}

/// The way in which the row of a source is read.
#[derive(Clone, Copy)]
pub struct ReadOptions {
    /// The state whose versions it has.
    pub state: StateName,
    pub keys: Keys,
    /// The maximum number of bytes of the row, and of the map with what logs add.
    pub most: u32,
    /// The policy for unknown fields of versions.
    pub unknown: Unknown,
}

/// A source that is asked for: the words that name it, and the way in which it is read.
#[derive(Clone, Copy)]
pub struct SourceRequest<'a> {
    pub word: SourceWord<'a>,
    /// True if the logs beside its file are read too.
    pub has_logs: bool,
    pub reading: ReadOptions,
}

/// A source that is opened: its row, and the logs beside it.
#[derive(Drop)]
pub struct OpenedSource<R: Drop> {
    /// None if logs stand beside no file.
    pub row: Option<R>,
    /// None if no logs are asked for.
    pub logs: Option<Logs>,
    pub reading: ReadOptions,
}

impl HasLosses for OpenedSource<BufReader<Row>> {
    fn add_losses(&self, losses: &mut Losses) -> Result<(), AllocError> {
        match &self.row {
            Some(row) => match &row.get_ref().watch {
                Some(watch) => losses.join(&watch.losses),
                None => Ok(()),
            },
            None => Ok(()),
        }
    }
}

/// Reads the source to its end: the map of its row, joined with what the logs have.
impl<V: Version + Message, R: Read + Drop> Source<V> for OpenedSource<R> {
    ghost use Rattle.am_commands.specs.Rows.{GivesOpened, StopsOpened, UnlessLogged};

    ghost gives = { λ opened held. UnlessLogged opened.logs (GivesOpened V.seen (V.reads opened.reading.unknown) R.remaining opened.reading.keys opened.row held) };

    ghost stops = { λ opened fault.
        UnlessLogged opened.logs (StopsOpened V.seen (V.reads opened.reading.unknown) R.remaining opened.reading.keys opened.reading.most opened.row fault) };

    fn read(&mut self, alloc: Global) -> Result<Held<V>, SourceFault> {
        let ReadOptions { most, unknown, .. } = self.reading;
        let held = match read_row(alloc, &mut self.row, self.reading) {
            Ok(held) => held,
            Err(error) => return Err(SourceFault::Own(Fault::Snapshot(error))),
        };
        match self.logs.take() {
            Some(logs) => join_logs(alloc, unknown, held, logs, most),
            None => Ok(held),
        }
    }
}

/// Reads the row of a source, if it has one.
fn read_row<V: Version + Message, R: Read + Drop>(
    alloc: Global,
    row: &mut Option<R>,
    reading: ReadOptions,
) -> Result<Held<V>, SnapshotError>
    ensures order { IfOk result (IsMap V.seen V.Key.cmp) }
    ensures given { IfOk result (GivesOpened V.seen (V.reads reading.unknown) R.remaining reading.keys row.old) }
    ensures stopped { IfErr result (λ e. IfSome row.old (λ reader. IfSome (R.remaining reader) (λ bytes.
        (left : Option (List ℕ)) × StopsRow V.seen (V.reads reading.unknown) reading.keys reading.most bytes left e))) }
    ensures some { IfErr result (λ e. (reader : R) × (row.old ≡ Some reader)) }
{
    match row {
        Some(row) => take_or_load(alloc, row, reading),
        None => {
            let held = Held::new(alloc);
            held.has_values();
            Ok(held)
        }
    }
}

/// Reads a row to its end.
fn take_or_load<V: Version + Message, R: Read>(
    alloc: Global,
    row: &mut R,
    reading: ReadOptions,
) -> Result<Held<V>, SnapshotError>
    ensures order { IfOk result (IsMap V.seen V.Key.cmp) }
    ensures given { IfOk result (λ held. IfSome (R.remaining row.old) (λ bytes. GivesRow V.seen (V.reads reading.unknown) reading.keys bytes held)) }
    ensures stopped { IfErr result (λ e. IfSome (R.remaining row.old) (λ bytes.
        (left : Option (List ℕ)) × StopsRow V.seen (V.reads reading.unknown) reading.keys reading.most bytes left e)) }
{
    match reading.keys {
        Keys::Once => match load_within(alloc, reading.unknown, row, reading.most) {
            Ok(held) => Ok(held),
            Err(error) => Err(error),
        },
        Keys::Repeated => match take_row_within(alloc, reading.unknown, row, reading.most) {
            Ok(held) => Ok(held),
            Err(fault) => Err(SnapshotError::from(fault)),
        },
    }
}

/// Joins what logs have into a map.
pub fn join_logs<V: Version + Message>(
    alloc: Global,
    unknown: Unknown,
    mut held: Held<V>,
    logs: Logs,
    most: u32,
) -> Result<Held<V>, SourceFault>
    ensures { IfOk result (IsMap V.seen V.Key.cmp) }
{
    match logs.join(alloc, unknown, &mut held, most) {
        Ok(()) => {
            held.has_values();
            Ok(held)
        }
        Err(fault) => Err(SourceFault::of_log(fault)),
    }
}

/// Opens a source, and the logs beside it if these are asked for.
///
/// # Errors
///
/// Of the log or the file that isn't opened.
pub fn open<R: CommandRuntime>(
    rt: &R,
    input: Stdin,
    asked: SourceRequest<'_>,
) -> Result<OpenedSource<BufReader<Row>>, SourceFault> {
    let SourceRequest {
        word: SourceWord { file, .. },
        has_logs,
        reading,
    } = asked;
    let logs = match logs_beside(rt, file, has_logs) {
        Ok(logs) => logs,
        Err(fault) => return Err(SourceFault::of_log(fault)),
    };
    // (behind the logs, so that nothing is missed that goes from them into the file meanwhile)
    match open_row(rt, reading.state, input, file) {
        Ok(row) => Ok(OpenedSource {
            row: Some(row),
            logs,
            reading,
        }),
        Err(FileFault::File(ErrorKind::NotFound)) if are_there(&logs) => Ok(OpenedSource {
            row: None,
            logs,
            reading,
        }),
        Err(fault) => Err(SourceFault::Own(Fault::File(fault))),
    }
}

/// Opens the logs beside a source, if these are asked for. Standard input has none.
fn logs_beside<R: CommandRuntime>(
    rt: &R,
    file: &str,
    has_logs: bool,
) -> Result<Option<Logs>, LogFault> {
    if has_logs && file != STANDARD_INPUT {
        Ok(Some(Logs::open(rt, file)?))
    } else {
        Ok(None)
    }
}

/// Tells whether there are logs.
fn are_there(logs: &Option<Logs>) -> bool {
    match logs {
        Some(logs) => logs.are_there(),
        None => false,
    }
}

/// A source that is opened when it is read.
pub struct Unopened<'a, R> {
    rt: &'a R,
    input: Stdin,
    asked: SourceRequest<'a>,
    /// The losses of the versions that were read, if they are noted.
    losses: Losses,
}

impl<'a, R: CommandRuntime> Unopened<'a, R> {
    /// Returns a source that is asked for, and isn't read yet.
    pub fn new(rt: &'a R, input: Stdin, asked: SourceRequest<'a>) -> Unopened<'a, R>
        ensures { result.asked ≡ asked.entry }
    {
        Unopened {
            rt,
            input,
            asked,
            losses: Losses::none(rt.alloc()),
        }
    }
}

impl<'a, R> HasLosses for Unopened<'a, R> {
    fn add_losses(&self, losses: &mut Losses) -> Result<(), AllocError> {
        losses.join(&self.losses)
    }
}

impl<'a, R> Drop for Unopened<'a, R> {
    fn drop(self) {
        let Self {
            rt: _,
            input: _,
            asked: _,
            losses: _,
        } = self;
    }
}

/// No clause says what a path opens; what is opened gives the map.
impl<'a, V: Version + Message, R: CommandRuntime> Source<V> for Unopened<'a, R> {
    ghost use Rattle.std.specs.Prelude.{⊤};

    ghost gives = { λ _ _. ⊤ };

    ghost stops = { λ _ _. ⊤ };

    fn read(&mut self, alloc: Global) -> Result<Held<V>, SourceFault> {
        let mut opened = open(self.rt, self.input, self.asked)?;
        let held = opened.read(alloc);
        let _ = opened.add_losses(&mut self.losses);
        held
    }
}
