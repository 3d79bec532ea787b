//! The differences between replicas.

ghost use Rattle.std.specs.Prelude.{◌≡◌, ◌≢◌, IfOk, IfErr, ℕ, List, false, true, if◌then◌else◌};
ghost use Rattle.std.specs.Io.KnownBytes.{Appends};
ghost use Rattle.std.specs.List.{AllZip};
ghost use Rattle.am_report.specs.Later.{has_later_source};
ghost use Rattle.am_report.specs.Sources.{Source as NamedMap};
ghost use Rattle.am_commands.specs.Reading.{IsRead};
ghost use Rattle.am_commands.specs.Opening.{ComesOf, StopsWanted, EndsAt};
ghost use Rattle.am_commands.specs.Differing.{IsReport, StopsReport, IsDiff, StopsDiff, diff_comparison, diff_reading, diff_wants};
ghost use Rattle.am_report.specs.Less.{less_word};

use crate::fault::{SourceFault, Stopped, report_stopped};
use crate::figures::write_figures;
use crate::host::{CommandRuntime, Streams};
use crate::live::ShownSource;
use crate::losses::{HasLosses, warn_of_sources};
use crate::moment::{moment_of, warn};
use crate::opened::{Keys, OpenedSource, ReadOptions, Row, SourceRequest, open};
use crate::replica::told_by;
use crate::source::{Input, Source, inputs_of, read_sources};
use am_diagnostics::{report, status};
use am_nflog::MeshEntry;
use am_options::{DiffForm, DiffJob, PullJob, StateName};
use am_report::{
    Compared, HeldSource, InJson, LineFormat, ReportLine, has_later_source, write_differences,
    write_differences_json,
};
use am_silence::MeshSilence;
use am_snapshot::SnapshotError;
use am_version_order::Moment;
use am_wire::{MOST_MESSAGE_BYTES, Unknown};
use std::alloc::Global;
use std::io::{BufReader, Stdin, Write};
use std::mem;
use std::time::Duration;

/// Compares the sources of a job, and returns the exit status of the program.
pub fn run_diff<'a, R: CommandRuntime>(rt: &'a R, streams: Streams, job: &DiffJob<'a>) -> u8 {
    let now = match moment_of(rt, job.now) {
        Ok(now) => now,
        Err(fault) => return report(rt, fault),
    };
    let Streams { input, mut output } = streams;
    let time_limit = job.time_limit;
    if job.is_live() {
        let shown = |asked| Ok(ShownSource::new(rt, input, time_limit, asked));
        return diff_named::<R, MeshSilence, _, _, _>(rt, job, now, true, shown, &mut output);
    }
    let opened = |asked| open_source(rt, input, time_limit, asked);
    match job.state {
        StateName::Silences => {
            diff_named::<R, MeshSilence, _, _, _>(rt, job, now, false, opened, &mut output)
        }
        StateName::Log => {
            diff_named::<R, MeshEntry, _, _, _>(rt, job, now, false, opened, &mut output)
        }
    }
}

/// Opens the sources of a job, and compares them at a moment. Returns the exit status of the program.
fn diff_named<
    'a,
    R: CommandRuntime,
    V: ReportLine + InJson,
    S: Source<V> + HasLosses,
    F: Fn(SourceRequest<'a>) -> Result<S, SourceFault>,
    W: Write,
>(rt: &R, job: &DiffJob<'a>, now: Moment, is_live: bool, source_of: F, writer: &mut W) -> u8
    requires { F.IsAlwaysCallable source_of }

    // PROMISE: With status 0 `diff` compared just the sources that it names, and they don't differ.
    ensures same { result ≡ 0 → ComesOf (F.post source_of) (diff_wants job.entry.now is_live) (λ inputs.
        IsDiff V.seen V.Key.cmp V.begins V.told V.more (less_word V.seen V.unknown_of V.known_of) V.key_data V.named V.value
        (diff_comparison job.entry.now now is_live) S.gives inputs W.contents writer.old writer.new false) }

    // PROMISE: With status 5 `diff` compared just the sources that it names, and they differ.
    ensures different { result ≡ 5 → ComesOf (F.post source_of) (diff_wants job.entry.now is_live) (λ inputs.
        IsDiff V.seen V.Key.cmp V.begins V.told V.more (less_word V.seen V.unknown_of V.known_of) V.key_data V.named V.value
        (diff_comparison job.entry.now now is_live) S.gives inputs W.contents writer.old writer.new true) }

    // PROMISE: With any other status `diff` stopped at its first fault, and the status is that of this fault.
    ensures stopped { result ≢ 0 → result ≢ 5 → EndsAt (StopsWanted (F.post source_of) (diff_wants job.entry.now is_live)
        (λ inputs. StopsDiff V.seen V.Key.cmp V.begins V.told V.more (less_word V.seen V.unknown_of V.known_of) V.key_data V.named V.value
        (diff_comparison job.entry.now now is_live) S.gives S.stops inputs W.contents writer.old writer.new) writer.old writer.new) result }
{
    let alloc = rt.alloc();
    let reading = reading_of(job, is_live);
    let mut inputs = match inputs_of(alloc, &job.sources, job.has_logs, reading, source_of) {
        Ok(inputs) => inputs,
        Err(stopped) => return report_stopped(rt, name_of(job, &stopped), &stopped),
    };
    let how = comparison_of(job, now, is_live);
    match diff_sources::<V, _, _>(alloc, &mut inputs, &how, writer) {
        Ok(outcome) => {
            warn_of_sources(rt, reading.unknown, &inputs);
            tell(rt, job, outcome)
        }
        Err(stopped) => report_stopped(rt, name_of(job, &stopped), &stopped),
    }
}

/// Returns the name of the source that is at fault.
fn name_of<'a>(job: &DiffJob<'a>, stopped: &Stopped) -> Option<&'a str> {
    let source = job.sources.get(stopped.number()?)?;
    Some(source.name)
}

/// The outcome of a comparison.
#[derive(Clone, Copy)]
pub struct DiffOutcome {
    /// True if there is a difference.
    pub found: bool,
    /// True if something that was read was updated after the moment.
    pub has_later: bool,
}

/// Warns of an early moment, and returns the exit status of the program.
fn tell<R: CommandRuntime>(rt: &R, job: &DiffJob<'_>, outcome: DiffOutcome) -> u8
    ensures { result ≡ (if outcome.found then 5 else 0) }
{
    if outcome.has_later {
        warn(rt, job.now);
    }
    if outcome.found {
        status::DIFFERENT
    } else {
        status::DONE
    }
}

/// The parts of sources that are compared, and the form of the report.
#[derive(Clone, Copy)]
pub struct Comparison {
    pub compared: Compared,
    pub report: DiffForm,
    /// The moment, and the form of lines.
    pub format: LineFormat,
}

/// Returns what of a job's sources is compared at a moment, and how that is told: API v2, and so a comparison with a server,
/// knows no expiries.
fn comparison_of(job: &DiffJob<'_>, now: Moment, is_live: bool) -> Comparison
    ensures { result ≡ diff_comparison job.entry.now now is_live }
{
    Comparison {
        compared: job.compared,
        report: job.report,
        format: LineFormat {
            moment: now,
            has_expiries: !is_live,
            is_long: job.is_long,
        },
    }
}

/// Returns how the rows of sources are read: with the fields of versions that aren't known here, unless a server is among
/// the sources, since API v2 shows none of them.
fn reading_of(job: &DiffJob<'_>, is_live: bool) -> ReadOptions
    ensures { result ≡ diff_reading job.entry.now is_live }
{
    let unknown = if is_live {
        Unknown::Drop
    } else {
        Unknown::Keep
    };
    ReadOptions {
        state: job.state,
        keys: Keys::Repeated,
        most: MOST_MESSAGE_BYTES as u32,
        unknown,
    }
}

/// Opens a source: what a replica tells, beside which no logs stand, a file, or standard input.
pub fn open_source<R: CommandRuntime>(
    rt: &R,
    input: Stdin,
    time_limit: Duration,
    asked: SourceRequest<'_>,
) -> Result<OpenedSource<BufReader<Row>>, SourceFault> {
    let SourceRequest { word, reading, .. } = asked;
    let Some(replica) = word.replica() else {
        return open(rt, input, asked);
    };
    let pull = PullJob {
        state: reading.state,
        name: word.name,
        replica,
        time_limit,
    };
    Ok(OpenedSource {
        row: Some(told_by(rt, &pull)?),
        logs: None,
        reading,
    })
}

/// Writes all differences of maps in the form that is asked for. Returns whether there is one.
fn write_report<V: ReportLine + InJson, W: Write>(
    alloc: Global,
    replicas: &[HeldSource<'_, V>],
    how: &Comparison,
    writer: &mut W,
) -> Result<bool, SnapshotError>
    ensures told { IfOk result (λ found. (text : List ℕ) ×
        IsReport V.seen V.Key.cmp V.begins V.told V.more (less_word V.seen V.unknown_of V.known_of) V.key_data V.named V.value how.now replicas.now found text ×
        Appends (W.contents writer.old) (W.contents writer.new) text) }
    ensures stopped { IfErr result (StopsReport V.seen V.Key.cmp V.begins V.told V.more (less_word V.seen V.unknown_of V.known_of) V.key_data V.named V.value how.now replicas.now
        W.contents writer.old writer.new) }
{
    let format = &how.format;
    match how.report {
        DiffForm::Lines => write_differences(alloc, replicas, how.compared, format, writer),
        DiffForm::Json => write_differences_json(
            alloc,
            replicas,
            how.compared,
            format.moment,
            writer,
        ),
        DiffForm::Figures => write_figures(alloc, replicas, how.compared, format.moment, writer),
    }
}

/// Reads sources, and then writes all their differences: the keys at which they differ, in order.
///
/// The bytes that were read are forgotten: the process is to end then, and its memory with it.
///
/// # Errors
///
/// Those of [`read_sources`], before a byte goes out, and then [`Stopped::Output`] if memory runs out or a write fails.
pub fn diff_sources<V: ReportLine + InJson, S: Source<V>, W: Write>(
    alloc: Global,
    inputs: &mut [Input<'_, S>],
    how: &Comparison,
    writer: &mut W,
) -> Result<DiffOutcome, Stopped>
    // PROMISE: `diff` prints exactly the lines, or the array, of all keys at which its sources differ.
    ensures told { IfOk result (λ outcome. (sources : List (NamedMap V)) ×
        AllZip (IsRead V.seen V.Key.cmp S.gives) inputs.old sources ×
        (outcome.has_later ≡ has_later_source V.seen how.now.format.moment sources) × (text : List ℕ) ×
        IsReport V.seen V.Key.cmp V.begins V.told V.more (less_word V.seen V.unknown_of V.known_of) V.key_data V.named V.value how.now sources outcome.found text ×
        Appends (W.contents writer.old) (W.contents writer.new) text) }

    // PROMISE: If a source is at fault, `diff` tells of the first one, and prints nothing.
    ensures stopped { IfErr result (StopsDiff V.seen V.Key.cmp V.begins V.told V.more (less_word V.seen V.unknown_of V.known_of) V.key_data V.named V.value how.now
        S.gives S.stops inputs.old W.contents writer.old writer.new) }
{
    let replicas: Vec<HeldSource<'_, V>> = match read_sources(alloc, inputs) {
        Ok(replicas) => replicas,
        Err(stopped) => return Err(stopped),
    };
    let has_later = has_later_source(&replicas, how.format.moment);
    let written = write_report(alloc, &replicas, how, writer);
    mem::forget(replicas);
    match written {
        Ok(found) => Ok(DiffOutcome { found, has_later }),
        Err(error) => Err(Stopped::Output(error)),
    }
}
