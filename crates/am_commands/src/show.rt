//! Snapshots, shown.

ghost use Rattle.std.specs.Prelude.{◌≡◌, ◌≢◌, ◌++◌, ℕ, List, IfOk, IfErr, OnOk, string_bytes};
ghost use Rattle.std.specs.Io.KnownBytes.{Appends};
ghost use Rattle.am_merge.specs.Maps.{IsMap};
ghost use Rattle.am_report.specs.Later.{has_later};
ghost use Rattle.am_report.specs.Views.{StopsWriting};
ghost use Rattle.am_commands.specs.Opening.{EndsAt};
ghost use Rattle.am_commands.specs.Showing.{shown_text, StopsShowing, IsShown, OpensFile, StopsFile, file_or_input, show_reading};

use crate::fault::{SourceFault, Stopped, report_stopped};
use crate::host::{CommandRuntime, Streams};
use crate::losses::{HasLosses, warn_of_source};
use crate::moment::{moment_of, warn};
use crate::opened::{Keys, ReadOptions, SourceRequest, Unopened};
use crate::source::Source;
use am_diagnostics::{report, status};
use am_merge::Held;
use am_nflog::MeshEntry;
use am_options::{STANDARD_INPUT, ShowJob, SourceWord, StateName, ViewForm};
use am_report::{InJson, has_later, write_view, write_view_json};
use am_silence::MeshSilence;
use am_snapshot::SnapshotError;
use am_version_order::{Moment, Version};
use am_wire::MOST_MESSAGE_BYTES;
use std::alloc::Global;
use std::io::Write;
use std::mem;

/// Shows what of a snapshot is live, and returns the exit status of the program.
pub fn run_show<'a, R: CommandRuntime>(rt: &'a R, streams: Streams, job: &ShowJob<'a>) -> u8 {
    let now = match moment_of(rt, job.now) {
        Ok(now) => now,
        Err(fault) => return report(rt, fault),
    };
    let Streams { input, mut output } = streams;
    let source_of = |asked| Ok(Unopened::new(rt, input, asked));
    match job.state {
        StateName::Silences => {
            show_file::<R, MeshSilence, _, _, _>(rt, job, now, source_of, &mut output)
        }
        StateName::Log => {
            show_file::<R, MeshEntry, _, _, _>(rt, job, now, source_of, &mut output)
        }
    }
}

/// Shows the file of a job at a moment, or standard input if it names none. Returns the exit status of the program.
fn show_file<
    'a,
    R: CommandRuntime,
    V: Viewed + InJson,
    S: Source<V> + HasLosses,
    F: Fn(SourceRequest<'a>) -> Result<S, SourceFault>,
    W: Write,
>(rt: &R, job: &ShowJob<'a>, now: Moment, source_of: F, writer: &mut W) -> u8
    requires { F.IsAlwaysCallable source_of }

    // PROMISE: With status 0 `show` printed the view of just the file that it names, or of standard input.
    ensures view { result ≡ 0 → (source : S) × OpensFile (F.post source_of) job.entry.now (Ok source)
        × IsShown V.seen V.Key.cmp S.gives (shown_text V.seen V.lines V.value job.entry.now.form now) source W.contents writer.old writer.new }

    // PROMISE: With any other status `show` stopped at a fault of its file, or where it wrote, and the status is that of this
    // fault.
    ensures stopped { result ≢ 0 → EndsAt (StopsFile (F.post source_of) job.entry.now
        (λ source. StopsShowing V.seen V.Key.cmp S.gives S.stops (shown_text V.seen V.lines V.value job.entry.now.form now) source W.contents writer.old writer.new)
        writer.old writer.new) result }
{
    let mut source = match source_of(request_of(job)) {
        Ok(source) => source,
        Err(fault) => {
            return report_stopped(rt, job.file, &Stopped::Source { number: 0, fault });
        }
    };
    match show_source::<V, _, _>(rt.alloc(), &mut source, job.form, now, writer) {
        Ok(has_later) => {
            warn_of_source(rt, job.unknown, &source);
            if has_later {
                warn(rt, job.now);
            }
            status::DONE
        }
        Err(stopped) => report_stopped(rt, job.file, &stopped),
    }
}

/// Returns the source of a job: its file, or standard input if it names none.
fn request_of<'a>(job: &ShowJob<'a>) -> SourceRequest<'a>
    ensures file { result.word.file.now ≡ file_or_input job.entry.now.file }
    ensures logs { result.has_logs ≡ job.entry.now.has_logs }
    ensures reading { result.reading ≡ show_reading job.entry.now }
{
    let file = match job.file {
        Some(file) => file,
        None => STANDARD_INPUT,
    };
    SourceRequest {
        word: SourceWord { name: file, file },
        has_logs: job.has_logs,
        reading: ReadOptions {
            state: job.state,
            keys: Keys::Once,
            most: MOST_MESSAGE_BYTES as u32,
            unknown: job.unknown,
        },
    }
}

/// A version of which a view is written in lines.
pub trait Viewed: Version {
    /// The lines of a view at a moment.
    ghost lines: { ℕ → List Self → List ℕ };

    /// Writes a view at a moment in lines, and returns how many bytes went out.
    ///
    /// # Errors
    ///
    /// Those of [`write_view`].
    fn write_lines<W: Write>(
        alloc: Global,
        held: &Held<Self>,
        now: Moment,
        writer: &mut W,
    ) -> Result<u64, SnapshotError>
        ensures lines { OnOk result (Appends (W.contents writer.old) (W.contents writer.new) (lines now held.now)) }
        ensures stopped { IfErr result (StopsWriting W.contents writer.old writer.new (lines now held.now)) };
}

impl Viewed for MeshSilence {
    ghost use Rattle.std.specs.Prelude.{[], None};
    ghost use Rattle.am_report.specs.Views.{view_text};

    ghost lines = { λ now held. view_text None now held [] };

    fn write_lines<W: Write>(
        alloc: Global,
        held: &Held<MeshSilence>,
        now: Moment,
        writer: &mut W,
    ) -> Result<u64, SnapshotError> {
        write_view(alloc, held, &Held::new(alloc), None, now, writer)
    }
}

impl Viewed for MeshEntry {
    ghost use Rattle.std.specs.Prelude.{[], None};
    ghost use Rattle.am_report.specs.Views.{view_text};

    ghost lines = { λ now held. view_text None now [] held };

    fn write_lines<W: Write>(
        alloc: Global,
        held: &Held<MeshEntry>,
        now: Moment,
        writer: &mut W,
    ) -> Result<u64, SnapshotError> {
        write_view(alloc, &Held::new(alloc), held, None, now, writer)
    }
}

/// Writes the view of a map at a moment, in lines or in JSON.
fn write_form<V: Viewed + InJson, W: Write>(
    alloc: Global,
    held: &Held<V>,
    form: ViewForm,
    now: Moment,
    writer: &mut W,
) -> Result<u64, SnapshotError>
    ensures text { OnOk result (Appends (W.contents writer.old) (W.contents writer.new) (shown_text V.seen V.lines V.value form now held.now)) }
    ensures stopped { IfErr result (StopsWriting W.contents writer.old writer.new (shown_text V.seen V.lines V.value form now held.now)) }
{
    match form {
        ViewForm::Lines => V::write_lines(alloc, held, now, writer),
        ViewForm::Json => write_view_json(alloc, held, now, writer),
    }
}

/// Writes the view of a source at a moment: what it holds that is live then, in the order of the keys. Returns whether
/// something that it holds was updated after the moment.
///
/// The bytes that were read are forgotten: the process is to end then, and its memory with it.
///
/// # Errors
///
/// [`Stopped::Source`] with the fault of the source, before a byte goes out, and then [`Stopped::Output`] if memory runs out or
/// a write fails.
pub fn show_source<V: Viewed + InJson, S: Source<V>, W: Write>(
    alloc: Global,
    source: &mut S,
    form: ViewForm,
    now: Moment,
    writer: &mut W,
) -> Result<bool, Stopped>
    // PROMISE: `show` prints exactly the view of its file.
    ensures view { IfOk result (λ later. (held : List V) × IsMap V.seen V.Key.cmp held × S.gives source.old held
        × (later ≡ has_later V.seen now held)
        × Appends (W.contents writer.old) (W.contents writer.new) (shown_text V.seen V.lines V.value form now held)) }

    // PROMISE: If its file is at fault, `show` prints nothing.
    ensures stopped { IfErr result (StopsShowing V.seen V.Key.cmp S.gives S.stops (shown_text V.seen V.lines V.value form now) source.old
        W.contents writer.old writer.new) }
{
    let held = match source.read(alloc) {
        Ok(held) => held,
        Err(fault) => return Err(Stopped::Source { number: 0, fault }),
    };
    let has_later = has_later(&held, now);
    let written = write_form(alloc, &held, form, now, writer);
    mem::forget(held);
    match written {
        Ok(_) => Ok(has_later),
        Err(error) => Err(Stopped::Output(error)),
    }
}
