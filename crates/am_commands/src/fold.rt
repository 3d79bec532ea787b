//! Sources, folded.

ghost use Rattle.std.specs.Prelude.{◌≡◌, ◌≢◌, OnOk, IfOk, IfErr, map};
ghost use Rattle.am_commands.specs.Folding.{IsFoldRow, fold_wants, files_named, named_file};
ghost use Rattle.am_commands.specs.Opening.{named_of, AreOpened, StopsOpening, ComesOf, StopsWanted, EndsAt};
ghost use Rattle.am_commands.specs.Telling.{IsTold, StopsTelling};

use crate::fault::{SourceFault, Stopped, add, report_stopped};
use crate::host::{CommandRuntime, Streams};
use crate::losses::{HasLosses, warn_of_sources};
use crate::opened::{Keys, ReadOptions, SourceRequest, Unopened};
use crate::source::{Input, Source, inputs_of, join_sources};
use am_diagnostics::status;
use am_merge::Held;
use am_nflog::MeshEntry;
use am_options::{FoldJob, STANDARD_INPUT, SourceWord, StateName};
use am_silence::MeshSilence;
use am_snapshot::save_within;
use am_version_order::Version;
use std::alloc::{AllocError, Global};
use std::io::Write;
use std::mem;

/// Writes the fold of what a job names to standard output, and returns the exit status of the program.
pub fn run_fold<'a, R: CommandRuntime>(rt: &'a R, streams: Streams, job: &FoldJob<'a>) -> u8 {
    let Streams { input, mut output } = streams;
    let source_of = |asked| Ok(Unopened::new(rt, input, asked));
    match job.state {
        StateName::Silences => {
            fold_files::<R, MeshSilence, _, _, _>(rt, job, source_of, &mut output)
        }
        StateName::Log => fold_files::<R, MeshEntry, _, _, _>(rt, job, source_of, &mut output),
    }
}

/// Folds the files of a job, or standard input if it names none, and returns the exit status of the program.
fn fold_files<
    'a,
    R: CommandRuntime,
    V: Version,
    S: Source<V> + HasLosses,
    F: Fn(SourceRequest<'a>) -> Result<S, SourceFault>,
    W: Write,
>(rt: &R, job: &FoldJob<'a>, source_of: F, writer: &mut W) -> u8
    requires { F.IsAlwaysCallable source_of }

    // PROMISE: With status 0 `fold` wrote the fold of just the files that it names, or of standard input, each read once and as
    // its options say.
    ensures row { result ≡ 0 → ComesOf (F.post source_of) (fold_wants job.entry.now) (λ inputs.
        IsTold V.seen V.Key.cmp S.gives inputs W.contents (IsFoldRow V.seen V.Key.cmp) writer.old writer.new) }

    // PROMISE: With any other status `fold` stopped at its first fault, and the status is that of this fault.
    ensures stopped { result ≢ 0 → EndsAt (StopsWanted (F.post source_of) (fold_wants job.entry.now)
        (λ inputs. StopsTelling V.seen V.Key.cmp S.gives inputs W.contents (IsFoldRow V.seen V.Key.cmp) S.stops writer.old writer.new)
        writer.old writer.new) result }
{
    let mut inputs = match inputs_named(rt.alloc(), job, source_of) {
        Ok(inputs) => inputs,
        Err(stopped) => return report_stopped(rt, name_of(job, &stopped), &stopped),
    };
    match fold_sources::<V, _, _>(rt.alloc(), &mut inputs, job.most, writer) {
        Ok(()) => {
            warn_of_sources(rt, job.unknown, &inputs);
            status::DONE
        }
        Err(stopped) => report_stopped(rt, name_of(job, &stopped), &stopped),
    }
}

/// Returns the name of the file that is at fault; standard input has none if no file is named.
fn name_of<'a>(job: &FoldJob<'a>, stopped: &Stopped) -> Option<&'a str> {
    job.files.get(stopped.number()?).copied()
}

/// Opens the sources of a job.
fn inputs_named<'a, S: Drop, F: Fn(SourceRequest<'a>) -> Result<S, SourceFault>>(
    alloc: Global,
    job: &FoldJob<'a>,
    source_of: F,
) -> Result<Vec<Input<'a, S>>, Stopped>
    requires { F.IsAlwaysCallable source_of }
    ensures opened { IfOk result (λ inputs.
        AreOpened (F.post source_of) (fold_wants job.entry.now) inputs.items) }
    ensures stopped { IfErr result (StopsOpening (F.post source_of) (fold_wants job.entry.now)) }
{
    let words = words_of(alloc, &job.files)?;
    let reading = ReadOptions {
        state: job.state,
        keys: Keys::Repeated,
        most: job.most,
        unknown: job.unknown,
    };
    inputs_of(alloc, &words, job.has_logs, reading, source_of)
}

/// Returns the words of sources: of each file, under its own name, or of standard input if there is none.
fn words_of<'a>(alloc: Global, files: &[&'a str]) -> Result<Vec<SourceWord<'a>>, AllocError>
    ensures { IfOk result (λ words. map named_of words.items ≡ files_named files.now) }
{
    let mut words = Vec::new(alloc);
    if files.is_empty() {
        add(&mut words, word_of(STANDARD_INPUT))?;
        return Ok(words);
    }
    for file in files {
        add(&mut words, word_of(file))?;
    }
    Ok(words)
}

/// Returns the word of a file under its own name.
fn word_of(file: &str) -> SourceWord<'_>
    ensures { named_of result ≡ named_file file.now }
{
    SourceWord { name: file, file }
}

/// Writes the fold of sources, a row of at most `most` bytes: the greatest version of each key that one of them holds, in the
/// order of the keys.
///
/// The bytes that were read are forgotten: the process is to end then, and its memory with it.
///
/// # Errors
///
/// Those of [`join_sources`], before a byte goes out, and then those of [`save_within`].
pub fn fold_sources<V: Version, S: Source<V>, W: Write>(
    alloc: Global,
    inputs: &mut [Input<'_, S>],
    most: u32,
    writer: &mut W,
) -> Result<(), Stopped>
    // PROMISE: `fold` writes the greatest version of each key in all its files, and no other.
    ensures row { OnOk result (IsTold V.seen V.Key.cmp S.gives inputs.old W.contents (IsFoldRow V.seen V.Key.cmp) writer.old writer.new) }

    // PROMISE: If a file is at fault, `fold` tells of the first one, and writes nothing.
    ensures stopped { IfErr result (StopsTelling V.seen V.Key.cmp S.gives inputs.old W.contents (IsFoldRow V.seen V.Key.cmp) S.stops
        writer.old writer.new) }
{
    let folded: Held<V> = match join_sources(alloc, inputs) {
        Ok(folded) => folded,
        Err(stopped) => return Err(stopped),
    };
    let written = save_within(alloc, &folded, writer, most);
    mem::forget(folded);
    match written {
        Ok(_) => Ok(()),
        Err(error) => Err(Stopped::Output(error)),
    }
}
