//! Schedules from any reader, played to any writer.

ghost use Rattle.std.specs.Prelude.{IfErr, OnOk};
ghost use Rattle.am_replay.specs.Replays.{HasReplayed, StopsReplay};

use crate::error::ReplayError;
use crate::input::read_input;
use crate::observer::{Nobody, Observer};
use crate::player::play;
use am_schedule::parse;
use am_wire::send;
use std::alloc::Global;
use std::io::{Read, Write};

/// Reads a schedule of at most 16,777,216 bytes, plays it, and then writes its whole output.
///
/// # Errors
///
/// The first [`ReplayError`] that occurs. If it is [`ReplayError::Write`], a write failed or took nothing. Exactly the
/// first `written` bytes of the output were written then, and the write isn't tried again. With any other error nothing is
/// written.
pub fn run<R: Read, W: Write>(
    alloc: Global,
    reader: &mut R,
    writer: &mut W,
) -> Result<(), ReplayError>
    // PROMISE: A replay prints exactly what its lines do on a new cluster.
    ensures played { OnOk result (HasReplayed (R.remaining reader.old) (W.contents writer.old) (W.contents writer.new)) }
    ensures stopped { IfErr result (StopsReplay (R.remaining reader.old) (R.remaining reader.new) W.contents writer.old writer.new) }
{
    run_shown(alloc, reader, writer, &mut Nobody)
}

/// Reads, plays and writes a schedule as [`run`] does, while an observer watches.
///
/// # Errors
///
/// The errors of [`run`].
pub fn run_shown<R: Read, W: Write, O: Observer>(
    alloc: Global,
    reader: &mut R,
    writer: &mut W,
    observer: &mut O,
) -> Result<(), ReplayError>
    ensures played { OnOk result (HasReplayed (R.remaining reader.old) (W.contents writer.old) (W.contents writer.new)) }
    ensures stopped { IfErr result (StopsReplay (R.remaining reader.old) (R.remaining reader.new) W.contents writer.old writer.new) }
{
    let input = read_input(alloc, reader)?;
    let schedule = parse(alloc, &input)?;
    let text = play(alloc, &schedule, observer)?;
    match send(writer, text.as_str().as_bytes()) {
        Ok(()) => Ok(()),
        Err(fault) => Err(ReplayError::Write {
            written: fault.written,
        }),
    }
}
