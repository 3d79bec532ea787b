//! Versions for a running replica: it is sent those that it lacks, and those that it doesn't hold then are told.

ghost use Rattle.std.specs.Prelude.{◌≡◌, ℕ, List, [], ◌∷◌, map, IfOk, OnOk};
ghost use Rattle.std.specs.Io.KnownBytes.{Consumes, IsAtEnd};
ghost use Rattle.am_wire.specs.Inputs.{AreMessages};
ghost use Rattle.am_merge.specs.Views.{HoldsBest};

use crate::fault::{Stopped, add, report_stopped};
use crate::host::{CommandRuntime, Streams};
use crate::losses::warn_of_rows;
use crate::mending::{Addressee, Mending};
use crate::moment::moment_of;
use crate::replica::held_by;
use am_alertmanager::Candidate;
use am_diagnostics::{report, status};
use am_merge::Held;
use am_nflog::MeshEntry;
use am_options::{PushJob, StateName};
use am_report::ReportLine;
use am_silence::MeshSilence;
use am_snapshot::{SnapshotError, take_row};
use am_version_order::{Moment, Version};
use am_wire::{MOST_MESSAGE_BYTES, Message, Stop, Unknown, fill, send};
use std::alloc::Global;
use std::io::{Read, Write};

/// The one replica, which a line doesn't name.
const IT: Addressee<'static> = Addressee { name: None };

/// Sends a replica what it lacks of the row on standard input, and returns the exit status of the program.
pub fn run_push<R: CommandRuntime>(rt: &R, streams: Streams, job: &PushJob<'_>) -> u8 {
    let now = match moment_of(rt, job.now) {
        Ok(now) => now,
        Err(fault) => return report(rt, fault),
    };
    let found = match job.to.state {
        StateName::Silences => push::<R, MeshSilence>(rt, streams, job, now),
        StateName::Log => push::<R, MeshEntry>(rt, streams, job, now),
    };
    match found {
        Ok(false) => status::DONE,
        Ok(true) => status::DIFFERENT,
        Err(stopped) => report_stopped(rt, Some(job.to.name), &stopped),
    }
}

/// Sends a replica what it lacks. Returns whether it lacks something then, or would be sent something.
fn push<R: CommandRuntime, V: Candidate + Message + ReportLine>(
    rt: &R,
    streams: Streams,
    job: &PushJob<'_>,
    now: Moment,
) -> Result<bool, Stopped> {
    let Streams {
        mut input,
        mut output,
    } = streams;
    let alloc = rt.alloc();
    let mending: Mending<V> = read_mending(alloc, &mut input, now)?;
    warn_of_rows(rt, job.to.state, &mending.rows);
    let held = held_now::<R, V>(rt, job)?;
    let sent = mending.to_send(alloc, &held)?;
    if !job.is_dry {
        match sent.send(rt, &job.to) {
            Ok(()) => {}
            Err(fault) => return Err(Stopped::of_first(fault)),
        }
    }
    let mut text = String::new(alloc);
    let holds_back = mending.append_sent(alloc, &mut text, IT, &held, &sent)?;
    write_text(&mut output, text.as_bytes())?;
    if job.is_dry || sent.versions.is_empty() {
        return Ok(holds_back || !sent.versions.is_empty());
    }
    let held = held_now::<R, V>(rt, job)?;
    Ok(tell_refused(alloc, &mending, &held, &mut output)? || holds_back)
}

/// Writes which versions a replica lacks though they were sent. Returns whether there is one.
fn tell_refused<V: Candidate + Message + ReportLine, W: Write>(
    alloc: Global,
    mending: &Mending<V>,
    held: &Held<V>,
    output: &mut W,
) -> Result<bool, Stopped> {
    let mut text = String::new(alloc);
    let found = mending.append_refused(alloc, &mut text, IT, held)?;
    write_text(output, text.as_bytes())?;
    Ok(found)
}

/// Writes lines.
pub fn write_text<W: Write>(output: &mut W, text: &[u8]) -> Result<(), Stopped> {
    match send(output, text) {
        Ok(()) => Ok(()),
        Err(fault) => Err(Stopped::Output(SnapshotError::from(fault))),
    }
}

/// Returns what a replica holds now.
fn held_now<R: CommandRuntime, V: Version + Message>(
    rt: &R,
    job: &PushJob<'_>,
) -> Result<Held<V>, Stopped> {
    match held_by(rt, &job.to) {
        Ok(held) => Ok(held),
        Err(fault) => Err(Stopped::of_first(fault)),
    }
}

/// Reads the row on an input.
fn read_mending<V: Version + Message, I: Read>(
    alloc: Global,
    input: &mut I,
    now: Moment,
) -> Result<Mending<V>, Stopped>
    ensures rows { IfOk result (λ mending. (row : List ℕ) × Consumes (I.remaining input.old) (I.remaining input.new) row × (map (λ r. r.items) mending.rows.items ≡ row ∷ [])
        × (versions : List V) × AreMessages (V.reads Unknown.Keep) row versions × HoldsBest V.seen versions mending.all) }
    ensures moment { IfOk result (λ mending. mending.moment ≡ now) }
{
    let row = read_all(alloc, input)?;
    let all = match take_row(alloc, Unknown::Keep, &mut row.as_slice()) {
        Ok(all) => all,
        Err(fault) => return Err(Stopped::Output(SnapshotError::from(fault))),
    };
    let mut rows = Vec::new(alloc);
    add(&mut rows, row)?;
    Ok(Mending {
        rows,
        all,
        moment: now,
    })
}

/// Reads all bytes of an input, which are at most 67,108,864.
fn read_all<I: Read>(alloc: Global, input: &mut I) -> Result<Vec<u8>, SnapshotError>
    ensures all { IfOk result (λ bytes. Consumes (I.remaining input.old) (I.remaining input.new) bytes.items) }
    ensures end { OnOk result (IsAtEnd (I.remaining input.new)) }
{
    let mut bytes = Vec::new(alloc);
    match fill(input, &mut bytes, MOST_MESSAGE_BYTES as usize + 1) {
        Ok(false) => Ok(bytes),
        Ok(true) => Err(SnapshotError::TooLarge),
        Err(Stop::Read) => Err(SnapshotError::Read { at: bytes.len() }),
        Err(Stop::Memory) => Err(SnapshotError::Memory),
    }
}
