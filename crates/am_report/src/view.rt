//! The view of two maps as text.

ghost use Rattle.std.specs.Prelude.{◌≡◌, ◌++◌, length, IfOk, IfErr, OnOk, string_bytes};
ghost use Rattle.std.specs.Io.KnownBytes.{Appends};
ghost use Rattle.std.specs.Option.{option_copied};
ghost use Rattle.am_merge.specs.Maps.{swept};
ghost use Rattle.am_report.specs.Views.{entry_lines, silence_lines, view_text, StopsWriting};

use crate::view_lines::{Owner, append_entry, append_shows, append_silence};
use am_merge::Held;
use am_nflog::MeshEntry;
use am_silence::MeshSilence;
use am_snapshot::SnapshotError;
use am_version_order::{Moment, Version};
use am_wire::send;
use std::alloc::{AllocError, Global};
use std::io::Write;

/// Returns how many of the held versions are live.
fn live_count<V: Version>(held: &Held<V>, now: Moment) -> usize
    ensures { result ≡ length (swept V.seen now held.now) }
{
    // Starts from all that are held, and takes off those that are not live.
    let mut count = held.len();
    for version in held.iter() {
        if now >= version.expires() {
            count -= 1;
        }
    }
    count
}

/// Appends a line for each silence in view.
fn append_silences(
    out: &mut String,
    owner: Owner<'_>,
    silences: &Held<MeshSilence>,
    now: Moment,
) -> Result<(), AllocError>
    ensures { OnOk result (string_bytes out.new ≡ string_bytes out.old ++ silence_lines (option_copied owner.entry.0) now silences.now) }
{
    for silence in silences.iter() {
        if now < silence.expires() {
            append_silence(out, owner, silence, silence.state_at(now))?;
        }
    }
    Ok(())
}

/// Appends a line for each entry in view.
fn append_log(
    out: &mut String,
    owner: Owner<'_>,
    log: &Held<MeshEntry>,
    now: Moment,
) -> Result<(), AllocError>
    ensures { OnOk result (string_bytes out.new ≡ string_bytes out.old ++ entry_lines (option_copied owner.entry.0) now log.now) }
{
    for entry in log.iter() {
        if now < entry.expires() {
            append_entry(out, owner, entry)?;
        }
    }
    Ok(())
}

/// Appends the view of two maps at a moment, a line for each held version that is live: the silences by id with their
/// states, and the entries of the log by key. If an instance is named, each line begins with the name, and a line
/// with the two counts comes first.
///
/// # Errors
///
/// [`AllocError`] if memory runs out; a part of the lines may have been appended then.
pub fn append_view(
    out: &mut String,
    silences: &Held<MeshSilence>,
    log: &Held<MeshEntry>,
    name: Option<&str>,
    now: Moment,
) -> Result<(), AllocError>
    ensures appended { OnOk result (string_bytes out.new
        ≡ string_bytes out.old ++ view_text (option_copied name.entry) now silences.now log.now) }
{
    let owner = Owner(name);
    append_shows(out, name, live_count(silences, now), live_count(log, now))?;
    append_silences(out, owner, silences, now)?;
    append_log(out, owner, log, now)
}

/// Writes the view of two maps at a moment, in the lines of [`append_view`]. Returns how many bytes went out.
///
/// # Errors
///
/// [`SnapshotError::Write`] if a write fails or takes nothing: exactly the first `written` bytes of the lines went
/// out, and it is not tried again. [`SnapshotError::Memory`] if memory runs out, before a byte goes out.
pub fn write_view<W: Write>(
    alloc: Global,
    silences: &Held<MeshSilence>,
    log: &Held<MeshEntry>,
    name: Option<&str>,
    now: Moment,
    writer: &mut W,
) -> Result<u64, SnapshotError>
    // PROMISE: `show` prints a line for each live version.
    ensures lines { OnOk result (Appends (W.contents writer.old) (W.contents writer.new)
        (view_text (option_copied name.entry) now silences.now log.now)) }
    ensures count { IfOk result (λ written. written ≡ length (view_text (option_copied name.entry) now silences.now log.now)) }

    ensures stopped { IfErr result (StopsWriting W.contents writer.old writer.new
        (view_text (option_copied name.entry) now silences.now log.now)) }
{
    let mut text = String::new(alloc);
    append_view(&mut text, silences, log, name, now)?;
    send(writer, text.as_bytes())?;
    Ok(text.len() as u64)
}
