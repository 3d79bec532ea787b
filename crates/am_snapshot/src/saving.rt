//! Writing a snapshot.

ghost use Rattle.std.specs.Prelude.{◌≡◌, ◌+◌, ◌<◌, ◌≤◌, ◌^◌, ◌++◌, ◌↔◌, length, vec_len, IfOk, IfErr, OnOk, OnSome};
ghost use Rattle.std.specs.Option.{SomeIff};
ghost use Rattle.std.specs.Io.KnownBytes.{Appends};
ghost use Rattle.am_wire.specs.Writing.{delimited};
ghost use Rattle.am_wire.specs.Limits.{most};
ghost use Rattle.am_snapshot.specs.Encodings.{row_encoding};
ghost use Rattle.am_snapshot.specs.Writing.{Passes, TakesPart};
ghost use Rattle.am_snapshot.specs.Saving.{FitsRow, IsSavable, IsSavableWithin, StopsSaving};

use crate::counting_writer::CountingWriter;
use crate::error::SnapshotError;
use crate::in_memory::row_length_within;
use am_merge::Held;
use am_version_order::Version;
use am_wire::{MOST_MESSAGE_BYTES, WriteFault, write_varint};
use std::alloc::Global;
use std::io::Write;

/// Sends bytes on their way, after their length.
pub(crate) fn send_delimited<W: Write>(
    out: &mut CountingWriter,
    writer: &mut W,
    bytes: &[u8],
) -> Result<(), WriteFault>
    requires { out.old.written + vec_len out.old.gathered + length (delimited bytes.now) < 2 ^ 64 }
    ensures passed { OnOk result (Passes (W.contents writer.old) (W.contents writer.new) out.old.gathered.items
        (delimited bytes.now) out.new.gathered.items out.old.written out.new.written) }
    ensures stopped { IfErr result (λ e. TakesPart (W.contents writer.old) (W.contents writer.new)
        (out.old.gathered.items ++ delimited bytes.now) out.old.written e.written) }
{
    out.send(writer, write_varint(bytes.len() as u64).as_slice())?;
    out.send(writer, bytes)
}

/// Sends the held versions on their way, each after its length.
fn send_versions<V: Version, W: Write>(
    out: &mut CountingWriter,
    writer: &mut W,
    held: &Held<V>,
) -> Result<(), WriteFault>
    requires { out.old.written + vec_len out.old.gathered + length (row_encoding V.seen held.now) < 2 ^ 64 }
    ensures passed { OnOk result (Passes (W.contents writer.old) (W.contents writer.new) out.old.gathered.items
        (row_encoding V.seen held.now) out.new.gathered.items out.old.written out.new.written) }
    ensures stopped { IfErr result (λ e. TakesPart (W.contents writer.old) (W.contents writer.new)
        (out.old.gathered.items ++ row_encoding V.seen held.now) out.old.written e.written) }
{
    for version in held.iter() {
        send_delimited(out, writer, version.canonical())?;
    }
    Ok(())
}

/// Writes the held versions in the order of their keys, live or not, as a row: the canonical bytes of each after their length.
/// Returns the number of bytes that went out.
///
/// # Errors
///
/// Returns [`SnapshotError::Write`] if a write fails or takes nothing: exactly the first `written` bytes of the row went out,
/// and the write is not retried. Returns [`SnapshotError::TooLarge`] if the row has more than [`MOST_MESSAGE_BYTES`], and
/// [`SnapshotError::Memory`], before a byte goes out.
pub fn save<V: Version, W: Write>(
    alloc: Global,
    held: &Held<V>,
    writer: &mut W,
) -> Result<u64, SnapshotError>
    // PROMISE: A saved file is the row of the whole map.
    ensures row { OnOk result (Appends (W.contents writer.old) (W.contents writer.new) (row_encoding V.seen held.now)) }
    ensures savable { OnOk result (IsSavable V.seen V.Key.cmp V.is_value held.now) }
    ensures count { IfOk result (λ written. written ≡ length (row_encoding V.seen held.now)) }

    ensures stopped { IfErr result (StopsSaving W.contents writer.old writer.new (row_encoding V.seen held.now)) }
    ensures too_large { (result ≡ Err SnapshotError.TooLarge) ↔ (most < length (row_encoding V.seen held.now)) }
{
    save_within(alloc, held, writer, MOST_MESSAGE_BYTES as u32)
}

/// Saves as [`save`] does, to a row of at most `limit` bytes.
///
/// # Errors
///
/// Returns the errors of [`save`], but [`SnapshotError::TooLarge`] if the row has more than `limit` bytes, or a version more
/// than [`MOST_MESSAGE_BYTES`].
pub fn save_within<V: Version, W: Write>(
    alloc: Global,
    held: &Held<V>,
    writer: &mut W,
    limit: u32,
) -> Result<u64, SnapshotError>
    ensures row { OnOk result (Appends (W.contents writer.old) (W.contents writer.new) (row_encoding V.seen held.now)) }
    ensures savable { OnOk result (IsSavableWithin V.seen V.Key.cmp V.is_value limit held.now) }
    ensures count { IfOk result (λ written. written ≡ length (row_encoding V.seen held.now)) }

    ensures stopped { IfErr result (StopsSaving W.contents writer.old writer.new (row_encoding V.seen held.now)) }
    ensures too_large { (result ≡ Err SnapshotError.TooLarge) ↔ (¬ (FitsRow V.seen limit held.now)) }
{
    let Some(length) = row_length_within(held, limit) else {
        return Err(SnapshotError::TooLarge);
    };
    let mut out = CountingWriter::new(alloc)?;
    send_versions(&mut out, writer, held)?;
    out.flush(writer)?;
    Ok(length)
}
