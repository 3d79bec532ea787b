//! Reading a snapshot.

ghost use Rattle.std.specs.Prelude.{◌≡◌, ◌≤◌, ℕ, List, Option, length, IfOk, IfErr, OnOk, IfSome};
ghost use Rattle.std.specs.Io.KnownBytes.{IsAtEnd};
ghost use Rattle.am_merge.specs.Maps.{IsMap};
ghost use Rattle.am_wire.specs.Limits.{most};
ghost use Rattle.am_snapshot.specs.Loads.{IsLoaded, StopsLoad, StopsLoadWithin};

use crate::error::SnapshotError;
use am_merge::{Held, HeldBuilder};
use am_version_order::Version;
use am_wire::{MOST_MESSAGE_BYTES, Message, RowReader, Unknown};
use std::alloc::Global;
use std::io::Read;

/// Reads the map of exactly the versions in a row of at most [`MOST_MESSAGE_BYTES`], live or not, without unknown fields.
///
/// Only the version being read and those of the map are held in memory.
///
/// # Errors
///
/// Returns the first fault of the input, or [`SnapshotError::Memory`]. A [`SnapshotError::DuplicateKey`] counts as a
/// fault at the end of the row that repeats a key.
pub fn load<V: Version + Message, R: Read>(
    alloc: Global,
    reader: &mut R,
) -> Result<Held<V>, SnapshotError>
    ensures order { IfOk result (IsMap V.seen V.Key.cmp) }
    ensures members { IfOk result (λ held. IfSome (R.remaining reader.old) (λ input. IsLoaded V.seen (V.reads Unknown.Drop) input held)) }
    ensures size { OnOk result (IfSome (R.remaining reader.old) (λ input. length input ≤ most)) }
    ensures end { OnOk result (IsAtEnd (R.remaining reader.new)) }

    // PROMISE: A file that isn't loaded is refused for its first fault.
    ensures stopped { IfErr result (λ e. IfSome (R.remaining reader.old) (λ input.
        StopsLoad V.seen (V.reads Unknown.Drop) input (R.remaining reader.new) e)) }
{
    load_within(alloc, Unknown::Drop, reader, MOST_MESSAGE_BYTES as u32)
}

/// Loads as [`load`] does, from a row of at most `limit` bytes, handling unknown fields as told.
///
/// # Errors
///
/// Returns the errors of [`load`].
pub fn load_within<V: Version + Message, R: Read>(
    alloc: Global,
    unknown: Unknown,
    reader: &mut R,
    limit: u32,
) -> Result<Held<V>, SnapshotError>
    ensures order { IfOk result (IsMap V.seen V.Key.cmp) }
    ensures members { IfOk result (λ held. IfSome (R.remaining reader.old) (λ input. IsLoaded V.seen (V.reads unknown) input held)) }
    ensures size { OnOk result (IfSome (R.remaining reader.old) (λ input. length input ≤ limit)) }
    ensures end { OnOk result (IsAtEnd (R.remaining reader.new)) }

    ensures stopped { IfErr result (λ e. IfSome (R.remaining reader.old) (λ input.
        StopsLoadWithin V.seen (V.reads unknown) limit input (R.remaining reader.new) e)) }
{
    let mut builder = HeldBuilder::new(alloc);
    let mut rows: RowReader<V> = RowReader::within(alloc, limit);
    while let Some(version) = rows.next_by(unknown, reader)? {
        let is_new = builder.insert_new(version)?;
        if !is_new {
            return Err(SnapshotError::DuplicateKey);
        }
    }
    let held = builder.build()?;
    Ok(held)
}

/// Loads a row in memory as [`load_within`] does, of at most [`MOST_MESSAGE_BYTES`].
///
/// # Errors
///
/// Returns the errors of [`load`].
pub fn load_bytes<V: Version + Message>(
    alloc: Global,
    unknown: Unknown,
    row: &[u8],
) -> Result<Held<V>, SnapshotError>
    ensures order { IfOk result (IsMap V.seen V.Key.cmp) }
    // PROMISE: A row in memory loads as a file does.
    ensures members { IfOk result (IsLoaded V.seen (V.reads unknown) row.now) }
    ensures size { OnOk result (length row.now ≤ most) }
    ensures stopped { IfErr result (λ e. (left : Option (List ℕ)) × StopsLoad V.seen (V.reads unknown) row.now left e) }
{
    let mut rest = row;
    load_within(alloc, unknown, &mut rest, MOST_MESSAGE_BYTES as u32)
}
