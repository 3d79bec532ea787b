//! Reading rows of versions.

ghost use Rattle.std.specs.Prelude.{ℕ, List, ◌≤◌, length, IfOk, IfErr, OnOk, IfSome};
ghost use Rattle.std.specs.Io.KnownBytes.{IsAtEnd};
ghost use Rattle.am_merge.specs.Maps.{IsMap};
ghost use Rattle.am_wire.specs.Limits.{most};
ghost use Rattle.am_wire.specs.Inputs.{AreMessages, StopsAfter, StopsWithin};
ghost use Rattle.am_merge.specs.Views.{HoldsBest};

use am_merge::{Held, HeldBuilder};
use am_version_order::Version;
use am_wire::{MOST_MESSAGE_BYTES, Message, RowFault, RowReader, Unknown};
use std::alloc::Global;
use std::io::Read;

/// Reads every version of a row of at most [`MOST_MESSAGE_BYTES`] and takes each, live or not.
///
/// Only the version being read and the winners are held in memory.
///
/// # Errors
///
/// Returns the first fault of the input, or [`RowFault::Memory`]. [`RowFault::Ended`] is never returned.
pub fn take_row<V: Version + Message, R: Read>(
    alloc: Global,
    unknown: Unknown,
    reader: &mut R,
) -> Result<Held<V>, RowFault>
    ensures order { IfOk result (IsMap V.seen V.Key.cmp) }
    ensures best { IfOk result (λ held. IfSome (R.remaining reader.old) (λ input.
        (versions : List V) × AreMessages (V.reads unknown) input versions × HoldsBest V.seen versions held)) }
    ensures size { OnOk result (IfSome (R.remaining reader.old) (λ input. length input ≤ most)) }
    ensures end { OnOk result (IsAtEnd (R.remaining reader.new)) }

    ensures fault { IfErr result (λ fault. IfSome (R.remaining reader.old) (λ input.
        (versions : List V) × StopsAfter (V.reads unknown) input versions (R.remaining reader.new) fault)) }
{
    take_row_within(alloc, unknown, reader, MOST_MESSAGE_BYTES as u32)
}

/// Takes as [`take_row`] does, from a row of at most `limit` bytes.
///
/// # Errors
///
/// Returns the errors of [`take_row`].
pub fn take_row_within<V: Version + Message, R: Read>(
    alloc: Global,
    unknown: Unknown,
    reader: &mut R,
    limit: u32,
) -> Result<Held<V>, RowFault>
    ensures order { IfOk result (IsMap V.seen V.Key.cmp) }
    ensures best { IfOk result (λ held. IfSome (R.remaining reader.old) (λ input.
        (versions : List V) × AreMessages (V.reads unknown) input versions × HoldsBest V.seen versions held)) }
    ensures size { OnOk result (IfSome (R.remaining reader.old) (λ input. length input ≤ limit)) }
    ensures end { OnOk result (IsAtEnd (R.remaining reader.new)) }

    ensures fault { IfErr result (λ fault. IfSome (R.remaining reader.old) (λ input.
        (versions : List V) × StopsWithin (V.reads unknown) limit input versions (R.remaining reader.new) fault)) }
{
    let mut builder = HeldBuilder::new(alloc);
    let mut rows = RowReader::within(alloc, limit);
    while let Some(version) = rows.next_by(unknown, reader)? {
        builder.take(version)?;
    }
    let held = builder.build()?;
    Ok(held)
}
