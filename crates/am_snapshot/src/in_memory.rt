//! The held versions of a map as a row: its length, and the row itself.

ghost use Rattle.std.specs.Prelude.{◌≡◌, ◌≤◌, ◌+◌, All, length, OnSome, IfOk};
ghost use Rattle.std.specs.Option.{SomeIff};
ghost use Rattle.am_merge.specs.Maps.{IsMap};
ghost use Rattle.am_wire.specs.Limits.{most};
ghost use Rattle.am_wire.specs.Writing.{delimited};
ghost use Rattle.am_snapshot.specs.Encodings.{row_encoding};
ghost use Rattle.am_snapshot.specs.Saving.{FitsRow};

use am_merge::Held;
use am_version_order::Version;
use am_wire::writing::{append_delimited, delimited_length};
use am_wire::{Bytes, MOST_MESSAGE_BYTES};
use std::alloc::{AllocError, Global};

/// Returns the length of the row of the held versions, or `None` if it has more than 67,108,864 bytes. This takes no memory.
pub fn row_length<V: Version>(held: &Held<V>) -> Option<u64>
    ensures length { SomeIff result (length (row_encoding V.seen held.now) ≤ most) (length (row_encoding V.seen held.now)) }
    ensures order { IsMap V.seen V.Key.cmp held.now }
    ensures values { OnSome result (All V.is_value held.now) }
{
    row_length_within(held, MOST_MESSAGE_BYTES as u32)
}

/// Returns the length of a row of `total` bytes with one more message, or `None` if it has more than `limit` bytes or the
/// message couldn't be read.
pub(crate) fn with_one(total: u64, content: &[u8], limit: u32) -> Option<u64>
    requires { total ≤ limit }
    ensures { SomeIff result ((length content.now ≤ most) × (total + length (delimited content.now) ≤ limit))
        (total + length (delimited content.now)) }
{
    if content.len() as u64 > MOST_MESSAGE_BYTES {
        return None;
    }
    let longer = total.saturating_add(delimited_length(content));
    (longer <= u64::from(limit)).then_some(longer)
}

/// Returns the length of the row of the held versions, or `None` if it has more than `limit` bytes, or if a version has more
/// than [`MOST_MESSAGE_BYTES`], so that it couldn't be read again. This takes no memory.
pub fn row_length_within<V: Version>(held: &Held<V>, limit: u32) -> Option<u64>
    ensures length { SomeIff result (FitsRow V.seen limit held.now) (length (row_encoding V.seen held.now)) }
    ensures order { IsMap V.seen V.Key.cmp held.now }
    ensures values { OnSome result (All V.is_value held.now) }
{
    let mut total: u64 = 0;
    for version in held.iter() {
        total = with_one(total, version.canonical(), limit)?;
    }
    Some(total)
}

/// Returns the row of the held versions, whose length has to be given. This takes memory once.
///
/// # Errors
///
/// Returns [`AllocError`] if memory runs out.
pub fn row_bytes<V: Version>(
    alloc: Global,
    held: &Held<V>,
    length: u64,
) -> Result<Bytes, AllocError>
    ensures { IfOk result (λ bytes. bytes ≡ row_encoding V.seen held.now) }
{
    let mut bytes = Vec::with_capacity(alloc, length as usize)?;
    for version in held.iter() {
        append_delimited(&mut bytes, version.canonical())?;
    }
    Ok(Bytes::new(bytes))
}
