//! Bytes preceded by their length, as each message of a row is.

ghost use Rattle.std.specs.Prelude.{◌≡◌, ◌++◌, length, OnOk, IfOk};
ghost use Rattle.am_wire.specs.Sizes.{counted};
ghost use Rattle.am_wire.specs.Writing.{delimited};

use crate::bytes::Bytes;
use crate::size::varint_size;
use crate::writing::append_varint;
use std::alloc::{AllocError, Global};

/// Returns the length of the bytes together with the length that precedes them. It is [`u64::MAX`] if it would be that or
/// more. Nothing is allocated.
pub fn delimited_length(bytes: &[u8]) -> u64
    ensures { result ≡ counted (length (delimited bytes.now)) }
{
    let length = bytes.len() as u64;
    varint_size(length).saturating_add(length)
}

/// Appends the bytes, preceded by their length.
///
/// # Errors
///
/// [`AllocError`] if memory runs out. Some of the bytes may have been appended then.
pub fn append_delimited(out: &mut Vec<u8>, bytes: &[u8]) -> Result<(), AllocError>
    ensures { OnOk result (out.new.items ≡ out.old.items ++ delimited bytes.now) }
{
    append_varint(out, bytes.len() as u64)?;
    out.extend_from_slice(bytes)
}

/// Returns the bytes, preceded by their length. Memory is allocated once, for exactly these bytes.
///
/// # Errors
///
/// [`AllocError`] if memory runs out.
pub fn delimited_bytes(alloc: Global, bytes: &[u8]) -> Result<Bytes, AllocError>
    ensures { IfOk result (λ whole. whole ≡ delimited bytes.now) }
{
    let mut whole = Vec::with_capacity(alloc, delimited_length(bytes) as usize)?;
    append_delimited(&mut whole, bytes)?;
    Ok(Bytes::new(whole))
}
