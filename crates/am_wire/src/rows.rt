//! An iterator over messages that follow one another, each behind its length.

ghost use Rattle.std.specs.Prelude.{◌≡◌, ℕ, List, [], ◌∷◌, Result, Ok, Err, ◌+◌, ◌<◌, ◌≤◌, ◌^◌, length, IfOk};
ghost use Rattle.std.specs.Iterator.{YieldsFirstBy, item_count};
ghost use Rattle.am_wire.specs.Fields.{row_at, rows_of, pieces};
ghost use Rattle.am_wire.specs.Rows.{row_seen, first_row_seen};
ghost use Rattle.am_wire.specs.declared.error.WireError.{WireError};

use crate::error::WireError;
use crate::varint::varint_from;
use std::marker::Model;

/// The maximum length of a message, in a row or to be written, and of an input that has no other limit: 64 MiB.
pub const MOST_MESSAGE_BYTES: u64 = 67_108_864;

/// Returns the message at the front, and the number of bytes that it takes with its length.
#[tactic(auto, unfolding(crate::specs::Fields::row_at))]
pub fn row_from(bytes: &[u8], at: usize) -> Result<(&[u8], usize), WireError>
    ensures value { first_row_seen result ≡ row_at at bytes.now }
    ensures within { IfOk result (λ x. (0 < x.1) × (x.1 ≤ length bytes.now) × (length x.0.now ≤ x.1)) }
{
    let (size, len) = varint_from(bytes, at)?;
    if size > MOST_MESSAGE_BYTES {
        return Err(WireError::TooLarge);
    }
    let rest = &bytes[len..];
    if (rest.len() as u64) < size {
        return Err(WireError::Truncated { at });
    }
    let size = size as usize;
    Ok((&rest[..size], len + size))
}

/// An iterator over the messages of a row, which are borrowed from the input. It ends after a fault. A message of more than
/// [`MOST_MESSAGE_BYTES`] is [`WireError::TooLarge`], whether it is whole or not.
#[derive(Drop)]
pub struct Rows<'a> {
    rest: &'a [u8],
    at: usize,
}

/// The view is the messages to come, the last of which may be a fault.
impl<'a> Model for Rows<'a> {
    ghost Value = { List (Result (List ℕ) WireError) };

    ghost view = { λ s. pieces row_at 0 s.at s.rest.now };

    ghost invariant = { λ s. s.at + length s.rest.now < 2 ^ 64 };
}

impl<'a> Rows<'a> {
    /// Returns an iterator over bytes that are the outermost input.
    pub fn new(bytes: &'a [u8]) -> Self
        ensures { result ≡ rows_of bytes.now }
    {
        Rows { rest: bytes, at: 0 }
    }
}

impl<'a> Iterator for Rows<'a> {
    type Item = Result<&'a [u8], WireError>;

    ghost next_gives = { YieldsFirstBy row_seen (λ s. s) };

    ghost remaining = { item_count (λ s. s) };

    fn next(&mut self) -> Option<Result<&'a [u8], WireError>> {
        if self.rest.is_empty() {
            return None;
        }
        let (rest, at) = (self.rest, self.at);
        match row_from(rest, at) {
            Ok((message, len)) => {
                self.rest = &rest[len..];
                self.at = at + len;
                Some(Ok(message))
            }
            Err(fault) => {
                self.rest = &[];
                Some(Err(fault))
            }
        }
    }
}
