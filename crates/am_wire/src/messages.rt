//! An iterator over the messages of a row in memory.

ghost use Rattle.std.specs.Prelude.{◌≡◌, ℕ, List, Result, ◌+◌, ◌<◌, ◌≤◌, ◌^◌, length, IfOk};
ghost use Rattle.std.specs.Iterator.{item_count};
ghost use Rattle.am_wire.specs.Reading.{GivesUnlessMemory};
ghost use Rattle.am_wire.specs.Inputs.{message_at, messages_from, messages_of, GivesNext};
ghost use Rattle.am_wire.specs.declared.error.WireError.{WireError};

use crate::error::WireError;
use crate::message::Message;
use crate::rows::row_from;
use crate::unknown::Unknown;
use std::alloc::Global;
use std::marker::{Model, PhantomData};

/// Reads the message in the row at the front, and returns it with the row's length.
fn message_from<V: Message>(
    alloc: Global,
    unknown: Unknown,
    bytes: &[u8],
    at: usize,
) -> Result<(V, usize), WireError>
    requires { at + length bytes.now < 2 ^ 64 }
    ensures value { GivesUnlessMemory result (message_at (V.reads unknown) at bytes.now) }
    ensures within { IfOk result (λ x. (0 < x.1) × (x.1 ≤ length bytes.now)) }
{
    let (text, len) = row_from(bytes, at)?;
    let message = V::decode_at(alloc, unknown, text, at + (len - text.len()))?;
    Ok((message, len))
}

/// An iterator over the messages of a row, which reads each when it is asked for. It ends after a fault, or when memory
/// runs out.
#[derive(Drop)]
pub struct Messages<'a, V: Message> {
    alloc: Global,
    unknown: Unknown,
    rest: &'a [u8],
    at: usize,
    of: PhantomData<V>,
}

/// The view is the messages to come, the last of which may be a fault.
impl<'a, V: Message> Model for Messages<'a, V> {
    ghost Value = { List (Result V WireError) };

    ghost view = { λ s. messages_from (V.reads s.unknown) s.at s.rest.now };

    ghost invariant = { λ s. s.at + length s.rest.now < 2 ^ 64 };
}

impl<'a, V: Message> Messages<'a, V> {
    /// Returns an iterator over bytes that begin at the offset `at` of the outermost input. Nothing is allocated.
    pub fn within(alloc: Global, unknown: Unknown, bytes: &'a [u8], at: usize) -> Self
        requires { at + length bytes.now < 2 ^ 64 }
        ensures { result ≡ messages_from (V.reads unknown) at bytes.now }
    {
        Messages {
            alloc,
            unknown,
            rest: bytes,
            at,
            of: PhantomData,
        }
    }

    /// Returns an iterator over bytes that are the outermost input, which drops unknown fields. Nothing is allocated.
    pub fn new(alloc: Global, bytes: &'a [u8]) -> Self
        ensures { result ≡ messages_of (V.reads Unknown.Drop) bytes.now }
    {
        Self::within(alloc, Unknown::Drop, bytes, 0)
    }
}

impl<'a, V: Message> Iterator for Messages<'a, V> {
    type Item = Result<V, WireError>;

    ghost next_gives = { λ s answer left. GivesNext s answer left };

    ghost remaining = { item_count (λ s. s) };

    fn next(&mut self) -> Option<Result<V, WireError>> {
        if self.rest.is_empty() {
            return None;
        }
        let (rest, at) = (self.rest, self.at);
        match message_from(self.alloc, self.unknown, rest, at) {
            Ok((message, len)) => {
                self.rest = &rest[len..];
                self.at = at + len;
                Some(Ok(message))
            }
            Err(fault) => {
                self.rest = &[];
                Some(Err(fault))
            }
        }
    }
}
