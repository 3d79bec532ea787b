//! Greetings.

ghost use Rattle.std.specs.Prelude.{◌≡◌, ◌+◌, ◌<◌, ◌^◌};
ghost use Rattle.am_gossip.specs.Hellos.{hello_of, hello_seen, name_at};

use crate::error::FrameError;
use am_wire::{WireError, read_varint};

/// The maximum length of a member's name in bytes.
pub const MOST_NAME_BYTES: u64 = 255;

/// Returns the name at the front of the bytes, which are behind `start` others, and the greeting's length.
fn name_from(bytes: &[u8], size: usize, start: usize) -> Result<Option<(&str, usize)>, FrameError>
    requires { start + size < 2 ^ 64 }
    ensures { hello_seen result ≡ name_at size start bytes.now }
{
    if bytes.len() < size {
        return Ok(None);
    }
    match str::from_utf8(&bytes[..size]) {
        Ok(name) => Ok(Some((name, start + size))),
        Err(_) => Err(FrameError::Wire(WireError::NotUtf8 { at: 0 })),
    }
}

/// Reads the greeting at the front of a connection's bytes, and returns the sender's name and the length of the greeting, or
/// `None` if more bytes are needed. Nothing is allocated.
///
/// # Errors
///
/// [`FrameError::Kind`] if the first byte is not 0, [`FrameError::Length`] if the name's length is not 1 to 255, and a
/// `NotUtf8` at 0 if the name is not UTF-8.
#[tactic(auto, unfolding(crate::specs::Hellos::hello_of))]
pub fn read_hello(bytes: &[u8]) -> Result<Option<(&str, usize)>, FrameError>
    ensures exact { hello_seen result ≡ hello_of bytes.now }
{
    let Some((first, rest)) = bytes.split_first() else {
        return Ok(None);
    };
    if *first != 0 {
        return Err(FrameError::Kind);
    }
    let (size, len) = match read_varint(rest) {
        Ok(number) => number,
        Err(WireError::Truncated { .. }) => return Ok(None),
        Err(_) => return Err(FrameError::Length),
    };
    if size == 0 || size > MOST_NAME_BYTES {
        return Err(FrameError::Length);
    }
    name_from(&rest[len..], size as usize, len + 1)
}
