//! Reading bytes from any reader.

ghost use Rattle.std.specs.Prelude.{◌≡◌, ◌<◌, true, Ok, length, vec_len};
ghost use Rattle.am_wire.specs.InputReading.{ReadsOn, ReadsOnce};

use std::io::Read;

/// The reason no bytes came though the input has not ended.
#[derive(Clone, Copy, PartialEq, Eq)]
pub enum Stop {
    /// A read failed.
    Read,
    /// There was no memory for the bytes read.
    Memory,
}

/// The number of bytes requested in one read.
const PIECE: usize = 4_096;

/// Reads once, up to a total of `most` bytes, and returns whether any bytes came.
///
/// # Errors
///
/// Returns [`Stop`] if the read fails or there is no memory for the bytes read; `bytes` is then unchanged.
pub fn read_some<R: Read>(reader: &mut R, bytes: &mut Vec<u8>, most: usize) -> Result<bool, Stop>
    requires room { vec_len bytes.old < most }
    ensures once { ReadsOnce most (R.remaining reader.old) (R.remaining reader.new) bytes.old.items bytes.new.items result }
{
    let mut piece = [0u8; PIECE];
    let room = PIECE.min(most - bytes.len());
    let Ok(count) = reader.read(&mut piece[..room]) else {
        return Err(Stop::Read);
    };
    if bytes.extend_from_slice(&piece[..count]).is_err() {
        return Err(Stop::Memory);
    }
    Ok(count > 0)
}

/// Reads until there are `end` bytes, and returns whether they all came: if not, the input ended before.
///
/// # Errors
///
/// Returns [`Stop`] at the first read that fails, which is not retried, or if there is no memory for the bytes read.
pub fn fill<R: Read>(reader: &mut R, bytes: &mut Vec<u8>, end: usize) -> Result<bool, Stop>
    requires wanting { vec_len bytes.old < end }
    ensures reads { ReadsOn (λ came. length came < end) end (R.remaining reader.old) (R.remaining reader.new)
        bytes.old.items bytes.new.items result }
    ensures whole { result ≡ Ok true → length bytes.new.items ≡ end }
{
    loop {
        if !read_some(reader, bytes, end)? {
            return Ok(false);
        }
        if bytes.len() == end {
            return Ok(true);
        }
    }
}
