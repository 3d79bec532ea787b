//! Numbers in groups of seven bits.

ghost use Rattle.std.specs.Prelude.{◌≡◌, ℕ, List, ◌<◌, ◌≤◌, length, take, IfOk};
ghost use Rattle.am_wire.specs.Varint.{varint_at, shortest};

use crate::error::WireError;
use std::marker::Model;

/// The maximum length of a number in bytes.
const MOST_BYTES: usize = 10;

/// Reads the number at the front, and returns it with its length; a fault is reported at the offset `at`.
#[tactic(auto, using(crate::proofs::Groups::one_byte))]
pub fn varint_from(bytes: &[u8], at: usize) -> Result<(u64, usize), WireError>
    ensures value { result ≡ varint_at at bytes.now }
    ensures within { IfOk result (λ x. (0 < x.1) × (x.1 ≤ length bytes.now) × (x.1 ≤ 10)) }
{
    match bytes.first() {
        Some(byte) if *byte < 128 => Ok((u64::from(*byte), 1)),
        _ => long_varint_from(bytes, at),
    }
}

// Reads the number byte by byte, apart from `varint_from`, since most numbers have only one byte.
#[inline(never)]
fn long_varint_from(bytes: &[u8], at: usize) -> Result<(u64, usize), WireError>
    ensures value { result ≡ varint_at at bytes.now }
    ensures within { IfOk result (λ x. (0 < x.1) × (x.1 ≤ length bytes.now) × (x.1 ≤ 10)) }
{
    let mut value: u64 = 0;
    let mut scale: u64 = 1;
    for (place, byte) in bytes.iter().enumerate() {
        let byte = u64::from(*byte);
        if place + 1 == MOST_BYTES {
            return if byte < 2 {
                Ok((value + byte * scale, MOST_BYTES))
            } else {
                Err(WireError::LongVarint { at })
            };
        }
        if byte < 128 {
            return Ok((value + byte * scale, place + 1));
        }
        value += byte % 128 * scale;
        scale *= 128;
    }
    Err(WireError::Truncated { at })
}

/// Reads the number at the front, and returns it with its length. It may be spelled longer than necessary.
///
/// # Errors
///
/// [`WireError::Truncated`] if the bytes end inside the number, and [`WireError::LongVarint`] if it has more than 64 bits.
pub fn read_varint(bytes: &[u8]) -> Result<(u64, usize), WireError>
    // PROMISE: A number is read as its bytes say, or its fault is reported.
    ensures exact { result ≡ varint_at 0 bytes.now }
{
    varint_from(bytes, 0)
}

/// The shortest spelling of a number, of 1 to 10 bytes, which are not on the heap.
#[derive(Drop)]
pub struct VarintBytes {
    bytes: [u8; 10],
    len: usize,
}

/// The view is the bytes.
impl Model for VarintBytes {
    ghost Value = { List ℕ };

    ghost view = { λ s. take s.len s.bytes };

    ghost invariant = { λ s. s.len ≤ 10 };
}

impl VarintBytes {
    /// Returns the 1 to 10 bytes.
    pub fn as_slice(&self) -> &[u8]
        ensures { result.now ≡ self.now }
    {
        &self.bytes[..self.len]
    }
}

/// Returns the shortest spelling of a number.
pub fn write_varint(value: u64) -> VarintBytes
    ensures { result ≡ shortest value }
{
    let mut bytes = [0; 10];
    let mut len = 0;
    let mut rest = value;
    while rest >= 128 && len < 9 {
        bytes[len] = (128 + rest % 128) as u8;
        rest /= 128;
        len += 1;
    }
    bytes[len] = (rest % 128) as u8;
    VarintBytes {
        bytes,
        len: len + 1,
    }
}
