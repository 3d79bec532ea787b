//! Functions that append fields to a vector.

ghost use Rattle.std.specs.Prelude.{◌≡◌, ℕ, List, ◌++◌, ◌<◌, ◌≤◌, ◌^◌, OnOk, IfOk, OnErr, IfErr, ◌⊎◌, ◌↔◌, length, vec_len};
ghost use Rattle.am_wire.specs.Limits.{most};
ghost use Rattle.am_wire.specs.Varint.{shortest};
ghost use Rattle.am_wire.specs.declared.error.WireError.TheVariants as errors;
ghost use Rattle.am_wire.specs.Writing.{tag, writes_number, writes_delimited, writes_text};

pub use crate::delimited::{append_delimited, delimited_bytes, delimited_length};
use crate::error::WireError;
pub use crate::expiring::expiring_size;
pub use crate::lists::{write_bytes, write_numbers};
pub use crate::message::write_message;
pub use crate::offset::{write_packed_part, write_part};
use crate::rows::MOST_MESSAGE_BYTES;
pub use crate::size::{
    bytes_size, delimited_size, message_size, number_size, numbers_size, text_size, varint_size,
    varints_size,
};
use std::alloc::AllocError;

// Appends a number.
#[tactic(auto, unfolding(crate::specs::Varint::groups))]
pub(crate) fn append_varint(out: &mut Vec<u8>, value: u64) -> Result<(), AllocError>
    ensures ok { OnOk result (out.new.items ≡ out.old.items ++ shortest value) }
{
    if value < 128 {
        out.push(value as u8)?;
        return Ok(());
    }
    append_long_varint(out, value)
}

// Appends a number byte by byte, apart from `append_varint`, since most numbers have only one byte.
#[inline(never)]
fn append_long_varint(out: &mut Vec<u8>, value: u64) -> Result<(), AllocError>
    ensures ok { OnOk result (out.new.items ≡ out.old.items ++ shortest value) }
{
    let mut rest = value;
    let mut len: usize = 0;
    while rest >= 128 && len < 9 {
        out.push((128 + rest % 128) as u8)?;
        rest /= 128;
        len += 1;
    }
    out.push((rest % 128) as u8)?;
    Ok(())
}

/// Writes a number as a field. 0 is left out, since a missing number is read as 0.
///
/// # Errors
///
/// [`AllocError`] if memory runs out. A part of the field may have been written then.
pub fn write_number(out: &mut Vec<u8>, number: u32, value: u64) -> Result<(), AllocError>
    requires { number < 2 ^ 29 }
    ensures ok { OnOk result (out.new.items ≡ out.old.items ++ writes_number number value) }
{
    if value != 0 {
        append_varint(out, u64::from(number) * 8)?;
        append_varint(out, value)?;
    }
    Ok(())
}

/// Writes the tag and the length that come in front of `size` bytes in a field.
///
/// # Errors
///
/// [`AllocError`] if memory runs out. A part of the field may have been written then.
pub fn write_prefix(out: &mut Vec<u8>, number: u32, size: u64) -> Result<(), AllocError>
    requires { number < 2 ^ 29 }
    ensures ok { OnOk result (out.new.items ≡ out.old.items ++ (tag number 2 ++ shortest size)) }
{
    append_varint(out, u64::from(number) * 8 + 2)?;
    append_varint(out, size)
}

/// Writes bytes as a field, even if there are none.
///
/// # Errors
///
/// [`AllocError`] if memory runs out. A part of the field may have been written then.
pub fn write_delimited(out: &mut Vec<u8>, number: u32, bytes: &[u8]) -> Result<(), AllocError>
    requires { number < 2 ^ 29 }
    ensures ok { OnOk result (out.new.items ≡ out.old.items ++ writes_delimited number bytes.now) }
{
    write_prefix(out, number, bytes.len() as u64)?;
    out.extend_from_slice(bytes)?;
    Ok(())
}

/// Writes a text as a field. An empty one is left out, since a missing text is read as empty.
///
/// # Errors
///
/// [`AllocError`] if memory runs out. A part of the field may have been written then.
pub fn write_text(out: &mut Vec<u8>, number: u32, text: &str) -> Result<(), AllocError>
    requires { number < 2 ^ 29 }
    ensures ok { OnOk result (out.new.items ≡ out.old.items ++ writes_text number text.now) }
{
    if !text.is_empty() {
        write_delimited(out, number, text.as_bytes())?;
    }
    Ok(())
}

/// Appends the whole text of a message.
///
/// # Errors
///
/// [`WireError::TooLarge`] if and only if the text has more than [`MOST_MESSAGE_BYTES`], whatever memory there is, or
/// [`WireError::Memory`]. The bytes are unchanged after either.
pub fn append_text(out: &mut Vec<u8>, text: &[u8]) -> Result<(), WireError>
    ensures ok { OnOk result (out.new.items ≡ out.old.items ++ text.now) }
    ensures size { OnOk result (length text.now ≤ most) }
    ensures err { OnErr result (out.new.items ≡ out.old.items) }
    ensures too_large { (result ≡ Err errors.TooLarge) ↔ (most < length text.now) }
    ensures refused { IfErr result (λ e. (e ≡ errors.Memory) ⊎ (e ≡ errors.TooLarge)) }
{
    if text.len() as u64 > MOST_MESSAGE_BYTES {
        return Err(WireError::TooLarge);
    }
    out.extend_from_slice(text)?;
    Ok(())
}
