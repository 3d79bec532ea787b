//! Parts of a text (protobuf's length-delimited fields) that are kept as the offset of their length in it.

ghost use Rattle.std.specs.Prelude.{◌≡◌, ℕ, ◌+◌, ◌<◌, ◌≤◌, ◌^◌, ◌++◌, List, All, OnOk, IfOk, if◌then◌else◌};
ghost use Rattle.std.specs.List.{flat_map};
ghost use Rattle.std.specs.Str.{IsUtf8};
ghost use Rattle.am_wire.specs.Offsets.{Follows, StandsAt};
ghost use Rattle.am_wire.specs.Varint.{shortest};
ghost use Rattle.am_wire.specs.Writing.{writes_text, writes_numbers};

use crate::lists::{write_bytes, write_numbers};
use crate::varint::read_varint;
use std::alloc::AllocError;

/// The place of a part in a text: the number of bytes in front of its length, which precedes it.
///
/// 0 is the offset of an empty part.
#[derive(Clone, Copy)]
pub struct Offset {
    pub start: usize,
}

impl Offset {
    // Returns the offset of a field's bytes, if its tag, of one byte, comes after `count` bytes. An empty field is left out.
    pub(crate) fn behind_tag(count: usize, is_empty: bool) -> Offset
        requires { count ≤ 2 ^ 63 }
        ensures { result.start ≡ (if is_empty then 0 else count + 1) }
    {
        if is_empty {
            return Offset { start: 0 };
        }
        Offset { start: count + 1 }
    }

    /// Returns the part of the text at this offset.
    pub fn part_of(self, text: &[u8]) -> &[u8]
        requires { (part : List ℕ) × StandsAt part self text.now }
        ensures { (part : List ℕ) → StandsAt part self text.now → result.now ≡ part }
    {
        if self.start == 0 {
            return &[];
        }
        split_part(&text[self.start..]).0
    }

    /// Returns the part of the text at this offset, which is UTF-8.
    pub fn text_of(self, text: &[u8]) -> &str
        requires { (part : List ℕ) × StandsAt part self text.now × IsUtf8 part }
        ensures { (part : List ℕ) → StandsAt part self text.now → result.now ≡ part }
    {
        let part = self.part_of(text);
        // SAFETY: the part is UTF-8.
        unsafe { str::from_utf8_unchecked(part) }
    }
}

/// Splits the bytes into the part at the front, behind its length, and the rest.
pub fn split_part(bytes: &[u8]) -> (&[u8], &[u8])
    requires { (part : List ℕ) × Follows 0 part bytes.now }
    ensures { (part : List ℕ) → (h : Follows 0 part bytes.now) → (result.0.now ≡ part) × (result.1.now ≡ h.rest) }
{
    match read_varint(bytes) {
        Ok((size, len)) => bytes[len..].split_at(size as usize),
        Err(_) => (&[], &[]),
    }
}

/// Writes bytes as a field if there are any, and returns their offset.
///
/// # Errors
///
/// [`AllocError`] if memory runs out. A part of the field may have been written then.
pub fn write_part(out: &mut Vec<u8>, number: u32, bytes: &[u8]) -> Result<Offset, AllocError>
    requires { number < 16 }
    ensures written { OnOk result (out.new.items ≡ out.old.items ++ writes_text number bytes.now) }
    ensures offset { IfOk result (λ offset. StandsAt bytes.now offset out.new.items) }
{
    let offset = Offset::behind_tag(out.len(), bytes.is_empty());
    write_bytes(out, number, bytes)?;
    Ok(offset)
}

/// Writes numbers packed in one field if there are any, and returns their offset.
///
/// # Errors
///
/// As for [`write_part`].
pub fn write_packed_part(
    out: &mut Vec<u8>,
    number: u32,
    numbers: &[u64],
) -> Result<Offset, AllocError>
    requires { number < 16 }
    ensures written { OnOk result (out.new.items ≡ out.old.items ++ writes_numbers number numbers.now) }
    ensures range { OnOk result (All (λ n. n < 2 ^ 64) numbers.now) }
    ensures offset { IfOk result (λ offset. StandsAt (flat_map shortest numbers.now) offset out.new.items) }
{
    let offset = Offset::behind_tag(out.len(), numbers.is_empty());
    write_numbers(out, number, numbers)?;
    Ok(offset)
}
