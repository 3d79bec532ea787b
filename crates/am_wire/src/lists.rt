//! Fields of bytes, and lists of numbers, which are packed or one to a field.

ghost use Rattle.std.specs.Prelude.{◌≡◌, ℕ, List, [], ◌∷◌, ◌++◌, Option, None, Some, ◌<◌, ◌^◌, length, All, OnOk, IfErr, count_by, nat_lt};
ghost use Rattle.std.specs.List.{flat_map};
ghost use Rattle.am_wire.specs.Fields.{field_of};
ghost use Rattle.am_wire.specs.Reading.{FailsUnlessMemory, last_or, delimited_in, numbers_in, numbers_fault};
ghost use Rattle.am_wire.specs.Reading.{until_fault, first_fault, unpacked};
ghost use Rattle.am_wire.specs.Varint.{shortest};
ghost use Rattle.am_wire.specs.Writing.{writes_delimited, writes_text, writes_numbers};

use crate::error::WireError;
use crate::size::varints_size;
use crate::value::{Field, Value};
use crate::varint::{varint_from, write_varint};
use crate::writing::{write_delimited, write_prefix};
use std::alloc::AllocError;

/// The bytes of the last field with a given number.
#[derive(Clone, Copy)]
pub struct LastBytes<'a> {
    pub bytes: &'a [u8],
}

impl<'a> LastBytes<'a> {
    /// Returns the bytes before any field is taken, which are empty.
    pub fn none() -> Self
        ensures { result.bytes.now ≡ [] }
    {
        LastBytes { bytes: &[] }
    }

    /// Takes the field if it holds bytes.
    pub fn take(&mut self, field: Field<'a>)
        ensures { self.new.bytes.now ≡ last_or self.old.bytes.now (delimited_in (field_of field.entry)) }
    {
        if let Value::Bytes(bytes) = field.value {
            self.bytes = bytes;
        }
    }
}

/// Reads the numbers in a field, packed or not, and appends them.
///
/// # Errors
///
/// The first fault in packed numbers, reported at the field's tag, or [`WireError::Memory`].
pub fn take_numbers(numbers: &mut Vec<u64>, field: Field<'_>) -> Result<(), WireError>
    ensures held { OnOk result (numbers.new.items ≡ numbers.old.items ++ numbers_in (field_of field.entry)) }
    ensures clean { OnOk result (numbers_fault (field_of field.entry) ≡ None) }
    ensures fault { IfErr result (λ e. FailsUnlessMemory e (numbers_fault (field_of field.entry))) }
{
    match field.value {
        Value::Varint(number) => numbers.push(number)?,
        Value::Bytes(bytes) => unpack(numbers, bytes, field.at)?,
        Value::Eight(_) | Value::Four(_) => {}
    }
    Ok(())
}

// Returns how many packed numbers end in the bytes.
fn packed_count(bytes: &[u8]) -> usize
    ensures { result ≡ count_by (λ byte. nat_lt byte 128) bytes.now }
{
    bytes.iter().filter(|byte| **byte < 128).count()
}

// Reads the numbers packed in the bytes, and appends them; a fault is reported at `at`.
fn unpack(numbers: &mut Vec<u64>, bytes: &[u8], at: usize) -> Result<(), WireError>
    ensures held { OnOk result (numbers.new.items ≡ numbers.old.items ++ until_fault (unpacked at bytes.now)) }
    ensures clean { OnOk result (first_fault (unpacked at bytes.now) ≡ None) }
    ensures fault { IfErr result (λ e. FailsUnlessMemory e (first_fault (unpacked at bytes.now))) }
{
    numbers.reserve(packed_count(bytes))?;
    let mut rest = bytes;
    while !rest.is_empty() {
        let (number, len) = varint_from(rest, at)?;
        numbers.push(number)?;
        rest = &rest[len..];
    }
    Ok(())
}

/// Writes bytes as a field if there are any.
///
/// # Errors
///
/// [`AllocError`] if memory runs out. A part of the field may have been written then.
pub fn write_bytes(out: &mut Vec<u8>, number: u32, bytes: &[u8]) -> Result<(), AllocError>
    requires { number < 2 ^ 29 }
    ensures ok { OnOk result (out.new.items ≡ out.old.items ++ writes_text number bytes.now) }
{
    if !bytes.is_empty() {
        write_delimited(out, number, bytes)?;
    }
    Ok(())
}

/// Writes numbers packed in one field if there are any.
///
/// # Errors
///
/// [`AllocError`] if memory runs out. A part of the field may have been written then.
pub fn write_numbers(out: &mut Vec<u8>, number: u32, numbers: &[u64]) -> Result<(), AllocError>
    requires { number < 2 ^ 29 }
    ensures ok { OnOk result (out.new.items ≡ out.old.items ++ writes_numbers number numbers.now) }
    ensures range { All (λ n. n < 2 ^ 64) numbers.now }
{
    if !numbers.is_empty() {
        write_prefix(out, number, varints_size(numbers))?;
        append_varints(out, numbers)?;
    }
    Ok(())
}

// Appends numbers one after another.
fn append_varints(out: &mut Vec<u8>, numbers: &[u64]) -> Result<(), AllocError>
    ensures ok { OnOk result (out.new.items ≡ out.old.items ++ flat_map shortest numbers.now) }
{
    for number in numbers {
        out.extend_from_slice(write_varint(*number).as_slice())?;
    }
    Ok(())
}
