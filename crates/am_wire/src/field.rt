//! The field at the front of bytes.

ghost use Rattle.std.specs.Prelude.{◌≡◌, ℕ, List, Bool, Result, Ok, Err, ◌+◌, ◌<◌, ◌≤◌, ◌^◌, ◌/◌, ◌%◌, length, drop, IfOk};
ghost use Rattle.std.specs.Int.{w32, w64, from_le_bytes};
ghost use Rattle.am_wire.specs.Length.{payload_len};
ghost use Rattle.am_wire.specs.Fields.{Payload, varint, eight, four, delimited_at, field_of, payload_of, payload_seen};
ghost use Rattle.am_wire.specs.Fields.{field_seen, number_at, fixed_at, payload_behind_length, payload_at, kind_of, tag_number};
ghost use Rattle.am_wire.specs.Fields.{field_at, fields_of, any};

use crate::error::WireError;
use crate::value::{Field, Value, WireType};
use crate::varint::varint_from;

/// The wire types that a message's field numbers may have.
pub trait Schema {
    ghost use Rattle.am_wire.specs.declared.value.WireType.{WireType};

    ghost fitting: { ℕ → WireType → Bool };

    /// Returns whether the number may have the wire type; an unknown number may have any.
    fn fits(number: u32, wire_type: WireType) -> bool
        ensures { result ≡ fitting number wire_type };
}

/// The schema in which any number may have any wire type.
pub struct AnyField;

impl Schema for AnyField {
    ghost use Rattle.am_wire.specs.declared.value.WireType.{WireType};

    ghost fitting = { any };

    fn fits(_number: u32, _wire_type: WireType) -> bool {
        true
    }
}

#[tactic(auto, unfolding(crate::specs::Fields::kind_of))]
fn wire_type_of(tag: u64, at: usize) -> Result<WireType, WireError>
    ensures { result ≡ kind_of at (tag % 8) }
{
    match tag % 8 {
        0 => Ok(WireType::Varint),
        1 => Ok(WireType::Eight),
        2 => Ok(WireType::Bytes),
        5 => Ok(WireType::Four),
        _ => Err(WireError::WireType { at }),
    }
}

#[tactic(auto, unfolding(crate::specs::Fields::tag_number))]
fn number_of(tag: u64, at: usize) -> Result<u32, WireError>
    ensures { result ≡ tag_number at (tag / 8) }
{
    let number = tag / 8;
    if 0 < number && number < 1 << 29 {
        Ok(number as u32)
    } else {
        Err(WireError::FieldNumber { at })
    }
}

/// Reads the payload at the front, and returns it with the offset of its bytes and its length.
#[tactic(auto, unfolding(crate::specs::Fields::payload_at, crate::specs::Fields::number_at))]
fn varint_payload<'a>(
    bytes: &'a [u8],
    at: usize,
    start: usize,
) -> Result<(Value<'a>, usize, usize), WireError>
    ensures value { payload_seen result ≡ number_at at bytes.now }
    ensures within { IfOk result (λ x. (x.1 + payload_len x.0 ≤ start + x.2) × (x.2 ≤ length bytes.now)) }
{
    let (number, len) = varint_from(bytes, at)?;
    Ok((Value::Varint(number), start, len))
}

fn eight_payload<'a>(
    bytes: &'a [u8],
    at: usize,
    start: usize,
) -> Result<(Value<'a>, usize, usize), WireError>
    ensures value { payload_seen result ≡ fixed_at 8 (λ b. eight (from_le_bytes w64 b)) at bytes.now }
    ensures within { IfOk result (λ x. (x.1 + payload_len x.0 ≤ start + x.2) × (x.2 ≤ length bytes.now)) }
{
    let Some((front, _)) = bytes.split_first_chunk::<8>() else {
        return Err(WireError::Truncated { at });
    };
    Ok((Value::Eight(u64::from_le_bytes(*front)), start, 8))
}

fn four_payload<'a>(
    bytes: &'a [u8],
    at: usize,
    start: usize,
) -> Result<(Value<'a>, usize, usize), WireError>
    ensures value { payload_seen result ≡ fixed_at 4 (λ b. four (from_le_bytes w32 b)) at bytes.now }
    ensures within { IfOk result (λ x. (x.1 + payload_len x.0 ≤ start + x.2) × (x.2 ≤ length bytes.now)) }
{
    let Some((front, _)) = bytes.split_first_chunk::<4>() else {
        return Err(WireError::Truncated { at });
    };
    Ok((Value::Four(u32::from_le_bytes(*front)), start, 4))
}

#[tactic(auto, unfolding(crate::specs::Fields::payload_behind_length))]
fn delimited_payload<'a>(
    bytes: &'a [u8],
    at: usize,
    start: usize,
) -> Result<(Value<'a>, usize, usize), WireError>
    requires { start + length bytes.now < 2 ^ 64 }
    ensures value { payload_seen result ≡ payload_behind_length at start bytes.now }
    ensures within { IfOk result (λ x. (x.1 + payload_len x.0 ≤ start + x.2) × (x.2 ≤ length bytes.now)) }
{
    let (size, len) = varint_from(bytes, at)?;
    let rest = &bytes[len..];
    if (rest.len() as u64) < size {
        return Err(WireError::Truncated { at });
    }
    let size = size as usize;
    Ok((Value::Bytes(&rest[..size]), start + len, len + size))
}

#[inline(always)]
#[tactic(auto, unfolding(crate::specs::Fields::payload_at))]
fn payload_from<'a>(
    wire_type: WireType,
    bytes: &'a [u8],
    at: usize,
    start: usize,
) -> Result<(Value<'a>, usize, usize), WireError>
    requires { start + length bytes.now < 2 ^ 64 }
    ensures value { payload_seen result ≡ payload_at wire_type at start bytes.now }
    ensures within { IfOk result (λ x. (x.1 + payload_len x.0 ≤ start + x.2) × (x.2 ≤ length bytes.now)) }
{
    match wire_type {
        WireType::Varint => varint_payload(bytes, at, start),
        WireType::Eight => eight_payload(bytes, at, start),
        WireType::Bytes => delimited_payload(bytes, at, start),
        WireType::Four => four_payload(bytes, at, start),
    }
}

/// Reads the field at the front, and returns it with its length.
#[tactic(auto, unfolding(crate::specs::Fields::field_at))]
pub fn field_from<'a, K: Schema>(
    bytes: &'a [u8],
    at: usize,
) -> Result<(Field<'a>, usize), WireError>
    requires { at + length bytes.now < 2 ^ 64 }
    ensures value { field_seen result ≡ field_at K.fitting at bytes.now }
    ensures within { IfOk result (λ x. (0 < x.1) × (x.1 ≤ length bytes.now)) }
{
    let (tag, tag_len) = varint_from(bytes, at)?;
    let number = number_of(tag, at)?;
    let wire_type = wire_type_of(tag, at)?;
    if !K::fits(number, wire_type) {
        return Err(WireError::WrongType { at });
    }
    let (value, inside, len) = payload_from(wire_type, &bytes[tag_len..], at, at + tag_len)?;
    let field = Field {
        number,
        value,
        at,
        inside,
    };
    Ok((field, tag_len + len))
}
