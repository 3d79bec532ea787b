//! The fields of messages that their readers don't know.

ghost use Rattle.std.specs.Prelude.{◌≡◌, ℕ, ◌+◌, ◌<◌, ◌^◌, ◌++◌, length, OnOk, IfOk};
ghost use Rattle.am_wire.specs.Expiring.{expiring_fits};
ghost use Rattle.am_wire.specs.Fields.{fields_of};
ghost use Rattle.am_wire.specs.Reading.{sound_fields};
ghost use Rattle.am_wire.specs.Unknown.{unknown_in, unknown_inside, none, unknown_fields};

use crate::bytes::Bytes;
use crate::expiring::ExpiringDraft;
use crate::field::{AnyField, field_from};
use crate::fields::Scan;
use crate::timestamp::TimestampDraft;
use crate::value::Value;
use std::alloc::{AllocError, Global};

/// A choice of what to do with the fields of a message that its reader doesn't know.
#[derive(Clone, Copy, Debug, PartialEq, Eq)]
pub enum Unknown {
    Drop,
    Keep,
}

/// The unknown fields of a message that is kept until a moment, byte for byte in their order: those of the message itself,
/// and those beside the message and its moment.
#[derive(Drop)]
pub struct UnknownFields {
    pub inner: Bytes,
    pub outer: Bytes,
}

impl UnknownFields {
    /// Returns no fields. Nothing is allocated.
    pub fn none(alloc: Global) -> UnknownFields
        ensures { result ≡ none }
    {
        UnknownFields {
            inner: Bytes::new(Vec::new(alloc)),
            outer: Bytes::new(Vec::new(alloc)),
        }
    }

    /// Returns the unknown fields in bytes that begin at the offset `at` of the outermost input, or none if they are dropped.
    /// The message knows the numbers in `known`.
    ///
    /// # Errors
    ///
    /// [`AllocError`] if memory runs out.
    pub fn of(
        alloc: Global,
        unknown: Unknown,
        known: &[u32],
        bytes: &[u8],
        at: usize,
    ) -> Result<UnknownFields, AllocError>
        requires { at + length bytes.now < 2 ^ 64 }
        ensures { IfOk result (λ fields. fields ≡
            unknown_fields unknown known.now (sound_fields (fields_of expiring_fits at bytes.now)) bytes.now) }
    {
        if unknown == Unknown::Drop {
            return Ok(UnknownFields::none(alloc));
        }
        let mut inner = Vec::new(alloc);
        append_inner(&mut inner, known, bytes, at)?;
        let mut outer = Vec::new(alloc);
        append_unknown(&mut outer, &[1, 2], bytes)?;
        Ok(UnknownFields {
            inner: Bytes::new(inner),
            outer: Bytes::new(outer),
        })
    }
}

// Appends the unknown fields of each payload of the message, which has the number 1.
fn append_inner(out: &mut Vec<u8>, known: &[u32], bytes: &[u8], at: usize) -> Result<(), AllocError>
    requires { at + length bytes.now < 2 ^ 64 }
    ensures { OnOk result (out.new.items ≡
        out.old.items ++ unknown_inside known.now 1 (sound_fields (fields_of expiring_fits at bytes.now))) }
{
    for item in Scan::<ExpiringDraft<TimestampDraft>>::within(bytes, at) {
        let Ok(field) = item else {
            break;
        };
        if field.number == 1
            && let Value::Bytes(payload) = field.value
        {
            append_unknown(out, known, payload)?;
        }
    }
    Ok(())
}

// Appends the fields of a message whose numbers aren't known, byte for byte.
fn append_unknown(out: &mut Vec<u8>, known: &[u32], bytes: &[u8]) -> Result<(), AllocError>
    ensures { OnOk result (out.new.items ≡ out.old.items ++ unknown_in known.now bytes.now) }
{
    let mut rest = bytes;
    while let Ok((field, len)) = field_from::<AnyField>(rest, 0) {
        let (text, behind) = rest.split_at(len);
        if !known.contains(&field.number) {
            out.extend_from_slice(text)?;
        }
        rest = behind;
    }
    Ok(())
}
