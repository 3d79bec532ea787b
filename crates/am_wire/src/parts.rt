//! The parts of a message's draft: for each field number, the value that counts so far.

ghost use Rattle.std.specs.Prelude.{◌≡◌, ℕ, false, List, [], ◌∷◌, ◌++◌, None, Some, ◌+◌, ◌<◌, ◌^◌, length, map, OnOk, IfErr};
ghost use Rattle.am_wire.specs.Fields.{FieldAt, field_of};
ghost use Rattle.am_wire.specs.Reading.{FailsUnlessMemory, Table, last_or, varint_in, varint_place, delimited_in, delimited_place};
ghost use Rattle.am_wire.specs.Reading.{delimited_given, text_fault, item_fault, message_in, part_fault, parts_in};
ghost use Rattle.am_wire.specs.Reading.{table_at};

use crate::ascii::text_of;
use crate::error::WireError;
use crate::message_reader::{MessageReader, read_message, take_fields};
use crate::value::{Field, Value};
use std::alloc::Global;

/// The number in the last field with a given field number, and that field's offset.
#[derive(Clone, Copy)]
pub struct LastNumber {
    pub value: u64,
    pub at: usize,
}

impl LastNumber {
    /// Returns the value before any field is taken, which is 0.
    pub fn none() -> Self
        ensures value { result.value ≡ 0 }
        ensures at { result.at ≡ 0 }
    {
        LastNumber { value: 0, at: 0 }
    }

    /// Takes the field if it holds a number.
    pub fn take(&mut self, field: Field<'_>)
        ensures value { self.new.value ≡ last_or self.old.value (varint_in (field_of field.entry)) }
        ensures at { self.new.at ≡ last_or self.old.at (varint_place (field_of field.entry)) }
    {
        if let Value::Varint(value) = field.value {
            self.value = value;
            self.at = field.at;
        }
    }
}

/// The text in the last field with a given field number.
#[derive(Clone, Copy)]
pub struct LastText<'a> {
    pub text: &'a str,
}

impl<'a> LastText<'a> {
    /// Returns the text before any field is taken, which is empty.
    pub fn none() -> Self
        ensures { result.text.now ≡ [] }
    {
        LastText { text: "" }
    }

    /// Takes the field if it holds bytes.
    ///
    /// # Errors
    ///
    /// [`WireError::NotUtf8`] if the bytes aren't a text.
    pub fn take(&mut self, field: Field<'a>) -> Result<(), WireError>
        ensures held { OnOk result (self.new.text.now ≡ last_or self.old.text.now (delimited_in (field_of field.entry))) }
        ensures clean { OnOk result (text_fault (field_of field.entry) ≡ None) }
        ensures fault { IfErr result (λ e. FailsUnlessMemory e (text_fault (field_of field.entry))) }
    {
        if let Value::Bytes(bytes) = field.value {
            let Ok(text) = text_of(bytes) else {
                return Err(WireError::NotUtf8 { at: field.at });
            };
            self.text = text;
        }
        Ok(())
    }
}

/// The draft of a message that is held once, and the offset at which it was last given.
#[derive(Drop)]
pub struct Submessage<D> {
    pub draft: D,
    pub at: usize,
    pub given: bool,
}

impl<D> Submessage<D> {
    /// Returns the draft before any payload is taken.
    pub fn none<'a>(alloc: Global) -> Self
    where
        D: MessageReader<'a>,
        ensures draft { D.holds [] result.draft }
        ensures at { result.at ≡ 0 }
        ensures given { result.given ≡ false }
    {
        Submessage {
            draft: D::start(alloc),
            at: 0,
            given: false,
        }
    }

    /// Takes the fields in the payload if it is bytes.
    ///
    /// # Errors
    ///
    /// The first fault in the payload, or [`WireError::Memory`].
    pub fn take<'a>(&mut self, field: Field<'a>) -> Result<(), WireError>
    where
        D: MessageReader<'a>,
        ensures held { OnOk result ((es : List FieldAt) → D.holds es self.old.draft →
            D.holds (es ++ parts_in (table_at D.fitting D.inside) (field_of field.entry)) self.new.draft) }
        ensures at { OnOk result (self.new.at ≡ last_or self.old.at (delimited_place (field_of field.entry))) }
        ensures given { OnOk result (self.new.given ≡ last_or self.old.given (delimited_given (field_of field.entry))) }
        ensures clean { OnOk result (part_fault (table_at D.fitting D.inside) (field_of field.entry) ≡ None) }
        ensures fault { IfErr result (λ e. FailsUnlessMemory e (part_fault (table_at D.fitting D.inside) (field_of field.entry))) }
    {
        if let Value::Bytes(bytes) = field.value {
            take_fields(&mut self.draft, bytes, field.inside)?;
            self.at = field.at;
            self.given = true;
        }
        Ok(())
    }
}

/// Reads the message in a field, and appends it to the others.
///
/// # Errors
///
/// The first fault in the message, or else the one that its own tests find, reported at the field's tag; or
/// [`WireError::Memory`].
pub fn take_item<'a, D: MessageReader<'a>>(
    alloc: Global,
    items: &mut Vec<D::Done>,
    field: Field<'a>,
) -> Result<(), WireError>
    ensures held { OnOk result (items.new.items
        ≡ items.old.items ++ map D.value (message_in (table_at D.fitting D.inside) (field_of field.entry))) }
    ensures clean { OnOk result (item_fault (table_at D.fitting D.inside) D.tests (field_of field.entry) ≡ None) }
    ensures fault { IfErr result (λ e. FailsUnlessMemory e (item_fault (table_at D.fitting D.inside) D.tests (field_of field.entry))) }
{
    if let Value::Bytes(bytes) = field.value {
        let item = read_message::<D>(alloc, bytes, field.inside, field.at)?;
        items.push(item)?;
    }
    Ok(())
}
