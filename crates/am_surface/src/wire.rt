//! The wire form: varints, fields, rows and messages.

use crate::samples::{ROW, holds};
use am_silence::MeshSilence;
use am_wire::{
    Field, Fields, Message, RowFault, RowReader, Rows, Value, VarintBytes, WireError, read_varint,
    write_varint,
};
use std::alloc::Global;

/// Calls everything public of am_wire.
pub fn calls(alloc: Global) -> Option<()> {
    varints()?;
    fields()?;
    rows()?;
    messages::<MeshSilence>(alloc, &ROW[1..])?;
    read_rows(alloc)?;
    holds(place_in(RowFault::Wire(WireError::Truncated { at: 3 })) == 3)
}

fn varints() -> Option<()> {
    let number: Result<(u64, usize), WireError> = read_varint(&[172, 2]);
    let spelled: VarintBytes = write_varint(300);
    let bytes: &[u8] = spelled.as_slice();
    holds(number.ok()? == (300, 2) && bytes == [172, 2].as_slice())
}

fn fields() -> Option<()> {
    let mut fields: Fields<'_> = Fields::new(&[8, 5]);
    let first: Option<Result<Field<'_>, WireError>> = fields.next();
    let field = first?.ok()?;
    let number: u32 = field.number;
    let at: usize = field.at;
    holds(number == 1 && at == 0 && number_in(field.value) == 5)
}

/// Returns a value if it is a number, and otherwise the number of its bytes.
fn number_in(value: Value<'_>) -> u64 {
    match value {
        Value::Varint(number) | Value::Eight(number) => number,
        Value::Four(number) => u64::from(number),
        Value::Bytes(bytes) => bytes.len() as u64,
    }
}

fn rows() -> Option<()> {
    let mut rows: Rows<'_> = Rows::new(&[1, 7]);
    let first: Option<Result<&[u8], WireError>> = rows.next();
    let end: Option<Result<&[u8], WireError>> = rows.next();
    holds(first?.ok()? == [7].as_slice() && end.is_none())
}

fn messages<M: Message>(alloc: Global, bytes: &[u8]) -> Option<()> {
    let mut text: Vec<u8> = Vec::new(alloc);
    let message: Result<M, WireError> = M::decode(alloc, bytes);
    let message = message.ok()?;
    let encoded: Result<(), WireError> = message.encode(&mut text);
    holds(encoded.is_ok() && text.as_slice() == bytes)
}

fn read_rows(alloc: Global) -> Option<()> {
    let mut input: &[u8] = &ROW;
    let mut reader: RowReader<MeshSilence> = RowReader::new(alloc);
    let first: Result<Option<MeshSilence>, RowFault> = reader.next(&mut input);
    let end: Result<Option<MeshSilence>, RowFault> = reader.next(&mut input);
    holds(matches!(first, Ok(Some(_))) && matches!(end, Ok(None)))
}

/// Returns the place that a fault of a row has, or 0 if it has none.
fn place_in(fault: RowFault) -> usize {
    match fault {
        RowFault::Read { at } => at,
        RowFault::Wire(fault) => place_of(fault),
        RowFault::TooLarge | RowFault::Ended | RowFault::Memory => 0,
    }
}

/// Returns the place, or the field's number, that a fault has, or 0 if it has none.
fn place_of(fault: WireError) -> usize {
    match fault {
        WireError::Truncated { at }
        | WireError::LongVarint { at }
        | WireError::FieldNumber { at }
        | WireError::WireType { at }
        | WireError::WrongType { at }
        | WireError::NotUtf8 { at }
        | WireError::Timestamp { at }
        | WireError::MatcherType { at } => at,
        WireError::MissingMessage { field } => field as usize,
        WireError::TooLarge | WireError::Memory => 0,
    }
}
