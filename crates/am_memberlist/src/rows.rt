//! The rows of the states that replicas tell one another: a full state, in which each state is a part with its key.

ghost use Rattle.std.specs.Prelude.{◌≡◌, ◌+◌, ◌<◌, ◌^◌, bytes_eq, length, IfOk};
ghost use Rattle.am_wire.specs.Fields.{field_of};
ghost use Rattle.am_gossip.specs.Keys.{key_text};
ghost use Rattle.am_gossip.specs.Parts.{part_table, parts_fit};
ghost use Rattle.am_memberlist.specs.Answers.{GivesUnlessMemory};
ghost use Rattle.am_memberlist.specs.Rows.{part_row, part_encoding, with_part, row_in, states_encoding};
ghost use Rattle.am_memberlist.specs.Seen.{row_seen, found_seen};

use crate::error::AnswerError;
use am_gossip::StateKey;
use am_wire::reading::{LastBytes, LastText, MessageReader, Scan, Schema, take_fields};
use am_wire::writing::{write_delimited, write_text};
use am_wire::{Field, Value, WireError, WireType};
use std::alloc::{AllocError, Global};

/// A part while it is read: its key, and its row.
#[derive(Clone, Copy)]
pub struct PartDraft<'a> {
    key: LastText<'a>,
    row: LastBytes<'a>,
}

impl Schema for PartDraft<'_> {
    ghost fitting = { part_table.fits };

    fn fits(number: u32, wire_type: WireType) -> bool
        ensures { result ≡ part_table.fits number wire_type }
    {
        match number {
            1 | 2 => wire_type == WireType::Bytes,
            _ => true,
        }
    }
}

impl<'a> MessageReader<'a> for PartDraft<'a> {
    ghost use Rattle.std.specs.Prelude.{None};
    ghost use Rattle.am_memberlist.specs.Rows.{nothing_of, IsPartDraft};

    type Done = ();

    ghost inside = { part_table.inside };

    ghost holds = { IsPartDraft };

    ghost tests = { λ place es. None };

    ghost value = { nothing_of };

    fn start(_alloc: Global) -> Self {
        PartDraft {
            key: LastText::none(),
            row: LastBytes::none(),
        }
    }

    fn take(&mut self, field: Field<'a>) -> Result<(), WireError> {
        match field.number {
            1 => self.key.take(field)?,
            2 => self.row.take(field),
            _ => {}
        }
        Ok(())
    }

    fn finish(self, _alloc: Global, _place: usize) -> Result<(), WireError> {
        Ok(())
    }
}

/// The wire types that the fields of a full state may have.
pub struct PartFields;

impl Schema for PartFields {
    ghost fitting = { parts_fit };

    fn fits(number: u32, wire_type: WireType) -> bool {
        number != 1 || wire_type == WireType::Bytes
    }
}

/// Returns whether a text is the key of this state.
fn is_key(text: &str, key: StateKey) -> bool
    ensures { result ≡ bytes_eq text.now (key_text key) }
{
    text == key.as_str()
}

/// Returns the row of a part, if the part belongs to this state; the part begins at the offset `at`.
pub fn part_row<'a>(
    alloc: Global,
    bytes: &'a [u8],
    at: usize,
    key: StateKey,
) -> Result<Option<&'a [u8]>, AnswerError>
    requires { at + length bytes.now < 2 ^ 64 }
    ensures { GivesUnlessMemory (row_seen result) (part_row key at bytes.now) }
{
    let mut part = PartDraft::start(alloc);
    take_fields(&mut part, bytes, at)?;
    if is_key(part.key.text, key) {
        Ok(Some(part.row.bytes))
    } else {
        Ok(None)
    }
}

/// Returns the row found before, or else that of the part in a field.
fn with_part<'a>(
    alloc: Global,
    found: Option<&'a [u8]>,
    field: Field<'a>,
    key: StateKey,
) -> Result<Option<&'a [u8]>, AnswerError>
    ensures { GivesUnlessMemory (row_seen result) (with_part key (found_seen found.entry) (field_of field.entry)) }
{
    let (1, Value::Bytes(bytes)) = (field.number, field.value) else {
        return Ok(found);
    };
    match (found, part_row(alloc, bytes, field.inside, key)?) {
        (Some(_), Some(_)) => Err(AnswerError::Twice),
        (None, row) => Ok(row),
        (found, None) => Ok(found),
    }
}

/// Returns the row of a state in a replica's full state, as it stands there, or `None` if the replica has no such state. Parts
/// of other states are skipped.
///
/// # Errors
///
/// Returns [`AnswerError::Wire`] or [`AnswerError::Twice`], the first fault in the bytes; or [`AnswerError::Memory`].
pub fn row_in<'a>(
    alloc: Global,
    states: &'a [u8],
    key: StateKey,
) -> Result<Option<&'a [u8]>, AnswerError>
    ensures { GivesUnlessMemory (row_seen result) (row_in key states.now) }
{
    let mut found = None;
    for field in Scan::<PartFields>::new(states) {
        found = with_part(alloc, found, field?, key)?;
    }
    Ok(found)
}

/// Returns the part of a state with this row.
///
/// # Errors
///
/// Returns [`AllocError`] if memory runs out.
#[tactic(auto, unfolding(crate::specs::Rows::part_encoding))]
pub fn part_encoding(alloc: Global, key: StateKey, row: &[u8]) -> Result<Vec<u8>, AllocError>
    ensures { IfOk result (λ text. text.items ≡ part_encoding key row.now) }
{
    let mut part = Vec::new(alloc);
    write_text(&mut part, 1, key.as_str())?;
    if !row.is_empty() {
        write_delimited(&mut part, 2, row)?;
    }
    Ok(part)
}

/// Returns the full state with one state alone, by its row.
///
/// # Errors
///
/// Returns [`AllocError`] if memory runs out.
#[tactic(auto, unfolding(crate::specs::Rows::states_encoding))]
pub fn states_encoding(alloc: Global, key: StateKey, row: &[u8]) -> Result<Vec<u8>, AllocError>
    ensures { IfOk result (λ text. text.items ≡ states_encoding key row.now) }
{
    let part = part_encoding(alloc, key, row)?;
    let mut text = Vec::new(alloc);
    write_delimited(&mut text, 1, &part)?;
    Ok(text)
}
