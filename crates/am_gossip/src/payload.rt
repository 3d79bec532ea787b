//! The reading of payloads.

ghost use Rattle.std.specs.Prelude.{◌≡◌, ◌≢◌, List, ◌++◌, ◌+◌, ◌<◌, ◌^◌, length, OnOk, IfErr};
ghost use Rattle.am_wire.specs.Fields.{field_of};
ghost use Rattle.am_gossip.specs.declared.error.FrameError.TheVariants.{Memory};
ghost use Rattle.am_gossip.specs.declared.frame.Part.{Part};
ghost use Rattle.am_gossip.specs.Answers.{GivesUnlessMemory};
ghost use Rattle.am_gossip.specs.Parts.{part_table, parts_fit, parts_in, reads_part, reads_parts};
ghost use Rattle.am_gossip.specs.Frames.{reads_payload};

use crate::error::FrameError;
use crate::frame::{Frame, FullState, Part, StateKey};
use crate::kind::FrameKind;
use am_wire::reading::{LastBytes, LastText, MessageReader, Scan, Schema, read_message};
use am_wire::{Bytes, Field, Value, WireError, WireType};
use std::alloc::Global;

/// The draft of a part.
#[derive(Clone, Copy)]
pub struct PartDraft<'a> {
    key: LastText<'a>,
    bytes: LastBytes<'a>,
}

impl Schema for PartDraft<'_> {
    ghost fitting = { part_table.fits };

    fn fits(number: u32, wire_type: WireType) -> bool
        ensures { result ≡ part_table.fits number wire_type }
    {
        match number {
            1 | 2 => wire_type == WireType::Bytes,
            _ => true,
        }
    }
}

impl<'a> MessageReader<'a> for PartDraft<'a> {
    ghost use Rattle.am_gossip.specs.Parts.{part_value, part_tests};
    ghost use Rattle.am_gossip.specs.Drafts.{IsPartDraft};

    /// The part, or `None` if the key names no state.
    type Done = Option<Part>;

    ghost inside = { part_table.inside };

    ghost holds = { IsPartDraft };

    ghost tests = { part_tests };

    ghost value = { part_value };

    fn start(_alloc: Global) -> Self {
        PartDraft {
            key: LastText::none(),
            bytes: LastBytes::none(),
        }
    }

    fn take(&mut self, field: Field<'a>) -> Result<(), WireError> {
        match field.number {
            1 => self.key.take(field)?,
            2 => self.bytes.take(field),
            _ => {}
        }
        Ok(())
    }

    fn finish(self, alloc: Global, _place: usize) -> Result<Option<Part>, WireError> {
        let Some(key) = StateKey::from_text(self.key.text) else {
            return Ok(None);
        };
        let bytes = Bytes::copied(alloc, self.bytes.bytes)?;
        Ok(Some(Part { key, bytes }))
    }
}

/// The schema of a full state.
pub struct PartFields;

impl Schema for PartFields {
    ghost fitting = { parts_fit };

    fn fits(number: u32, wire_type: WireType) -> bool {
        number != 1 || wire_type == WireType::Bytes
    }
}

/// Reads a part from bytes that begin at the offset `at` of a payload.
#[tactic(auto, unfolding(crate::specs::Parts::reads_part))]
fn read_part(alloc: Global, bytes: &[u8], at: usize) -> Result<Part, FrameError>
    requires { at + length bytes.now < 2 ^ 64 }
    ensures { GivesUnlessMemory result (reads_part at bytes.now) }
{
    match read_message::<PartDraft>(alloc, bytes, at, at) {
        Ok(Some(part)) => Ok(part),
        Ok(None) => Err(FrameError::UnknownState),
        Err(e) => Err(e.into()),
    }
}

/// Reads the part in a field, if there is one, and appends it to the others.
#[tactic(auto, unfolding(crate::specs::Parts::parts_in))]
fn take_part(alloc: Global, parts: &mut Vec<Part>, field: Field<'_>) -> Result<(), FrameError>
    ensures held { OnOk result ((read : List Part) × (parts_in (field_of field.entry) ≡ Ok read)
        × (parts.new.items ≡ parts.old.items ++ read)) }
    ensures fault { IfErr result (λ e. e ≢ Memory → parts_in (field_of field.entry) ≡ Err e) }
{
    if let (1, Value::Bytes(bytes)) = (field.number, field.value) {
        let part = read_part(alloc, bytes, field.inside)?;
        parts.push(part)?;
    }
    Ok(())
}

/// Reads a full state from a whole payload.
fn read_full_state(alloc: Global, bytes: &[u8]) -> Result<FullState, FrameError>
    ensures { GivesUnlessMemory result (reads_parts bytes.now) }
{
    let mut parts = Vec::new(alloc);
    for field in Scan::<PartFields>::new(bytes) {
        take_part(alloc, &mut parts, field?)?;
    }
    Ok(FullState::new(parts))
}

/// Reads the frame of a kind from its whole payload.
#[tactic(auto, unfolding(crate::specs::Frames::reads_payload))]
pub fn read_payload(alloc: Global, kind: FrameKind, bytes: &[u8]) -> Result<Frame, FrameError>
    ensures { GivesUnlessMemory result (reads_payload kind bytes.now) }
{
    match kind {
        FrameKind::Delta => Ok(Frame::Delta(read_part(alloc, bytes, 0)?)),
        FrameKind::Push => Ok(Frame::Push(read_full_state(alloc, bytes)?)),
        FrameKind::Pull => Ok(Frame::Pull(read_full_state(alloc, bytes)?)),
        FrameKind::Tick => Ok(Frame::Tick),
    }
}
