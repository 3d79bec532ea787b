//! Reading the versions of a frame.

ghost use Rattle.std.specs.Prelude.{◌≡◌, ◌++◌, map, is_none, All, OnOk, IfOk};
ghost use Rattle.am_wire.specs.Inputs.{messages_of};
ghost use Rattle.am_instance.specs.Deliveries.{before_fault, first_fault, rows_in, rows_of};
ghost use Rattle.am_cluster.specs.Contents.{carries, delivery_of, IsValue};

use crate::carried::version::{AnyVersion, FrameVersion};
use am_gossip::{Frame, Part, StateKey};
use am_nflog::MeshEntry;
use am_silence::MeshSilence;
use am_wire::{Messages, Unknown, WireError};
use std::alloc::{AllocError, Global};

/// Returns the versions in the rows of a frame, in their order, up to the first fault. Unknown fields are treated as `unknown`
/// says.
///
/// # Errors
///
/// [`AllocError`] if memory runs out.
pub fn versions_in_frame(
    alloc: Global,
    unknown: Unknown,
    frame: &Frame,
) -> Result<Vec<AnyVersion>, AllocError>
    // PROMISE: A frame carries the versions of its rows, up to its first fault.
    ensures versions { IfOk result (λ versions. map delivery_of versions.items ≡ carries unknown frame.now) }
    ensures values { IfOk result (λ versions. All IsValue (map delivery_of versions.items)) }
{
    let mut versions = Vec::new(alloc);
    append_frame(alloc, unknown, frame, &mut versions)?;
    Ok(versions)
}

/// Adds the versions of a frame.
fn append_frame(
    alloc: Global,
    unknown: Unknown,
    frame: &Frame,
    versions: &mut Vec<AnyVersion>,
) -> Result<(), AllocError>
    ensures added { OnOk result (map delivery_of versions.new.items ≡ map delivery_of versions.old.items ++ carries unknown frame.now) }
    ensures values { OnOk result (All IsValue (map delivery_of versions.old.items) → All IsValue (map delivery_of versions.new.items)) }
{
    match frame {
        Frame::Delta(part) => {
            append_part(alloc, unknown, part, versions)?;
            Ok(())
        }
        Frame::Push(state) | Frame::Pull(state) => append_parts(
            alloc,
            unknown,
            state.parts(),
            versions,
        ),
        Frame::Tick => Ok(()),
    }
}

/// Adds the versions in the rows of parts, up to the first fault.
fn append_parts(
    alloc: Global,
    unknown: Unknown,
    parts: &[Part],
    versions: &mut Vec<AnyVersion>,
) -> Result<(), AllocError>
    ensures added { OnOk result (map delivery_of versions.new.items
        ≡ map delivery_of versions.old.items ++ before_fault (rows_in unknown parts.now)) }
    ensures values { OnOk result (All IsValue (map delivery_of versions.old.items) → All IsValue (map delivery_of versions.new.items)) }
{
    for part in parts {
        if !append_part(alloc, unknown, part, versions)? {
            return Ok(());
        }
    }
    Ok(())
}

/// Adds the versions in the row of a part up to the first fault, and answers whether there is none.
#[tactic(auto, unfolding(am_instance::specs::Deliveries::rows_of))]
fn append_part(
    alloc: Global,
    unknown: Unknown,
    part: &Part,
    versions: &mut Vec<AnyVersion>,
) -> Result<bool, AllocError>
    ensures added { OnOk result (map delivery_of versions.new.items
        ≡ map delivery_of versions.old.items ++ before_fault (rows_of unknown part.now)) }
    ensures sound { IfOk result (λ sound. sound ≡ is_none (first_fault (rows_of unknown part.now))) }
    ensures values { OnOk result (All IsValue (map delivery_of versions.old.items) → All IsValue (map delivery_of versions.new.items)) }
{
    let row = part.bytes.as_slice();
    match part.key {
        StateKey::Sil => append_row::<MeshSilence>(alloc, unknown, row, versions),
        StateKey::Nfl => append_row::<MeshEntry>(alloc, unknown, row, versions),
    }
}

/// Adds the versions of a row up to the first fault, and answers whether there is none.
fn append_row<V: FrameVersion>(
    alloc: Global,
    unknown: Unknown,
    row: &[u8],
    versions: &mut Vec<AnyVersion>,
) -> Result<bool, AllocError>
    ensures added { OnOk result (map delivery_of versions.new.items
        ≡ map delivery_of versions.old.items ++ map V.delivered (before_fault (messages_of (V.reads unknown) row.now))) }
    ensures sound { IfOk result (λ sound. sound ≡ is_none (first_fault (messages_of (V.reads unknown) row.now))) }
    ensures values { OnOk result (All IsValue (map delivery_of versions.old.items) → All IsValue (map delivery_of versions.new.items)) }
{
    for message in Messages::<V>::within(alloc, unknown, row, 0) {
        match message {
            Ok(version) => versions.push(version.carried())?,
            Err(WireError::Memory) => return Err(AllocError),
            Err(_) => return Ok(false),
        }
    }
    Ok(true)
}
