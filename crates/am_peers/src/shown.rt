//! The part of sources that API v2 shows, as maps that can be compared.

ghost use Rattle.std.specs.Prelude.{◌≡◌, map, IfOk, IfSome};
ghost use Rattle.std.specs.Ordering.{nat_cmp};
ghost use Rattle.std.specs.Cmp.Lexicographic.{slice_cmp};
ghost use Rattle.am_merge.specs.Maps.{IsMap};
ghost use Rattle.am_silence.specs.Mesh.{mesh_version};
ghost use Rattle.am_silence_json.specs.Shown.{cut_to_shown};
ghost use Rattle.am_merge.specs.Views.{HoldsBest};
ghost use Rattle.am_peers.specs.Shown.{IsShownOfRow};

use am_merge::Held;
use am_silence::MeshSilence;
use am_silence_json::cut_to_shown;
use am_snapshot::{SnapshotError, take_row};
use am_version_order::{Moment, Version};
use am_wire::{Unknown, WireError};
use std::alloc::{AllocError, Global};
use std::io::Read;

/// Returns the map of a list's versions: the greatest one of each identifier.
///
/// # Errors
///
/// [`AllocError`] if memory runs out.
pub fn held_of<V: Version>(alloc: Global, list: Vec<V>) -> Result<Held<V>, AllocError>
    ensures order { IfOk result (IsMap V.seen V.Key.cmp) }
    ensures best { IfOk result (HoldsBest V.seen list.items) }
{
    let mut held = Held::new(alloc);
    for version in list {
        held.take(version, Moment::LEAST)?;
    }
    Ok(held)
}

/// Cuts each version of a map to what API v2 shows of it.
fn cut_all(alloc: Global, held: &Held<MeshSilence>) -> Result<Vec<MeshSilence>, SnapshotError>
    ensures { IfOk result (λ cut. cut.items ≡ map cut_to_shown held.now) }
{
    let mut list = Vec::new(alloc);
    for version in held.iter() {
        let shown = match cut_to_shown(alloc, version) {
            Ok(shown) => shown,
            Err(WireError::Memory) => return Err(SnapshotError::Memory),
            Err(error) => return Err(SnapshotError::Wire(error)),
        };
        if list.push(shown).is_err() {
            return Err(SnapshotError::Memory);
        }
    }
    Ok(list)
}

/// Returns what API v2 shows of each version that counts in a row, which are the versions of a fold.
///
/// # Errors
///
/// The first fault of the row, [`SnapshotError::Wire`] also if a version is too large once it is cut, and
/// [`SnapshotError::Memory`].
pub fn shown_of_row<R: Read>(
    alloc: Global,
    reader: &mut R,
) -> Result<Held<MeshSilence>, SnapshotError>
    ensures order { IfOk result (IsMap mesh_version (slice_cmp nat_cmp)) }
    ensures shown { IfOk result (λ held. IfSome (R.remaining reader.old) (λ input. IsShownOfRow input held)) }
{
    let held = take_row::<MeshSilence, _>(alloc, Unknown::Drop, reader)?;
    let list = cut_all(alloc, &held)?;
    Ok(held_of(alloc, list)?)
}
