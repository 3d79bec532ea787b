//! Snapshots and folds.

use crate::samples::{ROW, at, held, holds};
use am_merge::Held;
use am_silence::MeshSilence;
use am_snapshot::{FoldError, SnapshotError, fold, load, save};
use am_wire::WireError;
use std::alloc::Global;

/// Calls everything public of am_snapshot.
pub fn calls(alloc: Global) -> Option<()> {
    saves(alloc)?;
    loads(alloc)?;
    folds(alloc)?;
    holds(place_in(SnapshotError::Wire(WireError::TooLarge)) == 0)?;
    holds(place_in_fold(FoldError::Write { written: 7 }) == 7)
}

fn saves(alloc: Global) -> Option<()> {
    let held = held(alloc)?;
    let mut row: Vec<u8> = Vec::new(alloc);
    let saved: Result<u64, SnapshotError> = save(alloc, &held, &mut row);
    holds(saved.ok()? == 33 && row.as_slice() == ROW.as_slice())
}

fn loads(alloc: Global) -> Option<()> {
    let mut input: &[u8] = &ROW;
    let held: Result<Held<MeshSilence>, SnapshotError> = load(alloc, &mut input);
    holds(held.ok()?.len() == 1)
}

fn folds(alloc: Global) -> Option<()> {
    let mut input: &[u8] = &ROW;
    let mut row: Vec<u8> = Vec::new(alloc);
    let folded: Result<u64, FoldError> = fold::<MeshSilence, &[u8], Vec<u8>>(
        alloc,
        &mut input,
        &mut row,
        at(0),
    );
    holds(folded.ok()? == 33 && row.as_slice() == ROW.as_slice())
}

/// Returns the number that a fault has, or 0 if it has none.
fn place_in(fault: SnapshotError) -> u64 {
    match fault {
        SnapshotError::Read { at } => at as u64,
        SnapshotError::Write { written } => written,
        SnapshotError::Wire(_)
        | SnapshotError::DuplicateKey
        | SnapshotError::TooLarge
        | SnapshotError::Memory => 0,
    }
}

/// Returns the number that a fault of a fold has, or 0 if it has none.
fn place_in_fold(fault: FoldError) -> u64 {
    match fault {
        FoldError::Read { at } => at as u64,
        FoldError::Write { written } => written,
        FoldError::Wire(_) | FoldError::TooLarge | FoldError::Memory => 0,
    }
}
