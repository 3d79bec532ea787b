//! Held maps.

use crate::samples::{at, held, holds, text, version};
use am_merge::{FromVersionsError, Held, InBucket, Iter, MergeError, Taken};
use am_silence::MeshSilence;
use am_version_order::{Moment, Version};
use std::alloc::{AllocError, Global};

/// Calls everything public of am_merge.
pub fn calls(alloc: Global) -> Option<()> {
    takes(alloc)?;
    takes_two(alloc)?;
    merges(alloc)?;
    reads(alloc, &held(alloc)?)?;
    buckets(&held(alloc)?, version(alloc)?.bucket())?;
    sweeps(alloc)?;
    of_versions(alloc)
}

fn takes(alloc: Global) -> Option<()> {
    let version = version(alloc)?;
    let mut held: Held<MeshSilence> = Held::new(alloc);
    let taken: Result<Taken, AllocError> = held.take(version, at(10));
    holds(has_changed(taken.ok()?))
}

fn has_changed(taken: Taken) -> bool {
    match taken {
        Taken::Changed => true,
        Taken::Kept | Taken::Expired => false,
    }
}

fn takes_two(alloc: Global) -> Option<()> {
    let (first, second) = (version(alloc)?, version(alloc)?);
    let mut held: Held<MeshSilence> = Held::new(alloc);
    let taken: Result<(Taken, Taken), AllocError> = held.take_pair(first, second, at(10));
    holds(taken.ok()? == (Taken::Changed, Taken::Kept))
}

fn merges(alloc: Global) -> Option<()> {
    let other = held(alloc)?;
    let mut held: Held<MeshSilence> = Held::new(alloc);
    let changed: Result<usize, MergeError> = held.merge(&other, at(10));
    holds(count_in(changed) == 1)
}

/// Returns the number of versions that were taken, or of keys whose version changed.
fn count_in(merged: Result<usize, MergeError>) -> usize {
    match merged {
        Ok(changed) => changed,
        Err(MergeError { taken }) => taken,
    }
}

fn reads(alloc: Global, held: &Held<MeshSilence>) -> Option<()> {
    let key = text(alloc, "a")?;
    let version: Option<&MeshSilence> = held.get(&key);
    let len: usize = held.len();
    let mut iter: Iter<'_, MeshSilence> = held.iter();
    let expiry: Option<Moment> = held.next_expiry();
    holds(version.is_some() && len == 1 && iter.next().is_some() && expiry == Some(at(200)))
}

fn buckets(held: &Held<MeshSilence>, bucket: &[u8]) -> Option<()> {
    let mut versions: InBucket<'_, MeshSilence> = held.in_bucket(bucket);
    holds(versions.next().is_some())
}

fn sweeps(alloc: Global) -> Option<()> {
    let held = held(alloc)?;
    let copy: Result<Held<MeshSilence>, AllocError> = held.try_clone();
    let mut copy = copy.ok()?;
    let went: usize = copy.sweep(at(200));
    holds(went == 1)
}

fn of_versions(alloc: Global) -> Option<()> {
    let mut versions = Vec::new(alloc);
    versions.push(version(alloc)?).ok()?;
    let held: Result<Held<MeshSilence>, FromVersionsError> = Held::from_versions(alloc, versions);
    match held {
        Ok(held) => holds(held.len() == 1),
        Err(FromVersionsError::DuplicateKey | FromVersionsError::Memory) => None,
    }
}
