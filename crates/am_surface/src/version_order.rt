//! Moments, intervals and the trait of versions.

use crate::samples::{holds, logged, version};
use am_nflog::{LogKey, MeshEntry};
use am_silence::MeshSilence;
use am_version_order::{Interval, Moment, Version};
use am_wire::Text;
use std::alloc::{AllocError, Global};
use std::cmp::Ordering;

/// Calls everything public of am_version_order.
pub fn calls(alloc: Global) -> Option<()> {
    moments()?;
    silence_key(alloc, &version(alloc)?)?;
    entry_key(alloc, &logged(alloc)?)?;
    parts(&version(alloc)?)?;
    copies(alloc, &version(alloc)?)
}

fn moments() -> Option<()> {
    let interval: Option<Interval> = Interval::from_nanos(1);
    let moment: Option<Moment> = Moment::from_parts(10, 5);
    let (interval, moment) = (interval?, moment?);
    let parts: (i64, u32) = moment.parts();
    let sum: Option<Moment> = moment.checked_add(interval);
    let capped: Moment = Moment::GREATEST.capped_add(interval);
    holds(parts == (10, 5) && Moment::LEAST < sum? && capped == Moment::GREATEST)
}

fn silence_key(alloc: Global, version: &MeshSilence) -> Option<()> {
    let key: &Text = version.key();
    let copy: Result<Text, AllocError> = version.try_key(alloc);
    holds(copy.ok()? == *key)
}

fn entry_key(alloc: Global, version: &MeshEntry) -> Option<()> {
    let key: &LogKey = version.key();
    let copy: Result<LogKey, AllocError> = version.try_key(alloc);
    holds(copy.ok()? == *key)
}

fn parts<V: Version>(version: &V) -> Option<()> {
    let _key: &V::Key = version.key();
    let updated: Moment = version.updated();
    let expires: Moment = version.expires();
    let canonical: &[u8] = version.canonical();
    let bucket: &[u8] = version.bucket();
    holds(updated < expires && bucket.len() < canonical.len())
}

fn copies<V: Version>(alloc: Global, version: &V) -> Option<()> {
    let copy: Result<V, AllocError> = version.try_clone(alloc);
    let order: Ordering = version.compare(&copy.ok()?);
    holds(order == Ordering::Equal)
}
