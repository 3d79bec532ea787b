//! The versions that a replica lacks.

ghost use Rattle.std.specs.Prelude.{◌≡◌, map, IfOk};
ghost use Rattle.am_merge.specs.Maps.{replaces};
ghost use Rattle.am_alertmanager.specs.Mending.{lacked, version_of};

use am_merge::Held;
use am_version_order::Version;
use std::alloc::{AllocError, Global};

/// Returns whether a version is greater than what a map has at its key, or the first there. It takes no memory.
#[tactic(auto, unfolding(am_version_order::specs::Versions::is_below))]
pub fn is_lacked<V: Version>(held: &Held<V>, version: &V) -> bool
    ensures { result ≡ replaces V.seen V.Key.cmp held.now version.now }
{
    match held.get(version.key()) {
        None => true,
        Some(old) => old.compare(version).is_lt(),
    }
}

/// Returns the versions of a map that another one lacks: those greater than what it has at their key, or the first there. They
/// are in the order of their keys, with no key twice.
///
/// # Errors
///
/// [`AllocError`] if memory runs out.
pub fn lacked<'a, V: Version>(
    alloc: Global,
    held: &Held<V>,
    all: &'a Held<V>,
) -> Result<Vec<&'a V>, AllocError>
    // PROMISE: A replica lacks exactly the versions that are greater than its own, or missing there.
    ensures { IfOk result (λ found. map version_of found.items ≡ lacked V.seen V.Key.cmp held.now all.now) }
{
    let mut found = Vec::new(alloc);
    for version in all.iter() {
        if is_lacked(held, version) {
            found.push(version)?;
        }
    }
    Ok(found)
}
