//! Versions that were updated after a moment.

ghost use Rattle.std.specs.Prelude.{◌≡◌};
ghost use Rattle.am_report.specs.Later.{has_later, has_later_source};

use crate::held_source::HeldSource;
use am_merge::Held;
use am_version_order::{Moment, Version};

/// Returns whether a version was updated after the moment. It takes no memory.
pub fn has_later<V: Version>(held: &Held<V>, now: Moment) -> bool
    ensures { result ≡ has_later V.seen now held.now }
{
    let mut found = false;
    for version in held.iter() {
        found |= now < version.updated();
    }
    found
}

/// Returns whether a version of a source was updated after the moment. It takes no memory.
pub fn has_later_source<V: Version>(replicas: &[HeldSource<'_, V>], now: Moment) -> bool
    ensures { result ≡ has_later_source V.seen now replicas.now }
{
    let mut found = false;
    for replica in replicas {
        found |= has_later(replica.held(), now);
    }
    found
}
