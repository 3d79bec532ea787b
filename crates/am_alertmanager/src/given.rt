//! The versions that a running replica is given.

ghost use Rattle.std.specs.Prelude.{◌≡◌};
ghost use Rattle.std.specs.Option.{option_copied};
ghost use Rattle.am_alertmanager.specs.Mending.{is_given, takes};

use am_merge::Held;
use am_version_order::{Moment, Version};

/// Returns whether an Alertmanager that holds `held` at a version's key takes the version: it is live, and was updated later.
pub fn takes<V: Version>(held: Option<&V>, version: &V, now: Moment) -> bool
    ensures { result ≡ takes V.seen now (option_copied held.entry) version.now }
{
    if now >= version.expires() {
        return false;
    }
    match held {
        Some(held) => held.updated() < version.updated(),
        None => true,
    }
}

/// Returns whether a replica that holds these versions is given a version: the replica takes it, and the version isn't later than
/// the moment, since such a version would block every change until then. It takes no memory.
pub fn is_given<V: Version>(held: &Held<V>, version: &V, now: Moment) -> bool
    // PROMISE: A replica is given just what it takes, and nothing of the future.
    ensures { result ≡ is_given V.seen V.Key.cmp now held.now version.now }
{
    version.updated() <= now && takes(held.get(version.key()), version, now)
}
