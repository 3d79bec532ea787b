//! The reasons why a version that was sent isn't held.

ghost use Rattle.std.specs.Prelude.{◌≡◌};
ghost use Rattle.std.specs.Option.{option_copied};
ghost use Rattle.am_alertmanager.specs.Mending.{why_refused};

use am_version_order::{Moment, Version};

/// The reason why an Alertmanager doesn't hold a version that it was sent.
#[derive(Clone, Copy, PartialEq, Eq)]
pub enum Refused {
    /// The version's expiry is past, so it was dropped.
    Expired,
    /// The held version was updated at the same moment, and the first of the two stays.
    Tie,
    /// Neither applies: another version came meanwhile, or this one wasn't taken.
    Other,
}

/// Returns why a version that was sent isn't held. `held` is the one at its key.
pub fn why_refused<V: Version>(held: Option<&V>, version: &V, now: Moment) -> Refused
    ensures { result ≡ why_refused V.seen now (option_copied held.entry) version.now }
{
    if now >= version.expires() {
        return Refused::Expired;
    }
    match held {
        Some(held) if held.updated() == version.updated() => Refused::Tie,
        _ => Refused::Other,
    }
}
