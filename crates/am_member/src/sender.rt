//! The peer that a connection's greeting names.

ghost use Rattle.std.specs.Prelude.{◌≡◌, ℕ, None, IfSome};
ghost use Rattle.am_member.specs.Incoming.{IsOnlyPeerOf, IsPeerOf};

use am_instance::{Config, Place};

/// Returns the place of the peer of this name.
pub fn peer_named(config: &Config, name: &str) -> Option<Place>
    ensures found { IfSome result (IsOnlyPeerOf config.now name.now) }
    ensures none { result ≡ None → (place : ℕ) → ¬ IsPeerOf config.now name.now place }
{
    let place = config.place_named(name)?;
    if !config.is_peer(place) {
        return None;
    }
    Some(place)
}
