//! Peers of the command line.

ghost use Rattle.std.specs.Prelude.{List, ℕ, IfNone, IfSome};
ghost use Rattle.std.specs.declared.net.socket_addr.SocketAddr.{SocketAddr};
ghost use Rattle.am_peers.specs.Addresses.{IsPeerWord};

use crate::address::address_of;
use std::net::SocketAddr;

/// A peer: its name, and the address at which it listens.
#[derive(Clone, Copy)]
pub struct Peer<'a> {
    pub name: &'a str,
    pub address: SocketAddr,
}

/// Reads a peer that is written `NAME=ADDRESS:PORT` or `NAME=PORT`, cut at the last `=`.
pub fn peer_of(word: &str) -> Option<Peer<'_>>
    ensures some { IfSome result (λ peer. IsPeerWord word.now peer.name.now peer.address) }
    ensures none { IfNone result ((name : List ℕ) (address : SocketAddr) → ¬ IsPeerWord word.now name address) }
{
    let (name, text) = word.rsplit_once('=')?;
    match address_of(text) {
        Some(address) => Some(Peer { name, address }),
        None => None,
    }
}
