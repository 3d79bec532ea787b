//! The addresses of peers.

ghost use Rattle.std.specs.Prelude.{◌≡◌, ℕ, None, slice_index_or, IfOk};

use std::alloc::{AllocError, Global};
use std::net::SocketAddr;

/// The addresses of peers, by place: one table may have fewer places than the other.
#[derive(Clone, Copy)]
pub struct Peers<'a> {
    /// The addresses to which links go, at the places that have one.
    pub links: &'a [Option<SocketAddr>],
    /// The bytes that go first over each link.
    pub greeting: &'a [u8],
    /// The number of bytes with which a peer answers over each link before more goes out than the first bytes.
    pub awaited: usize,
    /// The addresses of those who are asked.
    pub asked: &'a [Option<SocketAddr>],
}

/// Returns the address of the peer at a place, if there is one, and the place as a source has it.
pub fn address_of(addresses: &[Option<SocketAddr>], peer: usize) -> Option<(SocketAddr, u16)> {
    let address = (*addresses.get(peer)?)?;
    let place = u16::try_from(peer).ok()?;
    Some((address, place))
}

/// Returns `count` places with nothing at any of them.
pub fn vacant<T: Drop>(alloc: Global, count: usize) -> Result<Vec<Option<T>>, AllocError>
    ensures { IfOk result (λ places. (place : ℕ) → slice_index_or places.items place None ≡ None) }
{
    let mut places = Vec::with_capacity(alloc, count)?;
    for _ in 0..count {
        places.push(None)?;
    }
    Ok(places)
}
