//! Addresses of the command line.

ghost use Rattle.std.specs.Prelude.{◌≡◌, ◌<◌, ◌↔◌, IfNone, IfSome, IsTrue};
ghost use Rattle.std.specs.Net.Addr.{IsLoopbackV4, IsLoopbackV6, MatchIp};
ghost use Rattle.std.specs.Net.Socket.{socket_ip, socket_port};
ghost use Rattle.std.specs.declared.net.socket_addr.SocketAddr.{SocketAddr};
ghost use Rattle.am_peers.specs.Addresses.{IsAddressWord, IsHere, IsWritten};

use crate::number::port_of;
use std::fmt;
use std::net::{IpAddr, Ipv4Addr, SocketAddr};

/// The address of this machine that a word without an address means.
const HERE: IpAddr = IpAddr::V4(Ipv4Addr::LOCALHOST);

/// Returns the address of a port of 127.0.0.1.
fn here(port: u16) -> SocketAddr
    ensures { IsHere port result }
{
    SocketAddr::new(IpAddr::V4(Ipv4Addr::new(127, 0, 0, 1)), port)
}

/// Returns an address if its port isn't 0.
fn with_port(address: SocketAddr) -> Option<SocketAddr>
    ensures some { IfSome result (λ it. (it ≡ address) × (0 < socket_port address)) }
    ensures none { IfNone result (socket_port address ≡ 0) }
{
    if address.port() == 0 {
        None
    } else {
        Some(address)
    }
}

/// Reads an address that is written `ADDRESS:PORT`, with `[` and `]` around one of IPv6. Port 0 is refused.
fn written(word: &str) -> Option<SocketAddr>
    ensures some { IfSome result (IsWritten word.now) }
    ensures none { IfNone result ((address : SocketAddr) → ¬ IsWritten word.now address) }
{
    match word.parse::<SocketAddr>() {
        Ok(address) => with_port(address),
        Err(_) => None,
    }
}

/// Reads an address from a word of the command line: `ADDRESS:PORT`, or a port alone, which is one of 127.0.0.1.
pub fn address_of(word: &str) -> Option<SocketAddr>
    ensures some { IfSome result (IsAddressWord word.now) }
    ensures none { IfNone result ((address : SocketAddr) → ¬ IsAddressWord word.now address) }
{
    match port_of(word) {
        Some(port) => Some(here(port)),
        None => written(word),
    }
}

/// Returns whether an address can be reached only from the same machine (RFC 1122, section 3.2.1.3; RFC 4291, section 2.5.3).
pub fn is_loopback(address: SocketAddr) -> bool
    ensures { IsTrue result ↔ MatchIp (socket_ip address) IsLoopbackV4 IsLoopbackV6 }
{
    address.ip().is_loopback()
}

/// An address that is displayed as a word of the command line: on 127.0.0.1 the port alone.
#[derive(Clone, Copy)]
pub struct AddressWord(pub SocketAddr);

impl fmt::Display for AddressWord {
    fn fmt<W: fmt::Write>(&self, f: &mut fmt::Formatter<W>) -> fmt::Result {
        let address = self.0;
        if address.ip() == HERE {
            let port = address.port();
            write!(f, "{port}")
        } else {
            write!(f, "{address}")
        }
    }
}
