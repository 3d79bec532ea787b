//! The listeners of a loop.

use std::net::TcpListener;

/// The listener at which a connection came in.
#[derive(Clone, Copy)]
pub enum Entrance {
    Main,
    /// The listener for peers alone.
    Peers,
}

impl Entrance {
    /// Returns the other entrance.
    pub fn other(self) -> Entrance {
        match self {
            Entrance::Main => Entrance::Peers,
            Entrance::Peers => Entrance::Main,
        }
    }
}

/// The listeners of a loop.
#[derive(Drop)]
pub struct Entrances {
    pub main: TcpListener,
    /// The listener for peers alone, if there is one.
    pub peers: Option<TcpListener>,
}
