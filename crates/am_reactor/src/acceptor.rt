//! The place where connections come in.

use crate::entrance::{Entrance, Entrances};
use crate::source::EventSource;
use mio::net::{TcpListener, TcpStream};
use mio::{Interest, Registry};
use std::io::{self, ErrorKind};
use std::net;
use std::time::{Duration, Instant};

/// The number of seconds for which none is accepted after the system had no descriptor or no memory for one.
const PAUSE: u64 = 1;

/// The numbers of the system's errors that say so: ENOMEM, ENFILE, EMFILE and ENOBUFS.
const SCARCE: [i32; 4] = [12, 23, 24, 105];

/// The listeners of a loop, and what is known of them.
#[derive(Drop)]
pub struct Acceptor {
    main: TcpListener,
    /// The listener for peers alone, if there is one.
    peers: Option<TcpListener>,
    /// The listener that is asked first next.
    next: Entrance,
    /// The number of connections that are still accepted.
    left: u64,
    /// True if connections may wait in a listener's queue.
    is_knocked: bool,
    /// The time until which none is accepted.
    pause: Option<Instant>,
}

/// The result of an accept.
#[derive(Drop)]
pub enum AcceptResult {
    Came(TcpStream, Entrance),
    /// No connection waits; an event tells of the next.
    Nobody,
    /// A connection wasn't accepted, for a reason that says nothing against the listener.
    Missed(ErrorKind),
    Failed(io::Error),
}

impl Acceptor {
    /// Returns an acceptor at listeners, for `left` connections.
    ///
    /// # Errors
    ///
    /// The system's error.
    pub fn new(registry: &Registry, entrances: Entrances, left: u64) -> io::Result<Acceptor> {
        let Entrances { main, peers } = entrances;
        let main = watched(registry, main)?;
        let peers = match peers {
            Some(peers) => Some(watched(registry, peers)?),
            None => None,
        };
        Ok(Acceptor {
            main,
            peers,
            next: Entrance::Main,
            left,
            is_knocked: true,
            pause: None,
        })
    }

    /// Stops the system from telling of those who come.
    pub fn leave(&mut self, registry: &Registry) {
        let _ = registry.deregister(&mut self.main);
        if let Some(peers) = &mut self.peers {
            let _ = registry.deregister(peers);
        }
    }

    /// Notes that connections may wait in a listener's queue.
    pub fn set_readable(&mut self) {
        self.is_knocked = true;
    }

    /// Stops accepting connections.
    pub fn close(&mut self) {
        self.left = 0;
    }

    /// Returns whether no connection is accepted any more.
    pub fn is_closed(&self) -> bool {
        self.left == 0
    }

    /// Returns when a connection may be accepted next, as far as is known.
    pub fn opens_at(&self, now: Instant) -> Option<Instant> {
        if self.left == 0 || !self.is_knocked {
            return None;
        }
        Some(self.pause.unwrap_or(now))
    }

    /// Accepts a connection if one waits.
    pub fn accept(&mut self, now: Instant) -> AcceptResult {
        self.pause = None;
        match self.accept_by_turns() {
            Ok((stream, entrance)) => {
                self.left = self.left.saturating_sub(1);
                AcceptResult::Came(stream, entrance)
            }
            Err(error) => self.refused(error, now),
        }
    }

    /// Accepts a connection if one waits; the listeners take turns at being asked first.
    fn accept_by_turns(&mut self) -> io::Result<(TcpStream, Entrance)> {
        let first = self.next;
        self.next = first.other();
        match self.accept_at(first) {
            Err(error) if error.kind() == ErrorKind::WouldBlock => self.accept_at(first.other()),
            answer => answer,
        }
    }

    /// Accepts a connection at a listener.
    fn accept_at(&self, entrance: Entrance) -> io::Result<(TcpStream, Entrance)> {
        let (stream, _) = match (entrance, &self.peers) {
            (Entrance::Main, _) => self.main.accept()?,
            (Entrance::Peers, Some(peers)) => peers.accept()?,
            (Entrance::Peers, None) => return Err(io::Error::from(ErrorKind::WouldBlock)),
        };
        Ok((stream, entrance))
    }

    /// Converts an error of an accept to an answer, and notes what follows from it.
    fn refused(&mut self, error: io::Error, now: Instant) -> AcceptResult {
        let kind = error.kind();
        if kind == ErrorKind::WouldBlock {
            self.is_knocked = false;
            return AcceptResult::Nobody;
        }
        if is_of_client(kind) {
            return AcceptResult::Missed(kind);
        }
        if is_scarce(&error) {
            self.pause = now.checked_add(Duration::from_secs(PAUSE));
            return AcceptResult::Missed(kind);
        }
        AcceptResult::Failed(error)
    }
}

/// Returns a listener of which the system tells who comes.
fn watched(registry: &Registry, listener: net::TcpListener) -> io::Result<TcpListener> {
    listener.set_nonblocking(true)?;
    let mut listener = TcpListener::from_std(listener);
    registry.register(
        &mut listener,
        EventSource::Listener.token(),
        Interest::READABLE,
    )?;
    Ok(listener)
}

/// Returns whether an error of an accept says nothing against the listener.
fn is_of_client(kind: ErrorKind) -> bool {
    matches!(
        kind,
        ErrorKind::ConnectionAborted
            | ErrorKind::ConnectionReset
            | ErrorKind::Interrupted
            | ErrorKind::NetworkDown
            | ErrorKind::NetworkUnreachable
            | ErrorKind::HostUnreachable
            | ErrorKind::TimedOut
    )
}

/// Returns whether an error says that the system has no descriptor or no memory for a connection now.
fn is_scarce(error: &io::Error) -> bool {
    match error.raw_os_error() {
        Some(number) => SCARCE.contains(&number),
        None => false,
    }
}
