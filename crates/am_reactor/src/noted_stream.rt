//! The stream over which a loop runs: a socket, and the bytes that its calls read and wrote so far. Only clauses read these bytes,
//! so that they hold of what passes over the socket.
//!
//! The following is argued and not proved, since no proof can show it: `read` and `write` make the calls that they note, and no
//! other code reads from the socket or writes to it.

ghost use Rattle.std.specs.Prelude.{◌≡◌};
ghost use Rattle.am_reactor.specs.Streams.{IsSilent, arrived_over, gone_over};

use crate::noted::Noted;
use crate::stream::Stream;
use mio::net::TcpStream;
use mio::{Interest, Registry, Token, event};
use std::io::{self, ErrorKind, Read, Write};
use std::net::Shutdown;

/// A socket, and the bytes that passed over it.
#[derive(Drop)]
pub struct NotedStream {
    socket: TcpStream,
    /// The bytes that reads brought.
    came: Noted,
    /// True if a read has met the end behind them.
    ended: bool,
    /// The bytes that writes took.
    went: Noted,
}

impl NotedStream {
    /// Returns a stream over a socket from which nothing was read and to which nothing was written.
    pub(crate) fn new(socket: TcpStream) -> NotedStream
        ensures { IsSilent (arrived_over result) (gone_over result) }
    {
        NotedStream {
            socket,
            came: Noted::new(),
            ended: false,
            went: Noted::new(),
        }
    }
}

impl Stream for NotedStream {
    ghost arrived = { arrived_over };

    ghost gone = { gone_over };

    fn stands(&self) -> Result<bool, ErrorKind> {
        match self.socket.take_error() {
            Ok(None) => Ok(self.socket.peer_addr().is_ok()),
            Ok(Some(error)) | Err(error) => Err(error.kind()),
        }
    }

    fn read(&mut self, piece: &mut [u8]) -> io::Result<usize> {
        let count = self.socket.read(piece)?;
        self.came.note(&piece[..count]);
        if count == 0 && !piece.is_empty() {
            self.ended = true;
        }
        Ok(count)
    }

    fn write(&mut self, bytes: &[u8]) -> io::Result<usize> {
        let count = self.socket.write(bytes)?;
        self.went.note(&bytes[..count]);
        Ok(count)
    }

    fn has_left(&self) -> bool {
        let mut next = [0];
        match self.socket.peek(&mut next) {
            Ok(count) => count == 0,
            Err(error) => !matches!(error.kind(), ErrorKind::WouldBlock | ErrorKind::Interrupted),
        }
    }

    fn finish(&mut self) -> bool {
        self.socket.shutdown(Shutdown::Write).is_ok()
    }
}

impl event::Source for NotedStream {
    ghost keeps = { λ old new. (arrived_over new ≡ arrived_over old) × (gone_over new ≡ gone_over old) };

    fn register(
        &mut self,
        registry: &Registry,
        token: Token,
        interests: Interest,
    ) -> io::Result<()> {
        self.socket.register(registry, token, interests)
    }

    fn reregister(
        &mut self,
        registry: &Registry,
        token: Token,
        interests: Interest,
    ) -> io::Result<()> {
        self.socket.reregister(registry, token, interests)
    }

    fn deregister(&mut self, registry: &Registry) -> io::Result<()> {
        self.socket.deregister(registry)
    }
}
