//! Connections of 134,217,728 bytes, the maximum, and of more.

use crate::members::{PEER, at, instance};
use am_http::session::Session;
use am_instance::Instance;
use am_member::{Deferred, apply_session_output, defer_requests};
use am_peers::ConnectionFault;
use std::alloc::{AllocError, Global};
use std::io::{self, Read};

/// The front of a Delta of 4,096 bytes: a part of the silences without a version, and an unknown field of 4,085 bytes.
const FRONT: &[u8] = &[
    0x01, 0xFD, 0x1F, 0x0A, 0x03, 0x73, 0x69, 0x6C, 0x7A, 0xF5, 0x1F,
];

/// A reader that gives some bytes, and then others over and over, without keeping more than one copy of them.
#[derive(Clone, Copy)]
struct Repeating<'a> {
    rest: &'a [u8],
    others: &'a [u8],
    /// The number of bytes after which the reader ends.
    left: usize,
}

impl Read for Repeating<'_> {
    fn read(&mut self, buf: &mut [u8]) -> io::Result<usize> {
        if self.rest.is_empty() {
            self.rest = self.others;
        }
        let n = self.left.min(self.rest.len()).min(buf.len());
        buf[..n].copy_from_slice(&self.rest[..n]);
        self.rest = &self.rest[n..];
        self.left -= n;
        Ok(n)
    }
}

/// The number of silences that are held, the number of frames to be sent, and the reason that the connection ended.
type ConnectionOutput = (usize, usize, Option<ConnectionFault>);

// Returns that Delta.
fn delta(alloc: Global) -> Result<Vec<u8>, AllocError> {
    let mut delta = FRONT.to_vec(alloc)?;
    delta.extend_from_slice(&[0; 4_085])?;
    Ok(delta)
}

// Returns the outcome of a connection of this many bytes, until it hears no more: a peer's Delta of a silence, followed by a
// frame over and over.
fn connected(
    alloc: Global,
    instance: &mut Instance,
    frame: &[u8],
    bytes: usize,
) -> Option<ConnectionOutput> {
    let mut session = Session::new(alloc);
    let mut reader = Repeating {
        rest: PEER,
        others: frame,
        left: bytes,
    };
    let mut buffer = [0u8; 4_096];
    let (mut sent, mut fault) = (0usize, None);
    for _ in 0..u64::MAX {
        if session.is_over() {
            break;
        }
        let count = reader.read(&mut buffer).ok()?;
        let piece = &buffer[..count];
        let said = if piece.is_empty() {
            session.end()
        } else {
            session.feed(piece)
        };
        let Deferred { said, .. } = defer_requests(said);
        let exchanged = apply_session_output(alloc, instance, &mut session, said, 0, at(11));
        sent = sent.max(exchanged.effects.outbox.frames.len());
        fault = exchanged.fault;
    }
    Some((instance.silences().len(), sent, fault))
}

// Returns the outcome with a new member, or `None` if memory runs out.
fn told(alloc: Global, bytes: usize) -> Option<ConnectionOutput> {
    let delta = delta(alloc).ok()?;
    let mut instance = instance(alloc)?;
    connected(alloc, &mut instance, delta.as_slice(), bytes)
}

/// Returns whether byte 134,217,729 is a fault, and none before it. The steps before it stand, and their frames are to be sent.
pub fn end_connections(alloc: Global) -> Option<bool> {
    for (bytes, fault) in [
        (134_217_728, None),
        (134_217_729, Some(ConnectionFault::TooLarge)),
        (134_217_731, Some(ConnectionFault::TooLarge)),
    ] {
        if told(alloc, bytes)? != (1, 1, fault) {
            return Some(false);
        }
    }
    Some(true)
}
