//! Connections, and the bytes that go out to a peer.

use crate::samples::{at, holds, instance};
use am_connection::{Ended, SendError, connection, send, turn};
use am_gossip::Frame;
use am_instance::{Instance, Place, Unsent};
use am_peers::ConnectionFault;
use am_version_order::Moment;
use std::alloc::Global;
use std::io;
use std::net::TcpListener;

/// Calls everything public of am_connection except [`turn`], which waits for a peer.
pub fn calls(alloc: Global) -> Option<()> {
    sends(alloc)?;
    connects(alloc)?;
    holds(number_of(SendError::Length) == 3)
}

fn sends(alloc: Global) -> Option<()> {
    let mut out: Vec<u8> = Vec::new(alloc);
    let sent: Result<u64, SendError> = send(alloc, "a", &[Frame::Tick], &mut out);
    holds(sent.ok()? == 5 && out.as_slice() == b"\x00\x01a\x04\x00".as_slice())
}

fn connects(alloc: Global) -> Option<()> {
    let mut input: &[u8] = b"\x00\x01b\x04\x00";
    let mut output: Vec<u8> = Vec::new(alloc);
    let mut instance = instance(alloc)?;
    let ended: Ended = connection(alloc, &mut instance, &mut input, &mut output, 0u128, at(11));
    let Ended {
        frames,
        unsent,
        ticked,
        fault,
    } = ended;
    let frames: Vec<(Place, Frame)> = frames;
    let unsent: Unsent = unsent;
    let ticked: bool = ticked;
    let fault: Option<ConnectionFault> = fault;
    holds(frames.is_empty() && unsent.memory == 0 && ticked && fault.is_none())
}

/// Takes one connection of a listener.
pub fn takes(
    alloc: Global,
    listener: &TcpListener,
    instance: &mut Instance,
    now: Moment,
) -> io::Result<Ended> {
    let ended: io::Result<Ended> = turn(alloc, listener, instance, 0u128, now);
    ended
}

fn number_of(error: SendError) -> usize {
    match error {
        SendError::Write { written: _ } => 1,
        SendError::Memory => 2,
        SendError::Length => 3,
    }
}
