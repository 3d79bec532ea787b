//! Connections over sockets, of this process with itself.

use crate::members::{PEER, at, instance};
use am_connection::{Ended, turn};
use am_instance::Instance;
use std::io::{self, Read, Write};
use std::net::{TcpListener, TcpStream};

/// A request for all silences.
const LIST: &[u8] = b"GET /api/v2/silences HTTP/1.1\r\n\r\n";

// Returns the outcome of a peer that writes, and closes its connection.
fn of_peer(rt: &HostRuntime, listener: &TcpListener, instance: &mut Instance) -> io::Result<Ended> {
    let mut peer = TcpStream::connect(rt, listener.local_addr()?)?;
    peer.write_all(PEER)?;
    drop(peer);
    turn(rt.alloc(), listener, instance, 0, at(11))
}

// Returns what a client reads whose connection is closed after the reply.
fn of_client(
    rt: &HostRuntime,
    listener: &TcpListener,
    instance: &mut Instance,
) -> io::Result<Vec<u8>> {
    let mut client = TcpStream::connect(rt, listener.local_addr()?)?;
    client.write_all(LIST)?;
    turn(rt.alloc(), listener, instance, 0, at(11))?;
    let mut reply = Vec::new(rt.alloc());
    client.read_to_end(&mut reply)?;
    Ok(reply)
}

/// Returns whether the Delta of a peer goes on to `c`, and the silence that it brought is then listed.
pub fn list_a_silence(rt: &HostRuntime) -> Option<bool> {
    let mut instance = instance(rt.alloc())?;
    let listener = TcpListener::bind(rt, "127.0.0.1:0").ok()?;
    let ended = of_peer(rt, &listener, &mut instance).ok()?;
    let reply = of_client(rt, &listener, &mut instance).ok()?;
    let text = str::from_utf8(reply.as_slice()).ok()?;
    Some(ended.frames.len() == 1 && text.contains("\"id\":\"a\""))
}
