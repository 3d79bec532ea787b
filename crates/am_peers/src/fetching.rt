//! Requests to a server of API v2, and their replies.

use crate::asking::{read_reply, request_text};
use crate::error::ServerFault;
use crate::timed::{Timed, end_after, left_until};
use am_wire::send;
use std::alloc::Global;
use std::io;
use std::net::{Ipv4Addr, Ipv6Addr, Net, SocketAddr, TcpStream};
use std::rt::Clock;
use std::time::{Duration, Instant};

/// A server: its host and port as they are written, the path below which its API stands, and the address at which it listens.
#[derive(Clone, Copy)]
pub struct HttpServer<'a> {
    pub host: &'a str,
    /// The path, which is empty or begins with a slash and doesn't end with one.
    pub path: &'a str,
    pub address: SocketAddr,
    /// The address that is tried if nothing listens at the first one.
    pub other: Option<SocketAddr>,
}

/// The name of the host that is this machine.
const LOCALHOST: &str = "localhost";

/// Returns whether a byte may stand in the path of a URL (RFC 3986, section 3.3, and what browsers also let pass).
fn is_of_path(byte: &u8) -> bool {
    matches!(*byte, b'!'..=b'~') && !matches!(*byte, b'?' | b'#')
}

/// Cuts a place into the host with its port, and the path below which the API stands, without a slash at its end.
fn cut_at_path(place: &str) -> (&str, &str) {
    let count = place
        .as_bytes()
        .iter()
        .take_while(|byte| **byte != b'/')
        .count();
    match (place.get(..count), place.get(count..)) {
        (Some(host), Some(path)) => (host, path.strip_suffix("/").unwrap_or(path)),
        _ => (place, ""),
    }
}

/// Reads a server from its address and port: an address of IPv4, one of IPv6 in brackets, or `localhost`, which is 127.0.0.1, or
/// else `[::1]`. A path may follow.
pub fn server_of(place: &str) -> Option<HttpServer<'_>> {
    let (host, path) = cut_at_path(place);
    if !path.as_bytes().iter().all(|byte| is_of_path(byte)) {
        return None;
    }
    if let Some((name, digits)) = host.rsplit_once(':') {
        if name == LOCALHOST {
            let port = crate::number::port_of(digits)?;
            return Some(HttpServer {
                host,
                path,
                address: SocketAddr::from((Ipv4Addr::LOCALHOST, port)),
                other: Some(SocketAddr::from((Ipv6Addr::LOCALHOST, port))),
            });
        }
    }
    match host.parse::<SocketAddr>() {
        Ok(address) => Some(HttpServer {
            host,
            path,
            address,
            other: None,
        }),
        Err(_) => None,
    }
}

/// Asks a server for all its silences, and reads its reply until it closes the connection, all within the limit.
///
/// # Errors
///
/// A [`ServerFault`] if the connection can't be made, or not everything was written or read.
pub fn fetch<R: Net<Stream = TcpStream> + Clock>(
    alloc: Global,
    rt: &R,
    server: &HttpServer<'_>,
    limit: Duration,
) -> Result<Vec<u8>, ServerFault> {
    let Ok(request) = request_text(alloc, server.host, server.path) else {
        return Err(ServerFault::Memory);
    };
    ask(alloc, rt, server, &request, limit)
}

/// Sends a request to a server, and reads its reply until it closes the connection, all within the limit.
///
/// # Errors
///
/// A [`ServerFault`] if the connection can't be made, or not everything was written or read.
pub fn ask<R: Net<Stream = TcpStream> + Clock>(
    alloc: Global,
    rt: &R,
    server: &HttpServer<'_>,
    request: &[u8],
    limit: Duration,
) -> Result<Vec<u8>, ServerFault> {
    let end = end_after(rt, limit)?;
    let stream = connect(rt, server, end)?;
    let mut writer = Timed::new(rt, &stream, end, limit);
    if let Err(fault) = send(&mut writer, request) {
        return Err(ServerFault::Write {
            written: fault.written,
        });
    }
    let reader = Timed::new(rt, &stream, end, limit);
    read_reply(alloc, reader)
}

/// Connects to a server.
fn connect<R: Net<Stream = TcpStream> + Clock>(
    rt: &R,
    server: &HttpServer<'_>,
    end: Instant,
) -> io::Result<TcpStream> {
    let first = TcpStream::connect_timeout(rt, &server.address, left_until(rt, end)?);
    match (first, server.other) {
        (Err(_), Some(other)) => TcpStream::connect_timeout(rt, &other, left_until(rt, end)?),
        (first, _) => first,
    }
}
