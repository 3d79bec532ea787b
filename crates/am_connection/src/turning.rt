//! A connection over a socket.

ghost use Rattle.std.specs.Prelude.{◌≡◌, None, IfOk, OnErr};
ghost use Rattle.am_connection.specs.Connections.{IsConnection};

use crate::conversing::connection;
use crate::ended::Ended;
use am_instance::Instance;
use am_version_order::Moment;
use std::alloc::Global;
use std::io;
use std::net::TcpListener;

/// Accepts one connection, and serves it as [`connection`] does. It may wait as long as its peer does.
///
/// # Errors
///
/// The system's error if no connection is accepted; no step is made then.
pub fn turn(
    alloc: Global,
    listener: &TcpListener,
    instance: &mut Instance,
    bits: u128,
    now: Moment,
) -> io::Result<Ended>
    ensures taken { IfOk result (IsConnection bits now None None instance.old instance.new None None) }
    ensures refused { OnErr result (instance.new ≡ instance.old) }
{
    let (stream, _) = listener.accept()?;
    let (mut reader, mut writer) = (&stream, &stream);
    Ok(connection(alloc, instance, &mut reader, &mut writer, bits, now))
}
