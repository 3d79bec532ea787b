//! The request for a server's silences, and its reply, over any reader and writer.

ghost use Rattle.std.specs.Prelude.{◌≡◌, ◌<◌, ◌≤◌, length, IfOk, IfErr, IfSome, IsErrOf};
ghost use Rattle.am_peers.specs.Requests.{IsOfReading, request_text, most_reply};
ghost use Rattle.am_peers.specs.declared.error.ServerFault.TheVariants as errors;

use crate::error::ServerFault;
use std::alloc::{AllocError, Global};
use std::io::{ErrorKind, Read};

/// The maximum size of a reply in bytes: a head, and a list of 67,108,864 bytes.
pub const MOST_REPLY_BYTES: usize = 67_125_248;

/// Returns the request for all silences of a server at this host and port, whose API stands below this path. It is HTTP/1.0 (RFC
/// 1945), so that the reply doesn't come in chunks and the server closes the connection after its reply.
///
/// # Errors
///
/// [`AllocError`] if memory runs out.
pub fn request_text(alloc: Global, host: &str, path: &str) -> Result<Vec<u8>, AllocError>
    ensures { IfOk result (λ text. text.items ≡ request_text host.now path.now) }
{
    let mut text = Vec::new(alloc);
    text.extend_from_slice(b"GET ")?;
    text.extend_from_slice(path.as_bytes())?;
    text.extend_from_slice(b"/api/v2/silences HTTP/1.0\r\nHost: ")?;
    text.extend_from_slice(host.as_bytes())?;
    text.extend_from_slice(b"\r\nAccept: application/json\r\nConnection: close\r\n\r\n")?;
    Ok(text)
}

/// Reads a reply until the server closes the connection.
///
/// # Errors
///
/// [`ServerFault::Read`] if a read fails; [`ServerFault::TooLarge`] once byte 67,125,249 has come; [`ServerFault::Memory`].
pub fn read_reply<R: Read + Drop>(alloc: Global, reader: R) -> Result<Vec<u8>, ServerFault>
    ensures all { IfOk result (λ reply. IfSome (R.remaining reader) (λ bytes. reply.items ≡ bytes)) }
    ensures few { IfOk result (λ reply. length reply.items ≤ most_reply) }
    ensures too_large { IsErrOf result errors.TooLarge → IfSome (R.remaining reader) (λ bytes. most_reply < length bytes) }
    ensures refused { IfErr result IsOfReading }
{
    let mut reply = Vec::new(alloc);
    let mut limited = reader.take(MOST_REPLY_BYTES as u64 + 1);
    if let Err(error) = limited.read_to_end(&mut reply) {
        return Err(match error.kind() {
            ErrorKind::OutOfMemory => ServerFault::Memory,
            _ => ServerFault::Read { at: reply.len() },
        });
    }
    if reply.len() > MOST_REPLY_BYTES {
        return Err(ServerFault::TooLarge);
    }
    Ok(reply)
}
