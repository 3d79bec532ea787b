//! The bytes of replies.

ghost use Rattle.std.specs.Prelude.{◌≡◌, ◌++◌, ◌+◌, ◌<◌, ◌^◌, [], codes, length, IfOk, None, unwrap_or, string_bytes};
ghost use Rattle.std.specs.Option.{option_copied};
ghost use Rattle.http.specs.StatusCode.{IsStatusCode, reason_phrase};
ghost use Rattle.am_http.specs.Replies.{allow_line, head_bytes, reply_bytes};

use http::StatusCode;
use std::alloc::{AllocError, Global};

/// The whole reply for when memory runs out.
const OUT_OF_MEMORY: &str =
    "HTTP/1.1 500 Internal Server Error\r\ncontent-type: application/json\r\ncontent-length: 15\r\nconnection: close\r\n\r\n\"out of memory\"";

/// Returns the phrase of a status.
fn phrase(status: u16) -> &'static str
    requires { IsStatusCode status }
    ensures { result.now ≡ unwrap_or (reason_phrase status) [] }
{
    match StatusCode::from_u16(status) {
        Ok(code) => code.canonical_reason().unwrap_or(""),
        Err(_) => "",
    }
}

/// Returns the lines before a body of `count` bytes.
fn head(alloc: Global, status: u16, allow: Option<&str>, count: usize) -> Result<String, AllocError>
    requires { IsStatusCode status }
    ensures { IfOk result (λ s. string_bytes s ≡ head_bytes status (option_copied allow.entry) count) }
{
    let phrase = phrase(status);
    match allow {
        None => format!(in alloc;
            "HTTP/1.1 {status} {phrase}\r\ncontent-type: application/json\r\ncontent-length: {count}\r\nconnection: close\r\n\r\n"
        ),
        Some(methods) => format!(in alloc;
            "HTTP/1.1 {status} {phrase}\r\ncontent-type: application/json\r\ncontent-length: {count}\r\nallow: {methods}\r\nconnection: close\r\n\r\n"
        ),
    }
}

/// Returns the bytes of a reply with this JSON body; `allow` names the available methods, if another was asked for.
///
/// # Errors
///
/// [`AllocError`] if memory runs out; [`out_of_memory`] is what is left to say then.
pub fn reply(
    alloc: Global,
    status: u16,
    allow: Option<&str>,
    body: &[u8],
) -> Result<Vec<u8>, AllocError>
    requires { IsStatusCode status }
    // PROMISE: A reply is exactly its status, its fields and its body.
    ensures { IfOk result (λ v. v.items ≡ reply_bytes status (option_copied allow.entry) body.now) }
{
    let head = head(alloc, status, allow, body.len())?;
    let mut bytes = Vec::with_capacity(alloc, head.len().saturating_add(body.len()))?;
    bytes.extend_from_slice(head.as_bytes())?;
    bytes.extend_from_slice(body)?;
    Ok(bytes)
}

/// Returns the bytes of a reply to HEAD: only the head of the reply with this JSON body.
///
/// # Errors
///
/// [`AllocError`] if memory runs out.
pub fn bare_reply(
    alloc: Global,
    status: u16,
    allow: Option<&str>,
    body: &[u8],
) -> Result<Vec<u8>, AllocError>
    requires { IsStatusCode status }
    ensures { IfOk result (λ v. v.items ≡ head_bytes status (option_copied allow.entry) (length body.now)) }
{
    let head = head(alloc, status, allow, body.len())?;
    let mut bytes = Vec::with_capacity(alloc, head.len())?;
    bytes.extend_from_slice(head.as_bytes())?;
    Ok(bytes)
}

/// Returns the reply 500 `out of memory`, which takes no memory.
pub const fn out_of_memory() -> &'static [u8]
    ensures { result.now ≡ reply_bytes 500 None (codes "\"out of memory\"") }
{
    OUT_OF_MEMORY.as_bytes()
}
