//! Requests.

ghost use Rattle.std.specs.Prelude.{◌≡◌, IfOk, string_bytes};
ghost use Rattle.am_http.specs.Requests.{IsReadOf, IsTakenFrom, IsUnfinished};

use crate::cause::Cause;
use crate::progress::{RequestParts, RequestProgress, progress_of};
use crate::refusal::Refusal;
use std::alloc::{AllocError, Global};

/// A whole request.
#[derive(Drop)]
pub struct Request {
    pub method: String,
    /// The target as it came, with nothing decoded.
    pub target: String,
    pub body: Vec<u8>,
}

/// The result of reading the bytes that have come.
#[derive(Drop)]
pub enum Read {
    /// Nothing is decided yet.
    More,
    Whole(Request),
    Refused(Refusal),
}

/// Returns a request that owns these parts.
fn owned(alloc: Global, parts: RequestParts<'_>) -> Result<Request, AllocError>
    ensures method { IfOk result (λ r. string_bytes r.method ≡ parts.entry.method.now) }
    ensures target { IfOk result (λ r. string_bytes r.target ≡ parts.entry.target.now) }
    ensures body { IfOk result (λ r. r.body.items ≡ parts.entry.body.now) }
{
    Ok(Request {
        method: String::from_str(alloc, parts.method)?,
        target: String::from_str(alloc, parts.target)?,
        body: parts.body.to_vec(alloc)?,
    })
}

/// Returns the whole request, or its refusal if memory ran out.
pub fn taken(alloc: Global, parts: RequestParts<'_>) -> Read
    ensures { IsTakenFrom parts.entry.method.now parts.entry.target.now parts.entry.body.now result }
{
    match owned(alloc, parts) {
        Ok(request) => Read::Whole(request),
        Err(_) => Read::Refused(Cause::Memory.refusal()),
    }
}

/// Returns the result of reading bytes that decide nothing.
fn unfinished(bytes: &[u8], ended: bool) -> Read
    requires { IsUnfinished bytes.now }
    ensures { IsReadOf bytes.now ended result }
{
    if ended && !bytes.is_empty() {
        return Read::Refused(Cause::EndedEarly.refusal());
    }
    Read::More
}

/// Reads a request from the bytes that have come; the input ended behind them if `ended`, and may go on otherwise.
///
/// A head has at most 16,384 bytes and 64 fields, and a body at most 1,048,576 bytes. [`Read::Refused`] has the line of the first
/// fault found; input that ends before its first byte is [`Read::More`].
pub fn read_request(alloc: Global, bytes: &[u8], ended: bool) -> Read
    // PROMISE: Bytes are a whole request, unfinished, or at fault by the first line of the table.
    ensures { IsReadOf bytes.now ended result }
{
    match progress_of(bytes) {
        RequestProgress::Head | RequestProgress::Body { .. } => unfinished(bytes, ended),
        RequestProgress::Whole(parts) => taken(alloc, parts),
        RequestProgress::Refused(cause) => Read::Refused(cause.refusal()),
    }
}
