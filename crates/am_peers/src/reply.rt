//! The reply of a server, as the bytes that came until it closed its connection.

ghost use Rattle.std.specs.Prelude.{◌≡◌, ◌≤◌, IfOk, IfErr, IfSome, IfNone, length, take, drop};
ghost use Rattle.am_peers.specs.Replies.{HasReply, HasNoReply, IsRefused};

use crate::error::ServerFault;
use httparse::Status;
use httparse::spans::{EMPTY_HEADER_SPAN, ResponseSpans, parse_response};

/// The maximum size of a head in bytes.
const MOST_HEAD_BYTES: usize = 16_384;

/// The maximum number of fields of a head.
const MOST_FIELDS: usize = 64;

/// The status of a reply that contains what was asked for.
const OK: u16 = 200;

/// Returns the bytes in which a head has to end.
fn window(reply: &[u8]) -> &[u8]
    ensures { result.now ≡ take MOST_HEAD_BYTES reply.now }
{
    match reply.split_at_checked(MOST_HEAD_BYTES) {
        Some((front, _)) => front,
        None => reply,
    }
}

/// Parses the head at the front of a reply.
fn head_of(reply: &[u8]) -> Option<ResponseSpans>
    ensures fits { IfSome result (λ head. head.len ≤ length (take MOST_HEAD_BYTES reply.now)) }
    ensures head { IfSome result (λ head. HasReply reply.now head.code (drop head.len reply.now)) }
    ensures none { IfNone result (HasNoReply reply.now) }
{
    let mut fields = [EMPTY_HEADER_SPAN; MOST_FIELDS];
    match parse_response(window(reply), &mut fields) {
        Ok(Status::Complete(head)) => Some(head),
        _ => None,
    }
}

/// Returns the body of a reply with status 200: everything behind its head (RFC 9112, section 6.3: the reply ends when the
/// connection is closed).
///
/// # Errors
///
/// [`ServerFault::NoHead`], and [`ServerFault::Status`] if the status is another.
pub fn body_of(reply: &[u8]) -> Result<&[u8], ServerFault>
    ensures body { IfOk result (λ body. HasReply reply.now 200 body.now) }
    ensures refused { IfErr result (IsRefused reply.now) }
{
    match head_of(reply) {
        Some(head) if head.code == OK => {
            let (_, body) = reply.split_at(head.len);
            Ok(body)
        }
        Some(head) => Err(ServerFault::Status(head.code)),
        None => Err(ServerFault::NoHead),
    }
}
