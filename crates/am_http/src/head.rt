//! The head of a request, in the bytes that have come.

ghost use Rattle.std.specs.Prelude.{◌≡◌, length, take};
ghost use Rattle.am_http.specs.HeadSpans.{IsHeadOf};

use crate::cause::Cause;
use httparse::spans::{HeaderSpan, RequestSpans, parse_request};
use httparse::{Error, Status};

/// The maximum number of bytes in a head.
pub const MOST_HEAD_BYTES: usize = 16_384;

/// The maximum number of fields in a head.
pub const MOST_FIELDS: usize = 64;

/// The content at the front of the bytes.
#[derive(Clone, Copy)]
pub enum Head {
    /// A head that isn't whole.
    Open,
    Whole(RequestSpans),
    Refused(Cause),
}

/// Returns the bytes within which a head has to end.
pub fn window(bytes: &[u8]) -> &[u8]
    ensures { result.now ≡ take MOST_HEAD_BYTES bytes.now }
{
    match bytes.split_at_checked(MOST_HEAD_BYTES) {
        Some((front, _)) => front,
        None => bytes,
    }
}

/// Reads the head at the front of the bytes, and writes to `fields` where its fields are.
pub fn read_head(bytes: &[u8], fields: &mut [HeaderSpan]) -> Head
    requires { length fields.old ≡ MOST_FIELDS }
    ensures { IsHeadOf bytes.now fields.new result }
{
    match parse_request(window(bytes), fields) {
        Ok(Status::Complete(head)) => Head::Whole(head),
        Ok(Status::Partial) if bytes.len() < MOST_HEAD_BYTES => Head::Open,
        Ok(Status::Partial) | Err(Error::TooManyHeaders) => Head::Refused(Cause::HeadTooLarge),
        Err(_) => Head::Refused(Cause::BadHead),
    }
}
