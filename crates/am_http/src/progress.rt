//! The progress of a request.

ghost use Rattle.std.specs.Prelude.{◌≡◌, ◌≤◌, length, IsUtf8};
ghost use Rattle.httparse.specs.Spans.{span_bytes};
ghost use Rattle.am_http.specs.Requests.{IsStandingOf};

use crate::cause::Cause;
use crate::fields::body_length;
use crate::head::{Head, MOST_FIELDS, read_head, window};
use httparse::spans::{EMPTY_HEADER_SPAN, Span};

/// The parts of a whole request.
#[derive(Clone, Copy)]
pub struct RequestParts<'a> {
    pub method: &'a str,
    pub target: &'a str,
    pub body: &'a [u8],
}

/// The progress of a request.
#[derive(Clone, Copy)]
pub enum RequestProgress<'a> {
    /// The head isn't whole.
    Head,
    /// The head is whole, and the request ends at the byte `end`, which hasn't come.
    Body { end: usize },
    Whole(RequestParts<'a>),
    Refused(Cause),
}

/// Returns the text at a place.
fn text_at(head: &[u8], place: Span) -> &str
    requires ordered { place.start ≤ place.end }
    requires in_range { place.end ≤ length head.now }
    requires utf8 { IsUtf8 (span_bytes head.now place) }
    ensures { result.now ≡ span_bytes head.now place }
{
    str::from_utf8(place.of(head)).unwrap()
}

/// Returns how far the bytes of a request have come. It takes no memory.
pub fn progress_of(bytes: &[u8]) -> RequestProgress<'_>
    ensures { IsStandingOf bytes.now result }
{
    let mut fields = [EMPTY_HEADER_SPAN; MOST_FIELDS];
    let front = window(bytes);
    let head = match read_head(bytes, &mut fields) {
        Head::Open => return RequestProgress::Head,
        Head::Refused(cause) => return RequestProgress::Refused(cause),
        Head::Whole(head) => head,
    };
    let count = match body_length(front, &fields[..head.headers]) {
        Ok(count) => count,
        Err(cause) => return RequestProgress::Refused(cause),
    };
    let end = head.len + count;
    if bytes.len() < end {
        return RequestProgress::Body { end };
    }
    RequestProgress::Whole(RequestParts {
        method: text_at(front, head.method),
        target: text_at(front, head.path),
        body: &bytes[head.len..end],
    })
}
