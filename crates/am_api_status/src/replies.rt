//! The bytes of replies.

ghost use Rattle.std.specs.Prelude.{◌≡◌, ◌++◌, codes, length, IfOk, string_bytes};
ghost use Rattle.am_http.specs.Lines.{line, line_seen};
ghost use Rattle.am_metrics.specs.Expositions.{exposition};
ghost use Rattle.am_api_status.specs.Replies.{fields_of, head_bytes, told_bytes};
ghost use Rattle.am_api_status.specs.declared.replies.BodyFormat.TheVariants as formats;

use crate::page::{FIELDS, PAGE};
use am_http::Refusal;
use am_metrics::{Family, write_families};
use std::alloc::{AllocError, Global};

/// The format of a body.
#[derive(Clone, Copy, PartialEq, Eq)]
pub enum BodyFormat {
    /// A text for people.
    Plain,
    /// The page for people.
    Html,
    Json,
    /// Figures, in Prometheus' text format.
    Exposition,
}

impl BodyFormat {
    /// Returns the fields of the head that name the format.
    const fn fields(self) -> &'static str
        ensures { result.now ≡ fields_of self }
    {
        match self {
            BodyFormat::Plain => "content-type: text/plain; charset=utf-8\r\n",
            BodyFormat::Html => FIELDS,
            BodyFormat::Json => "content-type: application/json\r\n",
            BodyFormat::Exposition => "content-type: text/plain; version=0.0.4; charset=utf-8\r\n",
        }
    }
}

/// Returns the lines before a body of `count` bytes.
fn head(alloc: Global, format: BodyFormat, count: usize) -> Result<String, AllocError>
    ensures { IfOk result (λ s. string_bytes s ≡ head_bytes format count) }
{
    let fields = format.fields();
    format!(in alloc;
        "HTTP/1.1 200 OK\r\n{fields}content-length: {count}\r\nconnection: close\r\n\r\n"
    )
}

/// Returns the reply 200 with this body, or its head alone.
///
/// # Errors
///
/// [`AllocError`] if memory runs out.
pub fn tell(
    alloc: Global,
    format: BodyFormat,
    body: &[u8],
    is_bare: bool,
) -> Result<Vec<u8>, AllocError>
    ensures { IfOk result (λ bytes. bytes.items ≡ told_bytes format is_bare body.now) }
{
    let head = head(alloc, format, body.len())?;
    let mut bytes = Vec::with_capacity(alloc, head.len().saturating_add(body.len()))?;
    bytes.extend_from_slice(head.as_bytes())?;
    if !is_bare {
        bytes.extend_from_slice(body)?;
    }
    Ok(bytes)
}

/// Returns the reply with the page for people.
///
/// # Errors
///
/// [`AllocError`] if memory runs out.
pub fn page_reply(alloc: Global, is_bare: bool) -> Result<Vec<u8>, AllocError>
    ensures { IfOk result (λ bytes. bytes.items ≡ told_bytes formats.Html is_bare PAGE.now) }
{
    tell(alloc, BodyFormat::Html, PAGE.as_bytes(), is_bare)
}

/// Returns the reply that the member runs or, if that was asked, that it answers requests.
///
/// # Errors
///
/// [`AllocError`] if memory runs out.
pub fn well_reply(alloc: Global, is_bare: bool) -> Result<Vec<u8>, AllocError>
    ensures { IfOk result (λ bytes. bytes.items ≡ told_bytes formats.Plain is_bare (codes "OK")) }
{
    tell(alloc, BodyFormat::Plain, b"OK", is_bare)
}

/// Returns the line of the table saying that the member answers no requests now.
pub const fn not_ready(is_bare: bool) -> Refusal
    ensures { line_seen result ≡ record (line 503 (codes "not ready")) { bare = is_bare } }
{
    Refusal {
        status: 503,
        text: "not ready",
        allow: None,
        is_bare,
    }
}

/// Returns the reply that lists the receivers, of which a member has none.
///
/// # Errors
///
/// [`AllocError`] if memory runs out.
pub fn receivers_reply(alloc: Global, is_bare: bool) -> Result<Vec<u8>, AllocError>
    ensures { IfOk result (λ bytes. bytes.items ≡ told_bytes formats.Json is_bare (codes "[]")) }
{
    tell(alloc, BodyFormat::Json, b"[]", is_bare)
}

/// Returns the reply with a member's figures.
///
/// # Errors
///
/// [`AllocError`] if memory runs out.
pub fn metrics_reply(
    alloc: Global,
    families: &[Family],
    is_bare: bool,
) -> Result<Vec<u8>, AllocError>
    ensures { IfOk result (λ bytes. bytes.items ≡ told_bytes formats.Exposition is_bare (exposition families.now)) }
{
    let body = write_families(alloc, families)?;
    let bytes = tell(alloc, BodyFormat::Exposition, &body, is_bare)?;
    Ok(bytes)
}
