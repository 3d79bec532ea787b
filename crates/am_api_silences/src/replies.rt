//! The bytes of replies.

ghost use Rattle.std.specs.Prelude.{◌≡◌, length, IfOk};
ghost use Rattle.std.specs.Option.{option_copied};
ghost use Rattle.serde_json.specs.Data.{Data, string};
ghost use Rattle.serde_json.specs.Written.{compact_text};
ghost use Rattle.am_silence_json.specs.Gettables.{IsGettable, posted_data};
ghost use Rattle.am_http.specs.Lines.{line_seen};
ghost use Rattle.am_http.specs.Replies.{head_bytes, reply_bytes};
ghost use Rattle.am_api_silences.specs.Replies.{IsListReply, IsReplyBytes, IsSaid, Says, bytes_of, good_bytes};
ghost use Rattle.am_api_silences.specs.Replies.{line_bytes, memory_bytes};

use crate::table;
use am_http::{Refusal, bare_reply, out_of_memory, reply};
use am_instance::Reply;
use am_silence::{MeshSilence, State};
use am_silence_json::{write_error, write_posted, write_silence, write_silences};
use std::alloc::{AllocError, Global};

/// The bytes of a whole reply.
#[derive(Drop)]
pub enum ResponseBytes {
    Own(Vec<u8>),
    /// The reply that there is no memory for another, which takes none itself.
    Fixed(&'static [u8]),
}

impl ResponseBytes {
    /// Returns the bytes.
    pub fn as_slice(&self) -> &[u8]
        ensures { result.now ≡ bytes_of self.now }
    {
        match self {
            ResponseBytes::Own(bytes) => bytes.as_slice(),
            ResponseBytes::Fixed(bytes) => bytes,
        }
    }
}

/// Returns the reply 200 with this body.
pub fn good(alloc: Global, body: &[u8]) -> Result<Vec<u8>, AllocError>
    ensures { IfOk result (λ bytes. bytes.items ≡ good_bytes body.now) }
{
    reply(alloc, 200, None, body)
}

/// Returns the reply that lists silences.
fn list(alloc: Global, rows: &[(MeshSilence, State)]) -> Result<Vec<u8>, AllocError>
    ensures { IfOk result (λ bytes. IsListReply rows.now bytes.items) }
{
    let body = write_silences(Vec::new(alloc), rows)?;
    let bytes = good(alloc, &body)?;
    Ok(bytes)
}

/// Returns the reply that shows a silence.
fn one(alloc: Global, version: &MeshSilence, state: State) -> Result<Vec<u8>, AllocError>
    ensures { IfOk result (λ bytes. (d : Data) × IsGettable version.now.silence state d
        × (bytes.items ≡ good_bytes (compact_text d))) }
{
    let body = write_silence(Vec::new(alloc), version, state)?;
    let bytes = good(alloc, &body)?;
    Ok(bytes)
}

/// Returns the reply that tells the identifier of what was posted.
fn posted(alloc: Global, id: &str) -> Result<Vec<u8>, AllocError>
    ensures { IfOk result (λ bytes. bytes.items ≡ good_bytes (compact_text (posted_data id.now))) }
{
    let body = write_posted(Vec::new(alloc), id)?;
    let bytes = good(alloc, &body)?;
    Ok(bytes)
}

/// Returns the reply with a line of the table of statuses.
fn whole(alloc: Global, line: &Refusal) -> Result<Vec<u8>, AllocError>
    ensures { IfOk result (λ bytes. bytes.items ≡ reply_bytes line.now.status (option_copied line.now.allow) (compact_text (string line.now.text.now))) }
{
    let body = write_error(Vec::new(alloc), line.text)?;
    let bytes = reply(alloc, line.status, line.allow, &body)?;
    Ok(bytes)
}

/// Returns the head of the reply with a line of the table of statuses.
fn bare(alloc: Global, line: &Refusal) -> Result<Vec<u8>, AllocError>
    ensures { IfOk result (λ bytes. bytes.items
        ≡ head_bytes line.now.status (option_copied line.now.allow) (length (compact_text (string line.now.text.now)))) }
{
    let body = write_error(Vec::new(alloc), line.text)?;
    let bytes = bare_reply(alloc, line.status, line.allow, &body)?;
    Ok(bytes)
}

/// Returns the reply to a refused request with a line of the table of statuses.
fn refused(alloc: Global, line: &Refusal) -> Result<Vec<u8>, AllocError>
    ensures { IfOk result (λ bytes. bytes.items ≡ line_bytes (line_seen line.now)) }
{
    if line.is_bare {
        let bytes = bare(alloc, line)?;
        return Ok(bytes);
    }
    let bytes = whole(alloc, line)?;
    Ok(bytes)
}

/// Returns the bytes of a reply.
fn replied(alloc: Global, reply: &Reply) -> Result<Vec<u8>, AllocError>
    ensures { IfOk result (λ bytes. IsReplyBytes reply.now bytes.items) }
{
    match reply {
        Reply::Silences(rows) => list(alloc, rows),
        Reply::Silence(version, state) => one(alloc, version, *state),
        Reply::Posted(id) => posted(alloc, id.as_str()),
        Reply::Refused(error) => refused(alloc, &table::refused(*error)),
        _ => good(alloc, b""),
    }
}

/// Returns the bytes of the reply to a request, or of its refusal. The reply to any other event has no body.
///
/// # Errors
///
/// [`AllocError`] if memory runs out.
pub fn to_bytes(alloc: Global, said: Result<&Reply, &Refusal>) -> Result<Vec<u8>, AllocError>
    ensures { IfOk result (λ bytes. IsSaid said.entry bytes.items) }
{
    match said {
        Ok(reply) => replied(alloc, reply),
        Err(refusal) => refused(alloc, refusal),
    }
}

/// Returns the reply for when there is no memory for another.
pub fn no_memory() -> &'static [u8]
    ensures { result.now ≡ memory_bytes }
{
    out_of_memory()
}

/// Returns the bytes of a reply or of a refusal; if there is no memory for them, the reply says so.
pub fn tell(alloc: Global, said: Result<&Reply, &Refusal>) -> ResponseBytes
    ensures { Says (IsSaid said.entry) result }
{
    match to_bytes(alloc, said) {
        Ok(bytes) => ResponseBytes::Own(bytes),
        Err(_) => ResponseBytes::Fixed(no_memory()),
    }
}
