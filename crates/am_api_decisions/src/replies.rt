//! The bytes of replies.

ghost use Rattle.std.specs.Prelude.{◌≡◌, IfOk};
ghost use Rattle.am_http.specs.Lines.{line_seen};
ghost use Rattle.am_api_silences.specs.ReplyBuilder.{IsNoMemory};
ghost use Rattle.am_api_silences.specs.Replies.{Says, good_bytes, line_bytes, memory_bytes};

use am_api_silences::{ResponseBytes, to_bytes};
use am_http::{Refusal, out_of_memory, reply};
use std::alloc::{AllocError, Global};

/// Returns the reply 200 with this body.
pub fn good(alloc: Global, body: &[u8]) -> Result<Vec<u8>, AllocError>
    ensures { IfOk result (λ bytes. bytes.items ≡ good_bytes body.now) }
{
    reply(alloc, 200, None, body)
}

/// Returns the bytes of the reply saying that there is no memory for another.
fn memory_bytes() -> &'static [u8]
    ensures { result.now ≡ memory_bytes }
{
    out_of_memory()
}

/// Returns the reply saying that there is no memory for another.
pub fn short() -> ResponseBytes
    ensures { IsNoMemory result }
{
    ResponseBytes::Fixed(memory_bytes())
}

/// Returns the reply with a line of the table of statuses, or the one saying that there is no memory for it.
pub fn tell(alloc: Global, line: &Refusal) -> ResponseBytes
    ensures { Says (λ bytes. bytes ≡ line_bytes (line_seen line.now)) result }
{
    match to_bytes(alloc, Err(line)) {
        Ok(bytes) => ResponseBytes::Own(bytes),
        Err(_) => short(),
    }
}
