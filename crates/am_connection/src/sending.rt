//! The sending of frames to a peer.

ghost use Rattle.std.specs.Prelude.{◌≡◌, ◌⊎◌, ◌↔◌, ◌&&◌, false, Err, IfOk, IfErr, IsTrue};
ghost use Rattle.am_gossip.specs.declared.error.FrameError.TheVariants as frame_errors;
ghost use Rattle.am_peers.specs.Outgoing.{all_fit, is_name};
ghost use Rattle.am_connection.specs.Sending.{IsSentAs, outgoing_text};
ghost use Rattle.am_connection.specs.declared.sending.SendError.TheVariants as errors;

use am_gossip::{Frame, FrameError};
use am_peers::{frames_encoding, greeting};
use std::alloc::Global;
use std::io;
use thiserror::Error;

/// The reason why a greeting and frames were not sent to their end.
#[derive(Clone, Copy, Debug, PartialEq, Eq, Error)]
pub enum SendError {
    /// A write failed or took nothing, after `written` bytes had gone out.
    #[error("Write {written}")]
    Write { written: u64 },
    #[error("Memory")]
    Memory,
    /// The name is empty or has more than 255 bytes, or the payload of a frame is over its limit.
    #[error("Length")]
    Length,
}

/// Returns whether a text is over a limit.
fn is_too_long(text: &Result<Vec<u8>, FrameError>) -> bool
    ensures { IsTrue result ↔ (text.now ≡ Err frame_errors.Length) }
{
    matches!(text, Err(FrameError::Length))
}

/// Returns the greeting of a member of this name, with frames behind it.
fn outgoing(alloc: Global, name: &str, frames: &[Frame]) -> Result<Vec<u8>, SendError>
    ensures text { IfOk result (λ text. text.items ≡ outgoing_text name.now frames.now) }
    ensures too_long { (result ≡ Err errors.Length) ↔ ((is_name name.now && all_fit frames.now) ≡ false) }
    ensures refused { IfErr result (λ e. (e ≡ errors.Memory) ⊎ (e ≡ errors.Length)) }
{
    let (greeting, frames) = (greeting(alloc, name), frames_encoding(alloc, frames));
    if is_too_long(&greeting) || is_too_long(&frames) {
        return Err(SendError::Length);
    }
    let (Ok(mut text), Ok(frames)) = (greeting, frames) else {
        return Err(SendError::Memory);
    };
    match text.extend_from_slice(&frames) {
        Ok(()) => Ok(text),
        Err(_) => Err(SendError::Memory),
    }
}

/// Sends the greeting of a member of this name with frames behind it, and returns how many bytes went out.
///
/// # Errors
///
/// [`SendError::Length`] if the name or a frame is over its limit, however much memory there is, and [`SendError::Memory`],
/// both before a byte goes out; [`SendError::Write`] at the first call that fails or takes nothing, which is not tried again.
pub fn send<W: io::Write>(
    alloc: Global,
    name: &str,
    frames: &[Frame],
    writer: &mut W,
) -> Result<u64, SendError>
    // PROMISE: The greeting and the frames go out in order, or exactly the counted first bytes of them.
    ensures sent { IsSentAs (outgoing_text name.now frames.now) (W.contents writer.old) (W.contents writer.new) result }
    ensures too_long { (result ≡ Err errors.Length) ↔ ((is_name name.now && all_fit frames.now) ≡ false) }
{
    let text = outgoing(alloc, name, frames)?;
    match am_wire::send(writer, &text) {
        Ok(()) => Ok(text.len() as u64),
        Err(fault) => Err(SendError::Write {
            written: fault.written,
        }),
    }
}
