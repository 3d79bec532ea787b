//! The frames in a piece of a stream.

ghost use Rattle.std.specs.Prelude.{◌≡◌, ◌++◌, ◌≤◌, List, ℕ, length, take, IfOk, IfErr, OnOk, vec_len};
ghost use Rattle.am_gossip.specs.HeaderProgresses.{IsRead, IsWhole, IsWaiting, Holds, EndsAs};
ghost use Rattle.am_gossip.specs.Streams.{stream_of};
ghost use Rattle.am_gossip.specs.declared.error.FrameError.TheVariants.{Memory};

use crate::error::FrameError;
use crate::frame::Frame;
use crate::head::Head;
use crate::header::{HeaderProgress, read_header};
use crate::payload::read_payload;
use std::alloc::Global;

/// The result of reading the front of a stream.
#[derive(Drop)]
pub enum FrameRead {
    /// A frame of `len` bytes.
    Frame { frame: Frame, len: usize },
    /// The beginning of a frame.
    Waits(HeaderProgress),
    Fault(FrameError),
}

/// The end of reading a piece.
#[derive(Clone, Copy)]
pub enum End {
    /// The beginning of a frame, or nothing.
    Waits(HeaderProgress),
    Fault(FrameError),
}

/// Reads a frame, whose header is read already, from its whole payload.
fn read_whole(alloc: Global, head: Head, payload: &[u8]) -> Result<FrameRead, FrameError>
    ensures read { IfOk result (λ read. (bytes : List ℕ) → IsWhole head bytes payload.now → IsRead read bytes) }
    ensures refused { IfErr result (λ e. e ≡ Memory) }
{
    match read_payload(alloc, head.kind, payload) {
        Ok(frame) => Ok(FrameRead::Frame {
            frame,
            len: head.len + head.size,
        }),
        Err(e) => match e {
            FrameError::Memory => Err(e),
            _ => Ok(FrameRead::Fault(e)),
        },
    }
}

/// Reads the frame at the front of the bytes.
pub fn read_frame(alloc: Global, bytes: &[u8]) -> Result<FrameRead, FrameError>
    ensures read { IfOk result (λ read. IsRead read bytes.now) }
    ensures refused { IfErr result (λ e. e ≡ Memory) }
{
    let progress = match read_header(HeaderProgress::Before, bytes) {
        Ok(progress) => progress,
        Err(e) => return Ok(FrameRead::Fault(e)),
    };
    let HeaderProgress::InPayload(head) = progress else {
        return Ok(FrameRead::Waits(progress));
    };
    let len = head.len + head.size;
    if bytes.len() < len {
        return Ok(FrameRead::Waits(progress));
    }
    read_whole(alloc, head, &bytes[head.len..len])
}

/// Continues reading a frame that isn't whole, from the part of it in `held` and the piece behind that. The frame's bytes in
/// the piece are appended to `held`.
pub fn finish_frame(
    alloc: Global,
    held: &mut Vec<u8>,
    progress: HeaderProgress,
    piece: &[u8],
) -> Result<FrameRead, FrameError>
    requires { IsWaiting progress held.old.items }
    ensures read { IfOk result (λ read. IsRead read (held.old.items ++ piece.now)) }
    ensures waits { IfOk result (λ read. Holds read (held.old.items ++ piece.now) held.new.items) }
    ensures kept { take (vec_len held.old) held.new.items ≡ held.old.items }
    ensures refused { IfErr result (λ e. e ≡ Memory) }
{
    let progress = match read_header(progress, piece) {
        Ok(progress) => progress,
        Err(e) => return Ok(FrameRead::Fault(e)),
    };
    let HeaderProgress::InPayload(head) = progress else {
        held.extend_from_slice(piece)?;
        return Ok(FrameRead::Waits(progress));
    };
    let missing = head.len + head.size - held.len();
    if piece.len() < missing {
        held.extend_from_slice(piece)?;
        return Ok(FrameRead::Waits(progress));
    }
    held.extend_from_slice(&piece[..missing])?;
    read_whole(alloc, head, &held[head.len..])
}

/// Reads the frames that are whole in the bytes, without copying them, and returns the rest and how the reading ended.
pub fn read_frames<'a>(
    alloc: Global,
    frames: &mut Vec<Frame>,
    bytes: &'a [u8],
) -> Result<(&'a [u8], End), FrameError>
    ensures frames { OnOk result (frames.new.items ≡ frames.old.items ++ (stream_of bytes.now).frames) }
    ensures end { IfOk result (λ x. EndsAs x.1 x.0.now (stream_of bytes.now).ending) }
    ensures refused { IfErr result (λ e. e ≡ Memory) }
{
    let mut rest = bytes;
    loop {
        match read_frame(alloc, rest)? {
            FrameRead::Frame { frame, len } => {
                frames.push(frame)?;
                rest = &rest[len..];
            }
            FrameRead::Waits(progress) => return Ok((rest, End::Waits(progress))),
            FrameRead::Fault(e) => return Ok((rest, End::Fault(e))),
        }
    }
}
