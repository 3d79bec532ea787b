//! The reading of headers byte by byte.

ghost use Rattle.std.specs.Prelude.{◌++◌, ◌∷◌, [], List, ℕ};
ghost use Rattle.am_gossip.specs.HeaderProgresses.{IsAt, Stands};
ghost use Rattle.am_gossip.specs.declared.header.HeaderProgress.TheVariants.{InLength};

use crate::error::FrameError;
use crate::groups::Groups;
use crate::head::Head;
use crate::kind::FrameKind;
use crate::length::{Next, next_group};

/// The progress in reading the frame at the front of a stream.
#[derive(Clone, Copy)]
pub enum HeaderProgress {
    /// None of its bytes is read.
    Before,
    /// The kind is read, and these groups of the length.
    InLength { kind: FrameKind, groups: Groups },
    /// The header is read.
    InPayload(Head),
}

/// Reads a frame's first byte.
fn read_kind(code: u8) -> Result<HeaderProgress, FrameError>
    ensures { Stands result (code ∷ []) }
{
    match FrameKind::from_code(code) {
        Some(kind) => Ok(HeaderProgress::InLength {
            kind,
            groups: Groups::none(),
        }),
        None => Err(FrameError::Kind),
    }
}

/// Reads the next byte in the length of a frame of this kind.
fn read_length(kind: FrameKind, groups: Groups, byte: u8) -> Result<HeaderProgress, FrameError>
    ensures { (bytes : List ℕ) → IsAt (InLength kind groups) bytes → Stands result (bytes ++ byte ∷ []) }
{
    match next_group(groups, byte) {
        Next::More(groups) => Ok(HeaderProgress::InLength { kind, groups }),
        Next::TooLong => Err(FrameError::Length),
        Next::Whole(size) => {
            if size > kind.limit() {
                return Err(FrameError::Length);
            }
            Ok(HeaderProgress::InPayload(Head {
                kind,
                size: size as usize,
                len: groups.places + 2,
            }))
        }
    }
}

/// Reads the next byte of a frame; behind the header nothing changes.
fn read_byte(progress: HeaderProgress, byte: u8) -> Result<HeaderProgress, FrameError>
    ensures { (before : List ℕ) → IsAt progress before → Stands result (before ++ byte ∷ []) }
{
    match progress {
        HeaderProgress::Before => read_kind(byte),
        HeaderProgress::InLength { kind, groups } => read_length(kind, groups, byte),
        HeaderProgress::InPayload(_) => Ok(progress),
    }
}

/// Continues reading a header, up to its end or that of the bytes.
pub fn read_header(progress: HeaderProgress, bytes: &[u8]) -> Result<HeaderProgress, FrameError>
    ensures { (before : List ℕ) → IsAt progress before → Stands result (before ++ bytes.now) }
{
    let mut progress = progress;
    for byte in bytes {
        if let HeaderProgress::InPayload(_) = progress {
            return Ok(progress);
        }
        progress = read_byte(progress, *byte)?;
    }
    Ok(progress)
}
