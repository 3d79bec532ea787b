//! The bytes that go out to a peer.

ghost use Rattle.std.specs.Prelude.{◌≡◌, ◌++◌, ◌⊎◌, ◌↔◌, false, Err, OnOk, IfOk, IfErr};
ghost use Rattle.std.specs.List.{flat_map};
ghost use Rattle.am_gossip.specs.Frames.{frame_encoding};
ghost use Rattle.am_peers.specs.Outgoing.{all_fit, greeting_encoding, is_name};
ghost use Rattle.am_gossip.specs.declared.error.FrameError.TheVariants as errors;

use am_gossip::{Frame, FrameError, MOST_NAME_BYTES, append_frame, frame_fits};
use am_wire::writing::append_delimited;
use std::alloc::{AllocError, Global};

/// Returns whether a greeting may have this name.
fn is_name(name: &str) -> bool
    ensures { result ≡ is_name name.now }
{
    !name.is_empty() && name.len() as u64 <= MOST_NAME_BYTES
}

/// Returns whether each frame keeps its limit.
fn all_fit(frames: &[Frame]) -> bool
    ensures { result ≡ all_fit frames.now }
{
    frames.iter().all(|frame| frame_fits(frame))
}

/// Appends a greeting.
fn append_greeting(out: &mut Vec<u8>, name: &str) -> Result<(), AllocError>
    ensures { OnOk result (out.new.items ≡ out.old.items ++ greeting_encoding name.now) }
{
    out.push(0)?;
    append_delimited(out, name.as_bytes())
}

/// Appends frames, one after the other; one over its limit would be an error too, but the callers have checked that before.
fn append_frames(out: &mut Vec<u8>, frames: &[Frame]) -> Result<(), AllocError>
    ensures { OnOk result (out.new.items ≡ out.old.items ++ flat_map frame_encoding frames.now) }
{
    for frame in frames {
        if append_frame(out, frame).is_err() {
            return Err(AllocError);
        }
    }
    Ok(())
}

/// Returns the greeting of a member of this name, with which each of its connections to a peer begins.
///
/// # Errors
///
/// [`FrameError::Length`] if the name is empty or has more than 255 bytes, however much memory there is, and
/// [`FrameError::Memory`].
pub fn greeting(alloc: Global, name: &str) -> Result<Vec<u8>, FrameError>
    ensures text { IfOk result (λ text. text.items ≡ greeting_encoding name.now) }
    ensures too_long { (result ≡ Err errors.Length) ↔ (is_name name.now ≡ false) }
    ensures refused { IfErr result (λ e. (e ≡ errors.Memory) ⊎ (e ≡ errors.Length)) }
{
    if !is_name(name) {
        return Err(FrameError::Length);
    }
    let mut text = Vec::new(alloc);
    append_greeting(&mut text, name)?;
    Ok(text)
}

/// Returns the encoding of frames, one after the other, as it goes to a peer behind the greeting.
///
/// # Errors
///
/// [`FrameError::Length`] if the payload of a frame is over its limit, however much memory there is, and
/// [`FrameError::Memory`].
pub fn frames_encoding(alloc: Global, frames: &[Frame]) -> Result<Vec<u8>, FrameError>
    ensures text { IfOk result (λ text. text.items ≡ flat_map frame_encoding frames.now) }
    ensures too_long { (result ≡ Err errors.Length) ↔ (all_fit frames.now ≡ false) }
    ensures refused { IfErr result (λ e. (e ≡ errors.Memory) ⊎ (e ≡ errors.Length)) }
{
    if !all_fit(frames) {
        return Err(FrameError::Length);
    }
    let mut text = Vec::new(alloc);
    append_frames(&mut text, frames)?;
    Ok(text)
}
