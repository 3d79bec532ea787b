//! The writing of frames. The length of each part is computed before anything is written.

ghost use Rattle.std.specs.Prelude.{◌≡◌, ℕ, List, ◌++◌, ◌+◌, ◌<◌, ◌≤◌, ◌^◌, ◌⊎◌, ◌↔◌, Err, length, OnOk, OnErr, IfOk, IfErr};
ghost use Rattle.am_wire.specs.Sizes.{counted};
ghost use Rattle.am_wire.specs.Varint.{shortest};
ghost use Rattle.am_wire.specs.Writing.{writes_delimited, writes_text};
ghost use Rattle.am_gossip.specs.Kinds.{limit};
ghost use Rattle.am_gossip.specs.Parts.{writes_part, writes_parts};
ghost use Rattle.am_gossip.specs.Frames.{BeginsWith, fits, frame_encoding, kind_of, payload_encoding, states};
ghost use Rattle.am_gossip.specs.declared.frame.Part.{Part};
ghost use Rattle.am_gossip.specs.declared.frame.Frame.TheVariants as frames;

use crate::error::FrameError;
use crate::frame::{Frame, Part, StateKey};
use crate::kind::FrameKind;
use am_wire::write_varint;
use am_wire::writing::varint_size;
use std::alloc::{AllocError, Global};

/// The tag of a part in a full state: that of bytes with the number 1.
const PART_TAG: u64 = 10;

/// Returns the length of a field whose payload has `size` bytes.
fn delimited_len(number: u32, size: u64) -> u64
    requires number { number < 2 ^ 29 }
    requires size { size + 20 < 2 ^ 64 }
    ensures exact { (bytes : List ℕ) → length bytes ≡ size → result ≡ length (writes_delimited number bytes) }
    ensures bounded { result ≤ size + 20 }
{
    varint_size(u64::from(number) * 8 + 2) + varint_size(size) + size
}

/// Returns the length of a field of `size` bytes, which is left out if there are none.
fn bytes_len(number: u32, size: u64) -> u64
    requires number { number < 2 ^ 29 }
    requires size { size + 20 < 2 ^ 64 }
    ensures exact { (bytes : List ℕ) → length bytes ≡ size → result ≡ length (writes_text number bytes) }
    ensures bounded { result ≤ size + 20 }
{
    if size == 0 {
        0
    } else {
        delimited_len(number, size)
    }
}

/// Returns the length of a part that holds `size` bytes.
#[tactic(auto, unfolding(crate::specs::Parts::writes_part))]
fn part_size(key: StateKey, size: u64) -> u64
    requires { size + 100 < 2 ^ 64 }
    ensures exact { (part : Part) → part.key ≡ key → length part.bytes ≡ size → result ≡ length (writes_part part) }
    ensures bounded { result ≤ size + 60 }
{
    bytes_len(1, key.as_str().len() as u64) + bytes_len(2, size)
}

fn part_len(part: &Part) -> u64
    ensures exact { result ≡ length (writes_part part.now) }
    ensures bounded { result + 40 < 2 ^ 64 }
{
    part_size(part.key, part.bytes.as_slice().len() as u64)
}

/// Returns the length of a full state.
#[tactic(auto, unfolding(crate::specs::Parts::writes_parts))]
fn parts_len(parts: &[Part]) -> u128
    ensures { result ≡ length (writes_parts parts.now) }
{
    let mut len = 0;
    for part in parts {
        len += u128::from(delimited_len(1, part_len(part)));
    }
    len
}

fn payload_len(frame: &Frame) -> u128
    ensures { result ≡ length (payload_encoding frame.now) }
{
    match frame {
        Frame::Delta(part) => u128::from(part_len(part)),
        Frame::Push(state) | Frame::Pull(state) => parts_len(state.parts()),
        Frame::Tick => 0,
    }
}

// Each function here that appends keeps the bytes in front of what it appends, even if it fails.
fn append_varint(out: &mut Vec<u8>, value: u64) -> Result<(), AllocError>
    ensures ok { OnOk result (out.new.items ≡ out.old.items ++ shortest value) }
    ensures front { BeginsWith out.old.items out.new.items }
{
    out.extend_from_slice(write_varint(value).as_slice())?;
    Ok(())
}

/// Appends bytes as a field, which is left out if there are none.
fn push_bytes(out: &mut Vec<u8>, number: u32, bytes: &[u8]) -> Result<(), AllocError>
    requires { number < 2 ^ 29 }
    ensures ok { OnOk result (out.new.items ≡ out.old.items ++ writes_text number bytes.now) }
    ensures front { BeginsWith out.old.items out.new.items }
{
    if bytes.is_empty() {
        return Ok(());
    }
    append_varint(out, u64::from(number) * 8 + 2)?;
    append_varint(out, bytes.len() as u64)?;
    out.extend_from_slice(bytes)
}

#[tactic(auto, unfolding(crate::specs::Parts::writes_part))]
fn push_part(out: &mut Vec<u8>, part: &Part) -> Result<(), AllocError>
    ensures ok { OnOk result (out.new.items ≡ out.old.items ++ writes_part part.now) }
    ensures front { BeginsWith out.old.items out.new.items }
{
    push_bytes(out, 1, part.key.as_str().as_bytes())?;
    push_bytes(out, 2, part.bytes.as_slice())
}

/// Appends a part as a field of a full state.
fn take_item(out: &mut Vec<u8>, part: &Part) -> Result<(), AllocError>
    ensures ok { OnOk result (out.new.items ≡ out.old.items ++ writes_delimited 1 (writes_part part.now)) }
    ensures front { BeginsWith out.old.items out.new.items }
{
    append_varint(out, PART_TAG)?;
    append_varint(out, part_len(part))?;
    push_part(out, part)
}

#[tactic(auto, unfolding(crate::specs::Parts::writes_parts))]
fn push_parts(out: &mut Vec<u8>, parts: &[Part]) -> Result<(), AllocError>
    ensures ok { OnOk result (out.new.items ≡ out.old.items ++ writes_parts parts.now) }
    ensures front { BeginsWith out.old.items out.new.items }
{
    for part in parts {
        take_item(out, part)?;
    }
    Ok(())
}

fn push_payload(out: &mut Vec<u8>, frame: &Frame) -> Result<(), AllocError>
    ensures ok { OnOk result (out.new.items ≡ out.old.items ++ payload_encoding frame.now) }
    ensures front { BeginsWith out.old.items out.new.items }
{
    match frame {
        Frame::Delta(part) => push_part(out, part),
        Frame::Push(state) | Frame::Pull(state) => push_parts(out, state.parts()),
        Frame::Tick => Ok(()),
    }
}

/// Returns the length of a frame's payload, or [`FrameError::Length`] if it is over the limit of its kind.
fn payload_size(frame: &Frame) -> Result<u64, FrameError>
    ensures exact { IfOk result (λ size. size ≡ length (payload_encoding frame.now)) }
    ensures within { OnOk result (length (payload_encoding frame.now) ≤ limit (kind_of frame.now)) }
    ensures too_long { IfErr result (λ e. (e ≡ FrameError.Length) × (limit (kind_of frame.now) < length (payload_encoding frame.now))) }
{
    let size = payload_len(frame);
    if size > u128::from(frame.kind().limit()) {
        return Err(FrameError::Length);
    }
    Ok(size as u64)
}

/// Appends a frame whose payload has `size` bytes.
fn push_frame(out: &mut Vec<u8>, frame: &Frame, size: u64) -> Result<(), AllocError>
    requires { size ≡ length (payload_encoding frame.now) }
    ensures ok { OnOk result (out.new.items ≡ out.old.items ++ frame_encoding frame.now) }
    ensures front { BeginsWith out.old.items out.new.items }
{
    out.push(frame.kind().code())?;
    append_varint(out, size)?;
    push_payload(out, frame)
}

/// Returns the canonical encoding of a frame: the byte of its kind, the length of its payload in the shortest spelling, and the
/// payload. Memory is allocated once, for exactly these bytes.
///
/// # Errors
///
/// [`FrameError::Length`] for a payload over its kind's limit, which is 4,194,304 bytes for a Delta and 67,108,864 for a Push
/// or a Pull, whatever memory there is; or else [`FrameError::Memory`].
pub fn encode_frame(alloc: Global, frame: &Frame) -> Result<Vec<u8>, FrameError>
    // PROMISE: A frame is written in its one form.
    ensures written { IfOk result (λ bytes. bytes.items ≡ frame_encoding frame.now) }
    ensures size { OnOk result (length (payload_encoding frame.now) ≤ limit (kind_of frame.now)) }
    ensures too_long { (result ≡ Err FrameError.Length) ↔ (limit (kind_of frame.now) < length (payload_encoding frame.now)) }
    ensures refused { IfErr result (λ e. (e ≡ FrameError.Length) ⊎ (e ≡ FrameError.Memory)) }
{
    let size = payload_size(frame)?;
    let mut out = Vec::with_capacity(alloc, 1 + (varint_size(size) + size) as usize)?;
    push_frame(&mut out, frame, size)?;
    Ok(out)
}

/// Appends the canonical encoding of a frame, as [`encode_frame`] returns it.
///
/// # Errors
///
/// As for [`encode_frame`]. The bytes in `out` are unchanged after either.
pub fn append_frame(out: &mut Vec<u8>, frame: &Frame) -> Result<(), FrameError>
    ensures written { OnOk result (out.new.items ≡ out.old.items ++ frame_encoding frame.now) }
    ensures unchanged { OnErr result (out.new.items ≡ out.old.items) }
    ensures too_long { (result ≡ Err FrameError.Length) ↔ (limit (kind_of frame.now) < length (payload_encoding frame.now)) }
    ensures refused { IfErr result (λ e. (e ≡ FrameError.Length) ⊎ (e ≡ FrameError.Memory)) }
{
    let size = payload_size(frame)?;
    let held = out.len();
    if push_frame(out, frame, size).is_err() {
        out.truncate(held);
        return Err(FrameError::Memory);
    }
    Ok(())
}

/// Returns whether the payload of a frame is within the limit of its kind. Nothing is allocated.
pub fn frame_fits(frame: &Frame) -> bool
    ensures { result ≡ fits frame.now }
{
    payload_len(frame) <= u128::from(frame.kind().limit())
}

/// Returns whether a Delta is within its limit if its part holds `size` bytes; [`u64::MAX`] represents every number that is
/// at least that. Nothing is allocated.
pub fn delta_fits(key: StateKey, size: u64) -> bool
    ensures { (part : Part) → part.key ≡ key → size ≡ counted (length part.bytes) → result ≡ fits (frames.Delta part) }
{
    let limit = FrameKind::Delta.limit();
    size <= limit && part_size(key, size) <= limit
}

/// Returns whether a Push, or a Pull, is within its limit if its parts hold `silences` bytes of silences and `log` bytes of
/// the log. Nothing is allocated.
#[tactic(auto, unfolding(crate::specs::Parts::writes_parts))]
pub fn states_fit(silences: u64, log: u64) -> bool
    ensures push { (row_of_silences row_of_log : List ℕ) → length row_of_silences ≡ silences → length row_of_log ≡ log →
        result ≡ fits (frames.Push (states row_of_silences row_of_log)) }
    ensures pull { (row_of_silences row_of_log : List ℕ) → length row_of_silences ≡ silences → length row_of_log ≡ log →
        result ≡ fits (frames.Pull (states row_of_silences row_of_log)) }
{
    let limit = FrameKind::Push.limit();
    if silences > limit || log > limit {
        return false;
    }
    let len = delimited_len(1, part_size(StateKey::Sil, silences))
        + delimited_len(1, part_size(StateKey::Nfl, log));
    len <= limit
}
