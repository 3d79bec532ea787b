//! The bytes by which the rows of the states may grow with what was said.

use am_api_silences::Read;
use am_gossip::{Frame, Part, StateKey};
use am_http::session::SessionOutput;
use am_http::{Call, Request, call_of};

/// The most bytes that a post or a notice adds to a row besides those of its body.
const BESIDE_BODY: u64 = 512;

/// Returns the number of bytes that a part of a frame brings for a state.
fn part_bytes(part: &Part, state: StateKey) -> u64 {
    if part.key == state {
        part.bytes.as_slice().len() as u64
    } else {
        0
    }
}

/// Returns the number of bytes that parts bring for a state.
fn parts_bytes(parts: &[Part], state: StateKey) -> u64 {
    let mut bytes: u64 = 0;
    for part in parts {
        bytes = bytes.saturating_add(part_bytes(part, state));
    }
    bytes
}

/// Returns the number of bytes that a frame brings for a state.
pub fn frame_bytes(frame: &Frame, state: StateKey) -> u64 {
    match frame {
        Frame::Delta(part) => part_bytes(part, state),
        Frame::Push(full) | Frame::Pull(full) => parts_bytes(full.parts(), state),
        Frame::Tick => 0,
    }
}

/// Returns the most bytes by which a request lets its row grow: a post that of the silences, a notice that of the log.
pub fn request_bytes(request: &Request) -> u64 {
    BESIDE_BODY.saturating_add(request.body.len() as u64)
}

/// Returns the most bytes by which a post lets the row of the silences grow, if something is posted.
pub fn post_bytes(said: &SessionOutput) -> Option<u64> {
    let Some(Read::Whole(request)) = &said.request else {
        return None;
    };
    match call_of(&request.method, &request.target) {
        Ok(Call::Post) => Some(request_bytes(request)),
        _ => None,
    }
}

/// Returns the most bytes by which the frames that were said let the row of a state grow.
fn bytes_of_frames(frames: &[Frame], state: StateKey) -> u64 {
    let mut bytes: u64 = 0;
    for frame in frames {
        bytes = bytes.saturating_add(frame_bytes(frame, state));
    }
    bytes
}

/// Returns the most bytes by which what was said lets the row of the silences grow, except for the ends of silences.
pub fn silences_said(said: &SessionOutput) -> u64 {
    let posted = post_bytes(said).unwrap_or(0);
    posted.saturating_add(bytes_of_frames(&said.frames, StateKey::Sil))
}

/// Returns the most bytes by which the frames that were said let the row of the log grow.
pub fn log_said(said: &SessionOutput) -> u64 {
    bytes_of_frames(&said.frames, StateKey::Nfl)
}
